// Reading a stream into lent memory.
#![tactic(auto)]

ghost use Rattle.std.specs.Prelude.{◌≡◌, ◌<◌, ◌≤◌, length, take, IfOk};
ghost use Rattle.std.specs.Io.KnownBytes.{Consumes, IsAtEnd};

use std::io;
use std::io::Read;

// Reads until the slice is full or the stream ends; how many bytes came. A slice that is cut shorter each turn would need the count
// beside it all the same; std's `read_exact` does not say how many bytes came, and `read_to_end` takes a Vec.
pub fn read_full<R: Read>(reader: &mut R, to: &mut [u8]) -> io::Result<usize>
    ensures bound { IfOk result (λ n. n ≤ length to.new) }
    ensures bytes { IfOk result (λ n. Consumes (R.remaining reader.old) (R.remaining reader.new) (take n to.new)) }
    ensures end { IfOk result (λ n. n < length to.new → IsAtEnd (R.remaining reader.new)) }
{
    let mut done = 0;
    while done < to.len() {
        let n = reader.read(&mut to[done..])?;
        if n == 0 {
            break;
        }
        done += n;
    }
    Ok(done)
}
