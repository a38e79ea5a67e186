// The calls of a script, one after the other.
ghost use Rattle.replay.specs.Lengths.{SameLent, SameInput, SameOutput};

use crate::failure::Failure;
use crate::input::Input;
use crate::output::Output;
use crate::{calls, frame};
use script_calls::Lent;
use std::io::Read;
use std::ops::ControlFlow;

// The longest call.
const LONGEST: usize = 131104;

// One call. Its bytes are in the buffer before it is made.
fn one<P: Print, R: Read>(
    input: &mut Input<R>,
    output: &mut Output<P>,
    lent: &mut Lent,
) -> Result<ControlFlow<()>, Failure>
    ensures lent { SameLent lent.old lent.new }
    ensures input { SameInput input.old input.new }
    ensures output { SameOutput output.old output.new }
{
    input.ahead(LONGEST)?;
    let f = frame::first(input.bytes()).ok_or(Failure::Fault)?;
    let next = calls::call(&f, lent, output)?;
    let size = f.call.len();
    input.consume(size);
    Ok(next)
}

// Calls until the script's end. A loop has to end, so there is a count of turns, more than a script can have calls.
pub fn all<P: Print, R: Read>(
    input: &mut Input<R>,
    output: &mut Output<P>,
    lent: &mut Lent,
) -> Result<(), Failure>
    ensures lent { SameLent lent.old lent.new }
    ensures input { SameInput input.old input.new }
    ensures output { SameOutput output.old output.new }
{
    for _ in 0..u64::MAX {
        if one(input, output, lent)?.is_break() {
            return Ok(());
        }
    }
    Err(Failure::Fault)
}
