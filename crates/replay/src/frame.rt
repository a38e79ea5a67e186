// A call in the bytes of the script.
ghost use Rattle.std.specs.Prelude.{◌≡◌, true, ℕ, ◌≤◌, ◌<◌, length, get_or, IfSome};
ghost use Rattle.replay.specs.Found.{Found};

use crate::opcode::Opcode;

// The longest record.
const LONGEST: usize = 131072;

// A call at the front of some bytes: its opcode, the whole call, its byte data, and what stands behind the call.
#[derive(Clone, Copy)]
pub struct Frame<'a> {
    pub opcode: Opcode,
    pub call: &'a [u8],
    pub bytes: &'a [u8],
    pub rest: &'a [u8],
}

fn all_zero(s: &[u8]) -> bool
    ensures { result ≡ true → (k : ℕ) → k < length s.now → get_or s.now k 0 ≡ 0 }
{
    s.iter().all(|b| *b == 0)
}

// A call whose byte data has its length at `front`. Zero bytes stand behind the data, up to the next multiple of 4.
fn with_data(s: &[u8], opcode: Opcode, front: usize) -> Option<Frame<'_>>
    requires { front ≤ 28 }
    ensures { IfSome result (λ f. Found f s.now) }
{
    let from = front + 4;
    if s.len() < from {
        return None;
    }
    let count = words::read::<4>(s, front) as usize;
    if LONGEST < count {
        return None;
    }
    let to = from + count;
    let (call, rest) = s.split_at_checked(from + count.next_multiple_of(4))?;
    if !all_zero(&call[to..]) {
        return None;
    }
    Some(Frame {
        opcode,
        call,
        bytes: &call[from..to],
        rest,
    })
}

// The call at the front of the bytes, where one lies whole in them.
pub fn first(s: &[u8]) -> Option<Frame<'_>>
    ensures { IfSome result (λ f. Found f s.now) }
{
    if s.len() < 4 {
        return None;
    }
    let opcode = Opcode::try_from(words::read::<4>(s, 0)).ok()?;
    let front = opcode.before_data();
    if opcode.has_data() {
        return with_data(s, opcode, front);
    }
    let (call, rest) = s.split_at_checked(front)?;
    Some(Frame {
        opcode,
        call,
        bytes: &call[front..],
        rest,
    })
}
