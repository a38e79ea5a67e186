// The calls of a script. All of a call is judged before it is made: a faulty one prints nothing.
ghost use Rattle.std.specs.Prelude.{◌≡◌, length, OnErr};
ghost use Rattle.replay.specs.Lengths.{SameLent, SameOutput};
ghost use Rattle.script_calls.specs.Kept.{SameLoan};

use crate::failure::Failure;
use crate::frame::Frame;
use crate::opcode::Opcode;
use crate::output::Output;
use script_calls::{Lent, Loan};
use std::io;
use std::ops::ControlFlow;
use words::refusal::Refusal;

// The script's end, behind which no byte may stand.
fn end(f: &Frame) -> Result<(), Failure> {
    if !f.rest.is_empty() {
        return Err(Failure::Fault);
    }
    Ok(())
}

// The numbers of a play's or an undo's line: status, pixels, and the records in use.
fn numbers(answer: Result<u32, Refusal>, lent: &Lent) -> [u64; 3] {
    let (status, pixels) = player::numbers(answer);
    [u64::from(status), u64::from(pixels), lent.loan.used]
}

// A play and its line. The next calls are lent what this one was.
fn play<P: Print>(f: &Frame, lent: &mut Lent, output: &mut Output<P>) -> io::Result<()>
    ensures lent { SameLent lent.old lent.new }
    ensures loan { SameLoan lent.old lent.new }
    ensures output { SameOutput output.old output.new }
{
    let answer = lent.play(f.bytes, f.call);
    output.line(&numbers(answer, lent))
}

// An undo and its line, alike; the journal is only read.
fn undo<P: Print>(lent: &mut Lent, output: &mut Output<P>) -> io::Result<()>
    ensures lent { SameLent lent.old lent.new }
    ensures loan { SameLoan lent.old lent.new }
    ensures journal { lent.new.journal.now ≡ lent.old.journal.now }
    ensures output { SameOutput output.old output.new }
{
    let answer = lent.undo();
    output.line(&numbers(answer, lent))
}

fn read<P: Print>(f: &Frame, output: &mut Output<P>) -> Result<(), Failure>
    ensures { SameOutput output.old output.new }
{
    let mask = match words::read::<4>(f.call, 4) {
        0 => false,
        1 => true,
        _ => return Err(Failure::Fault),
    };
    output.line(&script_calls::read(f.bytes, mask))?;
    Ok(())
}

// The sides, and how much of the surface and the journal the next calls are lent.
fn lend(f: &Frame, lent: &mut Lent) -> Result<(), Failure>
    ensures lent { SameLent lent.old lent.new }
    ensures stays { (lent.new.surface.now ≡ lent.old.surface.now) × (lent.new.journal.now ≡ lent.old.journal.now)
        × (lent.new.loan.used ≡ lent.old.loan.used) }
    ensures err { OnErr result (lent.new.loan ≡ lent.old.loan) }
{
    let pixels = words::read::<4>(f.call, 12) as usize;
    let bytes = words::read::<4>(f.call, 16) as usize;
    if lent.surface.len() < pixels {
        return Err(Failure::Fault);
    }
    if lent.journal.len() < bytes {
        return Err(Failure::Fault);
    }
    lent.loan = Loan {
        width: words::read::<4>(f.call, 4),
        height: words::read::<4>(f.call, 8),
        pixels,
        bytes,
        used: lent.loan.used,
    };
    Ok(())
}

// The count in use.
fn count(f: &Frame, loan: &mut Loan)
    ensures { loan.new ≡ record loan.old { used = loan.new.used } }
{
    loan.used = u64::from(words::read::<4>(f.call, 4));
}

// Four bytes of the journal.
fn poke(f: &Frame, journal: &mut [u8]) -> Result<(), Failure>
    ensures { length journal.new ≡ length journal.old }
{
    let at = words::read::<4>(f.call, 4) as usize;
    if journal.len() < at + 4 {
        return Err(Failure::Fault);
    }
    words::store_u32(journal, at, words::read::<4>(f.call, 8));
    Ok(())
}

// Makes the call. It breaks the script off where it is the script's end.
pub fn call<P: Print>(
    f: &Frame,
    lent: &mut Lent,
    output: &mut Output<P>,
) -> Result<ControlFlow<()>, Failure>
    ensures lent { SameLent lent.old lent.new }
    ensures output { SameOutput output.old output.new }
{
    match f.opcode {
        Opcode::End => {
            end(f)?;
            return Ok(ControlFlow::Break(()));
        }
        Opcode::Play => play(f, lent, output)?,
        Opcode::Undo => undo(lent, output)?,
        Opcode::Read => read(f, output)?,
        Opcode::Lend => lend(f, lent)?,
        Opcode::Count => count(f, &mut lent.loan),
        Opcode::Poke => poke(f, lent.journal)?,
    }
    Ok(ControlFlow::Continue(()))
}
