// A script from its head to its last line.
ghost use Rattle.std.specs.Prelude.{◌≡◌, ◌≤◌, length, IfOk, OnErr};
ghost use Rattle.replay.specs.Lengths.{SameInput, SameOutput, SameSizes};

use crate::failure::Failure;
use crate::input::Input;
use crate::output::Output;
use crate::turns;
use script_calls::{Lent, Loan};
use std::io;
use std::io::Read;

const MARK: u32 = 0x3143524F;

// The head, which lends the first call all there is. The lengths of surface and journal are its limits. The number after the mark is
// passed over.
fn start<R: Read>(
    input: &mut Input<R>,
    surface: &mut [u32],
    journal: &mut [u8],
) -> Result<Loan, Failure>
    ensures input { SameInput input.old input.new }
    ensures ok { IfOk result (λ l. (l.pixels ≤ length surface.old) × (l.bytes ≤ length journal.old)) }
    ensures err { OnErr result (SameSizes surface.old journal.old surface.new journal.new) }
{
    if input.number()? != MARK {
        return Err(Failure::Fault);
    }
    input.number()?;
    let width = input.number()?;
    let height = input.number()?;
    let pixels = input.number()? as usize;
    if surface.len() < pixels {
        return Err(Failure::Fault);
    }
    input.numbers(&mut surface[..pixels])?;
    let bytes = input.number()? as usize;
    let seed = input.number()?;
    let used = u64::from(input.number()?);
    if journal.len() < bytes {
        return Err(Failure::Fault);
    }
    script_format::fill::all(&mut journal[..bytes], seed);
    Ok(Loan {
        width,
        height,
        pixels,
        bytes,
        used,
    })
}

// The sums of the whole surface and the whole journal, lent or not.
fn sums<P: Print>(lent: &Lent, output: &mut Output<P>) -> io::Result<()>
    ensures { SameOutput output.old output.new }
{
    output.text(b"sheet ")?;
    output.number(script_format::sum::of_words(lent.surface), b'\n')?;
    output.text(b"journal ")?;
    output.number(script_format::sum::of_bytes(lent.journal), b'\n')
}

fn calls_and_sums<P: Print, R: Read>(
    input: &mut Input<R>,
    output: &mut Output<P>,
    surface: &mut [u32],
    journal: &mut [u8],
) -> Result<(), Failure>
    ensures streams { SameInput input.old input.new × SameOutput output.old output.new }
    ensures err { OnErr result (SameSizes surface.old journal.old surface.new journal.new) }
{
    let loan = start(input, surface, journal)?;
    let mut lent = Lent {
        surface: &mut surface[..loan.pixels],
        journal: &mut journal[..loan.bytes],
        loan,
    };
    turns::all(input, output, &mut lent)?;
    sums(&lent, output)?;
    Ok(())
}

// A whole script.
pub fn script<P: Print, R: Read>(
    input: &mut Input<R>,
    output: &mut Output<P>,
    surface: &mut [u32],
    journal: &mut [u8],
) -> io::Result<()>
    ensures streams { SameInput input.old input.new × SameOutput output.old output.new }
    ensures err { OnErr result (SameSizes surface.old journal.old surface.new journal.new) }
{
    match calls_and_sums(input, output, surface, journal) {
        Ok(()) => {}
        Err(Failure::Fault) => output.text(b"bad script\n")?,
        Err(Failure::Stream(e)) => return Err(e),
    }
    output.flush()
}
