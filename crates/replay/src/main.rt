// Makes the calls that a script lists, and prints a line for each. The script comes as standard input. Any player that reads
// the same script must print the same text. Where a read or a write fails, the program ends with that error: of what was lent only
// the lengths are known then, and what waits to be printed is lost. That lengths stay is said by `SameLent`, `SameInput`, `SameOutput` and
// `SameSizes`: facts of before and after, which no type holds.
#![tactic(auto)]

mod calls;
mod failure;
mod frame;
mod head;
mod input;
mod opcode;
mod output;
mod turns;

use input::Input;
use output::Output;
use std::io;
use std::io::Read;

fn main(rt: HostRuntime) -> io::Result<()> {
    let mut surface = [0u32; 262144];
    let mut journal = [0u8; 1048576];
    let mut read = [0u8; 196608];
    let mut written = [0u8; 65536];
    let mut stdin = rt.stdin();
    run(
        &rt,
        &mut stdin,
        &mut surface,
        &mut journal,
        &mut read,
        &mut written,
    )
}

// The arrays as slices. The lengths of surface and journal are the limits of a script.
fn run<P: Print, R: Read>(
    rt: &P,
    reader: &mut R,
    surface: &mut [u32; 262144],
    journal: &mut [u8; 1048576],
    read: &mut [u8; 196608],
    written: &mut [u8; 65536],
) -> io::Result<()> {
    let mut input = Input::new(reader, read);
    let mut output = Output::new(rt, written);
    head::script(&mut input, &mut output, surface, journal)
}
