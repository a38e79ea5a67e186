// The records of the file `stdin` beside src/, which the gate hands to the program as its standard input. An entry is a
// 32-bit word with the length of its label, the label, the status that should come, a word with the length of its record,
// and the record.
ghost use Rattle.std.specs.Prelude.{◌+◌, ◌≤◌, length, IfSome};

use crate::line::line;
use script_input::read_full;
use std::io;
use std::io::Read;

pub fn all(rt: &impl Print, reader: &mut impl Read) -> io::Result<()> {
    let mut space = [0u8; 262144];
    let n = read_full(reader, &mut space)?;
    walk(rt, &space[..n])
}

// Entry by entry, to the end or to one that does not lie whole in the bytes.
fn walk(rt: &impl Print, s: &[u8]) -> io::Result<()> {
    let mut rest = s;
    while !rest.is_empty() {
        let Some(entry) = first(rest) else {
            return rt.write_all(b"bad vectors\n");
        };
        line(rt, entry.label, judge::status(entry.emf), entry.status)?;
        rest = entry.rest;
    }
    Ok(())
}

// An entry, and what stands behind it.
#[derive(Clone, Copy)]
struct Entry<'a> {
    label: &'a [u8],
    status: u32,
    emf: &'a [u8],
    rest: &'a [u8],
}

// The entry at the front, where it lies whole in the bytes.
fn first(s: &[u8]) -> Option<Entry<'_>>
    ensures { IfSome result (λ e. length e.rest.now + 8 ≤ length s.now) }
{
    let (label, behind) = piece(s)?;
    let (status, behind) = behind.split_first_chunk()?;
    let (emf, rest) = piece(behind)?;
    Some(Entry {
        label,
        status: u32::from_le_bytes(*status),
        emf,
        rest,
    })
}

// A piece behind the word with its length, and what stands behind the piece.
fn piece(s: &[u8]) -> Option<(&[u8], &[u8])>
    ensures { IfSome result (λ p. length p.1.now + 4 ≤ length s.now) }
{
    let (long, behind) = s.split_first_chunk()?;
    behind.split_at_checked(u32::from_le_bytes(*long) as usize)
}
