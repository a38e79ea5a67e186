// The script, read front to back through a buffer.
ghost use Rattle.std.specs.Prelude.{◌≡◌, ◌+◌, ◌≤◌, false, [], length, drop, IfOk};

use crate::failure::Failure;
use script_input::read_full;
use std::io;
use std::io::Read;

// The buffer's bytes from `at` to `end` are read and not yet consumed. That the input has ended is a flag of its own, since the bytes do not
// say whether more come. The program keeps to fixed memory, which std's BufReader does not.
#[derive(Drop)]
pub struct Input<'a, R> {
    reader: &'a mut R,
    buffer: &'a mut [u8],
    at: usize,
    end: usize,
    has_ended: bool,
    ghost ordered: { at ≤ end },
    ghost within: { end ≤ length buffer.now },
}

impl<'a, R: Read> Input<'a, R> {
    ghost use Rattle.replay.specs.Lengths.{SameInput};
    ghost use Rattle.replay.specs.Unread.{unread, StaysInFront, TakesNumber};

    pub fn new(reader: &'a mut R, buffer: &'a mut [u8]) -> Input<'a, R>
        ensures lent { (result.buffer.ghost_name ≡ buffer.entry.ghost_name) × (result.buffer.now ≡ buffer.old) }
        ensures unread { unread result ≡ [] }
        ensures not_ended { result.has_ended ≡ false }
    {
        Input {
            reader,
            buffer,
            at: 0,
            end: 0,
            has_ended: false,
        }
    }

    // What the buffer holds of the script from its next byte on.
    pub fn bytes(&self) -> &[u8]
        ensures { result.now ≡ unread self.now }
    {
        &self.buffer[self.at..self.end]
    }

    // Passes over some bytes, or all that the buffer holds.
    pub fn consume(&mut self, count: usize)
        ensures unread { unread self.new ≡ drop count (unread self.old) }
        ensures size { SameInput self.old self.new }
    {
        let held = self.end - self.at;
        self.at += count.min(held);
    }

    // Moves the bytes to the buffer's front and fills the rest.
    fn refill(&mut self) -> io::Result<()>
        ensures unread { StaysInFront self.old self.new }
        ensures size { SameInput self.old self.new }
    {
        let held = self.end - self.at;
        self.buffer.copy_within(self.at..self.end, 0);
        self.at = 0;
        self.end = held;
        let read = read_full(self.reader, &mut self.buffer[held..])?;
        self.end = held + read;
        self.has_ended = self.end < self.buffer.len();
        Ok(())
    }

    // Has `count` bytes to read in the buffer, or else all there are.
    pub fn ahead(&mut self, count: usize) -> io::Result<()>
        ensures unread { StaysInFront self.old self.new }
        ensures size { SameInput self.old self.new }
    {
        if self.end - self.at < count && !self.has_ended {
            self.refill()?;
        }
        Ok(())
    }

    // The next number.
    pub fn number(&mut self) -> Result<u32, Failure>
        ensures number { IfOk result (TakesNumber self.old self.new) }
        ensures size { SameInput self.old self.new }
    {
        self.ahead(4)?;
        let bytes = self.bytes();
        if bytes.len() < 4 {
            return Err(Failure::Fault);
        }
        let number = words::read::<4>(bytes, 0);
        self.consume(4);
        Ok(number)
    }

    // As many numbers as the slice takes.
    pub fn numbers(&mut self, to: &mut [u32]) -> Result<(), Failure>
        ensures size { SameInput self.old self.new }
        ensures numbers { length to.new ≡ length to.old }
    {
        for x in to.iter_mut() {
            *x = self.number()?;
        }
        Ok(())
    }
}
