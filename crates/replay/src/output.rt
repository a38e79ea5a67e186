// Text for standard output, through a buffer that is written where it is full. A text or a number that it cannot make room for, as
// the write fails, is not put into it.
ghost use Rattle.std.specs.Prelude.{◌≡◌, ◌+◌, ◌≤◌, length, OnOk, OnErr};

use script_format::text::Text;
use std::io;

// The longest number, with the byte after it.
const NUMBER: usize = 21;

// What waits to be printed. There is always room for a number, once what waits is written.
#[derive(Drop)]
pub struct Output<'a, P> {
    rt: &'a P,
    text: Text<'a>,
    ghost room: { 21 ≤ length text.buffer.now },
}

impl<'a, P: Print> Output<'a, P> {
    ghost use Rattle.replay.specs.Lengths.{SameOutput};

    pub fn new(rt: &'a P, buffer: &'a mut [u8]) -> Output<'a, P>
        requires { 21 ≤ length buffer.old }
        ensures lent { (result.text.buffer.ghost_name ≡ buffer.entry.ghost_name) × (result.text.buffer.now ≡ buffer.old) }
        ensures empty { result.text.len ≡ 0 }
    {
        Output {
            rt,
            text: Text::new(buffer),
        }
    }

    // Writes what waits.
    pub fn flush(&mut self) -> io::Result<()>
        ensures flushed { OnOk result (self.new.text.len ≡ 0) }
        ensures lent { self.new.text.buffer.ghost_name ≡ self.old.text.buffer.ghost_name }
        ensures buffer { self.new.text.buffer.now ≡ self.old.text.buffer.now }
        ensures waits { OnErr result (self.new.text.len ≡ self.old.text.len) }
    {
        self.rt.write_all(self.text.as_bytes())?;
        self.text.clear();
        Ok(())
    }

    // Makes room for `more` bytes.
    fn reserve(&mut self, more: usize) -> io::Result<()>
        requires { more ≤ length self.old.text.buffer.now }
        ensures room { OnOk result (self.new.text.len + more ≤ length self.new.text.buffer.now) }
        ensures lent { self.new.text.buffer.ghost_name ≡ self.old.text.buffer.ghost_name }
        ensures buffer { self.new.text.buffer.now ≡ self.old.text.buffer.now }
        ensures waits { OnErr result (self.new.text.len ≡ self.old.text.len) }
    {
        if self.text.room() < more {
            self.flush()?;
        }
        Ok(())
    }

    pub fn text(&mut self, s: &[u8]) -> io::Result<()>
        requires { length s.now ≤ length self.old.text.buffer.now }
        ensures size { SameOutput self.old self.new }
        ensures err { OnErr result (self.new.text.buffer.now ≡ self.old.text.buffer.now) }
        ensures waits { OnErr result (self.new.text.len ≡ self.old.text.len) }
    {
        self.reserve(s.len())?;
        self.text.put(s);
        Ok(())
    }

    pub fn number(&mut self, n: u64, after: u8) -> io::Result<()>
        ensures size { SameOutput self.old self.new }
        ensures err { OnErr result (self.new.text.buffer.now ≡ self.old.text.buffer.now) }
        ensures waits { OnErr result (self.new.text.len ≡ self.old.text.len) }
    {
        self.reserve(NUMBER)?;
        self.text.decimal(n);
        self.text.put(&[after]);
        Ok(())
    }

    // A line of numbers, separated by single spaces.
    pub fn line(&mut self, numbers: &[u64]) -> io::Result<()>
        ensures { SameOutput self.old self.new }
    {
        if let Some((last, front)) = numbers.split_last() {
            for n in front {
                self.number(*n, b' ')?;
            }
            self.number(*last, b'\n')?;
        }
        Ok(())
    }
}
