// Text that grows in lent memory.
ghost use Rattle.std.specs.Prelude.{◌≡◌, ◌+◌, ◌-◌, ◌≤◌, length, take};
ghost use Rattle.std.proofs.lemmas.List.Edits.{sets};

// The first `len` bytes of the buffer are the text. No Vec: no library crate here uses the heap.
#[derive(Drop)]
pub struct Text<'a> {
    pub buffer: &'a mut [u8],
    pub len: usize,
    pub ghost within: { len ≤ length buffer.now },
}

impl<'a> Text<'a> {
    ghost use Rattle.script_format.specs.Text.{Printed};

    pub fn new(buffer: &'a mut [u8]) -> Text<'a>
        ensures lent { (result.buffer.ghost_name ≡ buffer.entry.ghost_name) × (result.buffer.now ≡ buffer.old) }
        ensures empty { result.len ≡ 0 }
    {
        Text { buffer, len: 0 }
    }

    pub fn as_bytes(&self) -> &[u8]
        ensures { result.now ≡ take self.now.len self.now.buffer.now }
    {
        &self.buffer[..self.len]
    }

    // How many more bytes there is room for.
    pub fn room(&self) -> usize
        ensures { result ≡ length self.now.buffer.now - self.now.len }
    {
        self.buffer.len() - self.len
    }

    pub fn clear(&mut self)
        ensures lent { self.new.buffer.ghost_name ≡ self.old.buffer.ghost_name }
        ensures empty { (self.new.len ≡ 0) × (self.new.buffer.now ≡ self.old.buffer.now) }
    {
        self.len = 0;
    }

    // The bytes of s.
    pub fn put(&mut self, s: &[u8])
        requires { self.old.len + length s.now ≤ length self.old.buffer.now }
        ensures lent { self.new.buffer.ghost_name ≡ self.old.buffer.ghost_name }
        ensures len { self.new.len ≡ self.old.len + length s.now }
        ensures bytes { self.new.buffer.now ≡ sets self.old.buffer.now self.old.len s.now }
        ensures size { length self.new.buffer.now ≡ length self.old.buffer.now }
    {
        words::copy(self.buffer, self.len, s);
        self.len += s.len();
    }

    // The number's decimal digits.
    // By `io::decimal`, which says what digits it gives and cannot fail: `write!` would answer an error for want of room, which is ruled out here.
    pub fn decimal(&mut self, n: u64)
        requires { self.old.len + 20 ≤ length self.old.buffer.now }
        ensures lent { self.new.buffer.ghost_name ≡ self.old.buffer.ghost_name }
        ensures printed { Printed n self.old.len self.new.len self.old.buffer.now self.new.buffer.now }
        ensures size { length self.new.buffer.now ≡ length self.old.buffer.now }
    {
        let mut digits = [0u8; 20];
        let count = io::decimal(n, &mut digits);
        self.put(&digits[..count]);
    }
}
