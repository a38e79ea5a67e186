// Writing the journal's records, reading them, and restoring pixels from them. The journal is a plain slice, as it is lent; each function asks
// that the records that it goes through lie in it. Whether a record is a pixel's or a closing one is told by its first number, as the bytes have it.
#![tactic(auto)]

ghost use Rattle.std.specs.Prelude.{◌≡◌, false, ◌+◌, ◌*◌, ◌≤◌, length};
ghost use Rattle.std.proofs.lemmas.List.Edits.{sets};
ghost use Rattle.journal.specs.Records.{stride, entry_bytes, entry_at, entries_at};
ghost use Rattle.journal.specs.Restoring.{restored, any_off};

// The bytes of a record.
pub const STRIDE: usize = 12;

// The first number of a closing record.
pub const MARK: u32 = 0xFFFF_FFFF;

// Writes record i: three numbers and no Entry, since callers have them apart.
pub fn put(journal: &mut [u8], i: usize, first: u32, second: u32, third: u32)
    requires { (i + 1) * stride ≤ length journal.old }
    ensures { journal.new ≡ sets journal.old (i * stride) (entry_bytes first second third) }
{
    let at = i * STRIDE;
    words::store_u32(journal, at, first);
    words::store_u32(journal, at + 4, second);
    words::store_u32(journal, at + 8, third);
}

// A record: three numbers.
#[derive(Clone, Copy)]
pub struct Entry {
    pub first: u32,
    pub second: u32,
    pub third: u32,
}

// Record i.
pub fn load(journal: &[u8], i: usize) -> Entry
    requires { (i + 1) * stride ≤ length journal.now }
    ensures { result ≡ entry_at journal.now i }
{
    let at = i * STRIDE;
    Entry {
        first: words::load::<4>(journal, at),
        second: words::load::<4>(journal, at + 4),
        third: words::load::<4>(journal, at + 8),
    }
}

// Does one of n records from `from` on lie off the surface?
pub fn any_off(journal: &[u8], from: usize, n: usize, width: u32, height: u32) -> bool
    requires { (from + n) * stride ≤ length journal.now }
    ensures { result ≡ any_off width height (entries_at journal.now from n) }
{
    for i in from..from + n {
        let pixel = load(journal, i);
        if (width <= pixel.first) | (height <= pixel.second) {
            return true;
        }
    }
    false
}

// Restores the pixels of n records from `from` on, the last one first: a pixel drawn twice gets its oldest value back.
pub fn restore(surface: &mut [u32], width: u32, height: u32, journal: &[u8], from: usize, n: usize)
    requires in_journal { (from + n) * stride ≤ length journal.now }
    requires whole_surface { length surface.old ≡ width * height }
    requires on_surface { any_off width height (entries_at journal.now from n) ≡ false }
    ensures { surface.new ≡ restored width (entries_at journal.now from n) surface.old }
{
    for i in (from..from + n).rev() {
        let pixel = load(journal, i);
        surface[pixel.second as usize * width as usize + pixel.first as usize] = pixel.third;
    }
}
