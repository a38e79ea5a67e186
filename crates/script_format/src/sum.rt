// FNV-1a of 64 bits, over bytes and over 32-bit numbers.
ghost use Rattle.std.specs.Prelude.{◌≡◌};
ghost use Rattle.words.specs.Bytes.{bytes32};
ghost use Rattle.script_format.specs.Sum.{step, sum_from, sum_of, bytes_of};

// The sum of no bytes.
const START: u64 = 14695981039346656037;

// One byte.
#[tactic(auto, unfolding(crate::specs::Sum::step))]
fn next(h: u64, b: u8) -> u64
    ensures { result ≡ step h b }
{
    (h ^ u64::from(b)).wrapping_mul(1099511628211)
}

// The four bytes of a number, the lowest first.
fn next_word(h: u64, v: u32) -> u64
    ensures { result ≡ sum_from h (bytes32 v) }
{
    let [a, b, c, d] = v.to_le_bytes();
    next(next(next(next(h, a), b), c), d)
}

// The sum of the bytes. It and `of_words` are a line each; one function over both would have to be told how an item is summed.
pub fn of_bytes(s: &[u8]) -> u64
    ensures { result ≡ sum_of s.now }
{
    s.iter().fold(START, |h, b| next(h, *b))
}

// The sum of the numbers' bytes.
pub fn of_words(s: &[u32]) -> u64
    ensures { result ≡ sum_of (bytes_of s.now) }
{
    s.iter().fold(START, |h, v| next_word(h, *v))
}
