// What the journal holds before the first call.
ghost use Rattle.std.specs.Prelude.{◌≡◌, length};
ghost use Rattle.words.specs.Tabulated.{tabulate};
ghost use Rattle.script_format.specs.Fill.{fill_byte};

fn byte(seed: u32, k: usize) -> u8
    ensures { result ≡ fill_byte seed k }
{
    let mixed = seed
        .wrapping_add((k % 4294967296) as u32)
        .wrapping_mul(2654435761);
    (mixed >> 24) as u8
}

// Byte k is the seed's byte k.
pub fn all(s: &mut [u8], seed: u32)
    ensures { s.new ≡ tabulate (length s.old) (fill_byte seed) }
{
    words::fill::by_place(s, |k| byte(seed, k));
}
