// The tests of statuses 8 and 9, each on the numbers it is about. Where `judge` and `memory` test a side alike, the limit and the definition are
// others.
ghost use Rattle.std.specs.Prelude.{◌≡◌, ◌^◌, ◌≤◌, min};
ghost use Rattle.pixel.specs.Position.{is_depth};
ghost use Rattle.dib.specs.HeaderStatus.{bad_size, bad_compression, bad_extent, bad_colours, overlap as overlap_of, bad_channels, bad_overlaps};

use crate::Masks;

pub fn bad_size(size: u32) -> bool
    ensures { result ≡ bad_size size }
{
    !((size == 40) | (size == 108))
}

pub fn is_depth(bits: u32) -> bool
    ensures { result ≡ is_depth bits }
{
    (bits == 1) | (bits == 4) | (bits == 8) | (bits == 16) | (bits == 24) | (bits == 32)
}

pub fn bad_compression(compression: u32, bits: u32) -> bool
    ensures { result ≡ bad_compression compression bits }
{
    !((compression == 0) | (compression == 3) & ((bits == 16) | (bits == 32)))
}

pub fn bad_extent(n: u32) -> bool
    ensures { result ≡ bad_extent n }
{
    (n < 1) | (16384 < n)
}

// 2^bits, or 256 where that is less.
pub fn most_colours(bits: u32) -> u32
    ensures { result ≡ min (2 ^ bits) 256 }
{
    if bits < 8 { 1 << bits } else { 256 }
}

pub fn bad_colours(colours: u32, bits: u32) -> bool
    ensures { result ≡ bad_colours colours bits }
{
    most_colours(bits) < colours
}

fn overlap(a: u32, b: u32) -> bool
    ensures { result ≡ overlap_of a b }
{
    a & b != 0
}

pub fn bad_channels(bits: u32, m: Masks) -> bool
    requires { bits ≤ 32 }
    ensures { result ≡ bad_channels bits m }
{
    !pixel::masks::is_channel(bits, m.red)
        | !pixel::masks::is_channel(bits, m.green)
        | !pixel::masks::is_channel(bits, m.blue)
        | !((m.alpha == 0) | pixel::masks::is_channel(bits, m.alpha))
}

pub fn bad_overlaps(m: Masks) -> bool
    ensures { result ≡ bad_overlaps m }
{
    overlap(m.red, m.green)
        | overlap(m.red, m.blue)
        | overlap(m.green, m.blue)
        | overlap(m.alpha, m.red)
        | overlap(m.alpha, m.green)
        | overlap(m.alpha, m.blue)
}
