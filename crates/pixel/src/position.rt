// Where things lie in pictures. Extents are plain numbers that are asked not to be 0, as headers and records hold them: a NonZeroU32 would be
// made of each by a test that cannot fail.
ghost use Rattle.std.specs.Prelude.{◌≡◌, ◌≤◌, ◌<◌};
ghost use Rattle.pixel.specs.Position.{row_length, source_position, remainder as remainder_of, mask_pixel};

// The bytes of a row. At 64 bits nothing wraps, whatever the width and depth.
#[tactic(auto, unfolding(crate::specs::Position::row_length))]
pub fn row_length(width: u32, bits: u32) -> u64
    ensures { result ≡ row_length width bits }
{
    (u64::from(width) * u64::from(bits)).div_ceil(32) * 4
}

// The source column (or row) that column (or row) i of a target of extent m reads, of n.
#[tactic(auto, unfolding(crate::specs::Position::source_position))]
pub fn source_position(mirrored: bool, i: u32, n: u32, m: u32) -> u32
    requires { (i < m) × (1 ≤ n) }
    ensures { result ≡ source_position mirrored i n m }
{
    let j = (u64::from(i) * u64::from(n) / u64::from(m)) as u32;
    if mirrored { n - 1 - j } else { j }
}

// The least non-negative remainder of z by w.
#[tactic(auto, unfolding(crate::specs::Position::remainder))]
pub fn remainder(z: i64, w: u32) -> u32
    requires { 1 ≤ w }
    ensures { result ≡ remainder_of z w }
{
    z.rem_euclid(i64::from(w)) as u32
}

// The column (or row) of the mask that column (or row) i of the target reads.
#[tactic(auto, unfolding(crate::specs::Position::mask_pixel))]
pub fn mask_pixel(corner: i32, i: u32, extent: u32) -> u32
    requires { 1 ≤ extent }
    ensures { result ≡ mask_pixel corner i extent }
{
    remainder(i64::from(corner) + i64::from(i), extent)
}
