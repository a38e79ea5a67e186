// The columns of the source and of the mask that the target's columns read, worked out once a play.
ghost use Rattle.std.specs.Prelude.{◌≡◌, ◌+◌, ◌^◌, ◌≤◌, ◌<◌, length};
ghost use Rattle.words.specs.Bytes.{magnitude32, signed32};
ghost use Rattle.words.specs.Filled.{Filled};
ghost use Rattle.pixel.specs.Position.{mask_pixel};
ghost use Rattle.meaning.specs.Sampling.{source_start, mirrored, source_column};

use words::fill::by_place;

// As a target's start in `region`, but no source's corner lies below 0.
#[tactic(auto, unfolding(crate::specs::Sampling::source_start))]
fn source_start(x: u32, source: u32) -> u32
    ensures { (result ≡ source_start x source) × (result ≤ x) }
{
    if words::is_negative(source) {
        x.saturating_sub(words::magnitude(source))
    } else {
        x
    }
}

#[tactic(auto, unfolding(crate::specs::Sampling::mirrored))]
fn is_mirrored(target: u32, source: u32) -> bool
    ensures { result ≡ mirrored target source }
{
    words::is_negative(target) != words::is_negative(source)
}

// The column (or row) of the source that column (or row) i of the target reads.
pub fn source_column(x: u32, source: u32, target: u32, i: u32) -> u32
    requires in_target { (i < magnitude32 target) × (1 ≤ magnitude32 source) }
    requires in_limits { (x < 2 ^ 31) × (magnitude32 source ≤ 16384) }
    ensures { result ≡ source_column x source target i }
{
    let start = source_start(x, source);
    let turned = is_mirrored(target, source);
    let n = words::magnitude(source);
    let m = words::magnitude(target);
    start + pixel::position::source_position(turned, i, n, m)
}

// The columns of the source that the target's columns from `index` on read.
pub fn of_source(x: u32, source: u32, target: u32, index: u32, out: &mut [u32])
    requires in_target { index + length out.old ≤ magnitude32 target }
    requires in_limits { (1 ≤ magnitude32 source) × (x < 2 ^ 31) × (magnitude32 source ≤ 16384) × (magnitude32 target ≤ 4096) }
    ensures { Filled (λ k. source_column x source target (index + k)) out.old (length out.old) out.new }
{
    by_place(out, |k| source_column(x, source, target, index + k as u32));
}

// The column (or row) of the mask that column (or row) i of the target reads.
pub fn mask_column(corner: u32, i: u32, extent: u32) -> u32
    requires { 1 ≤ extent }
    ensures { result ≡ mask_pixel (signed32 corner) i extent }
{
    pixel::position::mask_pixel(words::signed(corner), i, extent)
}

// The columns of the mask that the target's columns from `index` on read.
pub fn of_mask(corner: u32, width: u32, index: u32, out: &mut [u32])
    requires { (index + length out.old < 2 ^ 32) × (1 ≤ width) }
    ensures { Filled (λ k. mask_pixel (signed32 corner) (index + k) width) out.old (length out.old) out.new }
{
    by_place(out, |k| mask_column(corner, index + k as u32, width));
}
