// Statuses 3 to 7, and 21 between 6 and 7.
ghost use Rattle.std.specs.Prelude.{◌≡◌, ◌≤◌};
ghost use Rattle.words.specs.Refusal.{answer_of};
ghost use Rattle.emr.specs.FrameStatus.{bad_length, bad_size, frame_status, outside as outside_of, bad_parts, bad_transform, bad_usage, unreadable, parts_status};
ghost use Rattle.emr.specs.Types.{Near};

use crate::{Fields, Offsets, PictureFields};
use words::refusal::Refusal;

fn bad_length(len: usize) -> bool
    ensures { result ≡ bad_length len }
{
    (len < 8) | (16777216 < len)
}

fn bad_size(size: u32, len: usize, fixed: usize) -> bool
    ensures { result ≡ bad_size size len fixed }
{
    (size as usize != len) | (size % 4 != 0) | ((size as usize) < fixed)
}

// 3, 4 and 5, in this order.
#[tactic(auto, unfolding(crate::specs::FrameStatus::frame_status))]
pub fn frame(s: &[u8], at: Offsets) -> Result<(), Refusal>
    ensures { answer_of result ≡ frame_status s.now at }
{
    if bad_length(s.len()) {
        return Err(Refusal::BadLength);
    }
    if at.fixed == 0 {
        return Err(Refusal::UnknownType);
    }
    if bad_size(words::read::<4>(s, 4), s.len(), at.fixed) {
        return Err(Refusal::BadSize);
    }
    Ok(())
}

// At 64 bits the sum of an offset and a size does not wrap.
fn outside(len: usize, fixed: usize, at: u32, size: u32) -> bool
    ensures { result ≡ outside_of len fixed at size }
{
    ((at as usize) < fixed) | (len < at as usize + size as usize)
}

fn bad_parts(len: usize, fixed: usize, picture: Option<PictureFields>) -> bool
    ensures { result ≡ bad_parts len fixed picture }
{
    picture.is_some_and(|p| {
        outside(len, fixed, p.bmi, p.bmi_len) | outside(len, fixed, p.bits, p.bits_len)
    })
}

fn bad_transform(s: &[u8], at: usize) -> bool
    requires { at ≤ 128 }
    ensures { result ≡ bad_transform s.now at }
{
    (at != 0) & !crate::xform::is_identity(crate::xform::read(s, at))
}

fn bad_usage(picture: Option<PictureFields>) -> bool
    ensures { result ≡ bad_usage picture }
{
    picture.is_some_and(|p| p.usage != 0)
}

// 7, over both pictures.
fn unreadable(s: &[u8], at: Offsets, f: Fields) -> bool
    requires { Near at }
    ensures { result ≡ unreadable s.now at f }
{
    bad_transform(s, at.transform) | bad_usage(f.source) | bad_usage(f.mask)
}

// 6, 21 and 7, in this order.
#[tactic(auto, unfolding(crate::specs::FrameStatus::parts_status))]
pub fn parts(s: &[u8], at: Offsets, f: Fields) -> Result<(), Refusal>
    requires { Near at }
    ensures { answer_of result ≡ parts_status s.now at f }
{
    let outside = bad_parts(s.len(), at.fixed, f.source) | bad_parts(s.len(), at.fixed, f.mask);
    let shared = crate::shared::parts(f);
    let unread = unreadable(s, at, f);
    if outside {
        return Err(Refusal::PartOutside);
    }
    if shared {
        return Err(Refusal::SharedParts);
    }
    if unread {
        return Err(Refusal::Unreadable);
    }
    Ok(())
}
