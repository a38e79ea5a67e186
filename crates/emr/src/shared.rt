// Status 21's test: two parts of the present pictures that have a byte in common.
ghost use Rattle.std.specs.Prelude.{◌≡◌};
ghost use Rattle.emr.specs.SharedParts.{share as share_of, share_within, share_between, shared_parts};

use crate::{Fields, PictureFields};

// The parts of n bytes from a on and of m bytes from b on. At 64 bits the sums do not wrap.
fn share(a: u32, n: u32, b: u32, m: u32) -> bool
    ensures { result ≡ share_of a n b m }
{
    let from = a.max(b) as usize;
    let to = (a as usize + n as usize).min(b as usize + m as usize);
    from < to
}

// A picture's own two parts.
fn within(picture: Option<PictureFields>) -> bool
    ensures { result ≡ share_within picture }
{
    picture.is_some_and(|p| share(p.bmi, p.bmi_len, p.bits, p.bits_len))
}

// A part of each of two pictures.
fn between(one: Option<PictureFields>, other: Option<PictureFields>) -> bool
    ensures { result ≡ share_between one other }
{
    let (Some(p), Some(q)) = (one, other) else {
        return false;
    };
    share(p.bmi, p.bmi_len, q.bmi, q.bmi_len)
        | share(p.bmi, p.bmi_len, q.bits, q.bits_len)
        | share(p.bits, p.bits_len, q.bmi, q.bmi_len)
        | share(p.bits, p.bits_len, q.bits, q.bits_len)
}

// All six pairs; of absent pictures none is looked at.
#[tactic(auto, unfolding(crate::specs::SharedParts::shared_parts))]
pub fn parts(f: Fields) -> bool
    ensures { result ≡ shared_parts f }
{
    within(f.source) | within(f.mask) | between(f.source, f.mask)
}
