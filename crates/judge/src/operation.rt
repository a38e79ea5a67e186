// The operation field decoded, and statuses 11 and 13.
ghost use Rattle.std.specs.Prelude.{◌≡◌};
ghost use Rattle.judge.specs.Operation.{is_blend, action_of, has_alpha, bad_blend, reads_source, bad_operation, bad_mask};

use crate::{Action, Picture};
use dib::Header;
use emr::Form;

// ROP4: the foreground is the lower byte (wingdi.h, MAKEROP4).
pub fn decoded(form: Form, field: u32) -> Action
    ensures { result ≡ action_of form field }
{
    let [_, _, low, high] = field.to_le_bytes();
    match form {
        Form::Blend => {
            if high == 1 {
                return Action::Blend1(low);
            }
            Action::Blend0(low)
        }
        Form::Rop4 => Action::Masked(low, high),
        Form::Rop => Action::Raster(low),
    }
}

fn is_blend(form: Form) -> bool
    ensures { result ≡ is_blend form }
{
    matches!(form, Form::Blend)
}

fn has_alpha(h: Header) -> bool
    ensures { result ≡ has_alpha h }
{
    (h.bits == 32) & ((h.compression == 0) | (h.masks.alpha != 0))
}

fn bad_blend(field: u32, h: Header) -> bool
    ensures { result ≡ bad_blend field h }
{
    let [operation, _, _, format] = field.to_le_bytes();
    (operation != 0) | (1 < format) | (format == 1) & !has_alpha(h)
}

fn reads_source(a: Action) -> bool
    ensures { result ≡ reads_source a }
{
    match a {
        Action::Blend0(_) | Action::Blend1(_) => true,
        Action::Masked(fore, back) => pixel::raster::needs_source(fore)
            | pixel::raster::needs_source(back),
        Action::Raster(op) => pixel::raster::needs_source(op),
    }
}

pub fn bad_operation(form: Form, field: u32, a: Action, source: Option<Picture>) -> bool
    ensures { result ≡ bad_operation form field a source }
{
    match source {
        Some(p) => is_blend(form) & bad_blend(field, p.header),
        None => reads_source(a),
    }
}

pub fn bad_mask(has_mask: bool, mask: Option<Picture>) -> bool
    ensures { result ≡ bad_mask has_mask mask }
{
    has_mask & mask.is_none_or(|p| p.header.bits != 1)
}
