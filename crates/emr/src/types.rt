// The table of types: a row for each. A type stays a number: the closing record holds it, and an enum would be made and taken apart in
// this one function.
ghost use Rattle.std.specs.Prelude.{◌≡◌};
ghost use Rattle.emr.specs.Types.{offsets as offsets_of, IsRow};

use crate::{Form, Offsets, Row};

const ALPHABLEND: u32 = 0x72;

const MASKBLT: u32 = 0x4E;

const STRETCHDIBITS: u32 = 0x51;

fn fields_at(
    extent: usize,
    operation: usize,
    corner: usize,
    extent_src: usize,
    transform: usize,
    usage: usize,
    parts: usize,
    mask: usize,
    fixed: usize,
) -> Offsets
    ensures { result ≡ offsets_of extent operation corner extent_src transform usage parts mask fixed }
{
    Offsets {
        extent,
        operation,
        corner,
        extent_src,
        transform,
        usage,
        parts,
        mask,
        fixed,
    }
}

// A type's row; one of zeros, and no None, where the type is not listed: `IsRow` promises a row of every type.
#[tactic(auto, unfolding(crate::specs::Types::row_of))]
pub fn of(kind: u32) -> Row
    ensures { IsRow kind result }
{
    match kind {
        ALPHABLEND => Row {
            at: fields_at(32, 40, 44, 100, 52, 80, 84, 0, 108),
            form: Form::Blend,
            signed: false,
        },
        MASKBLT => Row {
            at: fields_at(32, 40, 44, 32, 52, 80, 84, 100, 128),
            form: Form::Rop4,
            signed: false,
        },
        STRETCHDIBITS => Row {
            at: fields_at(72, 68, 32, 40, 0, 64, 48, 0, 80),
            form: Form::Rop,
            signed: true,
        },
        _ => Row {
            at: fields_at(0, 0, 0, 0, 0, 0, 0, 0, 0),
            form: Form::Rop,
            signed: true,
        },
    }
}
