// What an accepted record means: its rule, its source pixels and its mask bits, row by row. What the record decides is decided
// once a play: the rule, and the columns that the source and the mask are read at.
#![tactic(auto)]

ghost use Rattle.std.specs.Prelude.{◌≡◌, ◌^◌, ◌<◌};
ghost use Rattle.meaning.specs.Sampling.{is_format1};
ghost use Rattle.meaning.specs.Meaning.{rule_of, terms_at};

use composite::Rule;
use judge::Action;
use region::Rectangle;

pub mod columns;
pub mod rows;

// A play's terms: what it is told besides its record. The clip cuts its target, the brush's low 24 bits are a raster operation's.
#[derive(Clone, Copy)]
pub struct Terms {
    pub clip: Rectangle,
    pub brush: u32,
}

// The terms that stand at a place of some bytes: the clip's four numbers, then the brush.
pub fn read_terms(s: &[u8], at: usize) -> Terms
    requires { at < 2 ^ 63 }
    ensures { result ≡ terms_at s.now at }
{
    Terms {
        clip: region::read(s, at),
        brush: words::read::<4>(s, at + 16),
    }
}

// What a pixel becomes, by the record's operation and the brush, which a `From` would not be given.
pub fn rule(a: Action, brush: u32) -> Rule
    ensures { result ≡ rule_of a brush }
{
    match a {
        Action::Blend0(alpha) => Rule::Blend0(alpha),
        Action::Blend1(alpha) => Rule::Blend1(alpha),
        Action::Masked(fore, back) => Rule::Masked(fore, back, brush),
        Action::Raster(op) => Rule::Raster(op, brush),
    }
}

// An alpha blend of format 1.
pub fn is_format1(a: Action) -> bool
    ensures { result ≡ is_format1 a }
{
    matches!(a, Action::Blend1(_))
}
