// A record's fixed part as fields.
ghost use Rattle.std.specs.Prelude.{◌≡◌, ◌≤◌};
ghost use Rattle.emr.specs.Types.{Near};
ghost use Rattle.emr.specs.Fixed.{is_present, picture_at, mask_at, mask_number, fields_at};

use crate::{Fields, Offsets, PictureFields};

fn is_present(bmi: u32, bmi_len: u32, bits: u32, bits_len: u32) -> bool
    ensures { result ≡ is_present bmi bmi_len bits bits_len }
{
    [bmi, bmi_len, bits, bits_len] != [0; 4]
}

// The picture whose fields stand there, if it is present.
fn picture(s: &[u8], corner: usize, usage: usize, parts: usize) -> Option<PictureFields>
    requires { (corner ≤ 128) × (parts ≤ 128) }
    ensures { result ≡ picture_at s.now corner usage parts }
{
    let bmi = words::read::<4>(s, parts);
    let bmi_len = words::read::<4>(s, parts + 4);
    let bits = words::read::<4>(s, parts + 8);
    let bits_len = words::read::<4>(s, parts + 12);
    if !is_present(bmi, bmi_len, bits, bits_len) {
        return None;
    }
    Some(PictureFields {
        x: words::read::<4>(s, corner),
        y: words::read::<4>(s, corner + 4),
        usage: words::read::<4>(s, usage),
        bmi,
        bmi_len,
        bits,
        bits_len,
    })
}

// The mask, whose fields stand from its corner on; a type without a mask has none.
fn mask_picture(s: &[u8], mask: usize) -> Option<PictureFields>
    requires { mask ≤ 116 }
    ensures { result ≡ mask_at s.now mask }
{
    if mask == 0 {
        return None;
    }
    picture(s, mask, mask + 8, mask + 12)
}

// A number of the mask, present or not, n bytes from its corner on; a type without a mask has 0.
fn mask_number(s: &[u8], mask: usize, n: usize) -> u32
    requires { (mask ≤ 116) × (n ≤ 8) }
    ensures { result ≡ mask_number s.now mask n }
{
    if mask == 0 {
        return 0;
    }
    words::read::<4>(s, mask + n)
}

// The fields of any record; a byte past its end reads as 0.
#[tactic(auto, unfolding(crate::specs::Fixed::fields_at))]
pub fn read(s: &[u8], at: Offsets) -> Fields
    requires { Near at }
    ensures { result ≡ fields_at s.now at }
{
    let bounds = region::read(s, 8);
    let source = picture(s, at.corner, at.usage, at.parts);
    let mask = mask_picture(s, at.mask);
    Fields {
        bounds,
        x: words::read::<4>(s, 24),
        y: words::read::<4>(s, 28),
        cx: words::read::<4>(s, at.extent),
        cy: words::read::<4>(s, at.extent + 4),
        operation: words::read::<4>(s, at.operation),
        source,
        x_src: words::read::<4>(s, at.corner),
        y_src: words::read::<4>(s, at.corner + 4),
        usage_src: words::read::<4>(s, at.usage),
        cx_src: words::read::<4>(s, at.extent_src),
        cy_src: words::read::<4>(s, at.extent_src + 4),
        mask,
        x_mask: mask_number(s, at.mask, 0),
        y_mask: mask_number(s, at.mask, 4),
        usage_mask: mask_number(s, at.mask, 8),
    }
}
