// A record's frame: the table of types, its fixed part as fields, and statuses 3 to 7, with 21 between 6 and 7.
#![tactic(auto)]

use region::Rectangle;

pub mod fixed;
mod shared;
pub mod status;
pub mod types;
pub mod xform;

// What a type's operation field holds: a blend, which needs a source always, or raster operations, which need one by their bytes.
#[derive(Clone, Copy)]
pub enum Form {
    Blend,
    Rop4,
    Rop,
}

// The offsets of a type's fields; 0 where it has no such field, as the table `row_of` has it, whose numbers `IsRow` promises. A type that
// does not stretch has its target's extent for its source's. Functions that read by offsets ask by `Near` that they are small; no type says
// so, since `status::frame` takes any.
#[derive(Clone, Copy)]
pub struct Offsets {
    pub extent: usize,
    pub operation: usize,
    pub corner: usize,
    pub extent_src: usize,
    pub transform: usize,
    pub usage: usize,
    pub parts: usize,
    pub mask: usize,
    pub fixed: usize,
}

// A row of the table of types: where its fields stand, what its operation is, and whether its extents may be negative.
#[derive(Clone, Copy)]
pub struct Row {
    pub at: Offsets,
    pub form: Form,
    pub signed: bool,
}

// XformSrc.
#[derive(Clone, Copy, PartialEq)]
pub struct Transform {
    pub m11: f32,
    pub m12: f32,
    pub m21: f32,
    pub m22: f32,
    pub dx: f32,
    pub dy: f32,
}

// A picture's corner and usage, and where its header part and its bits part stand: by offset and length, and in no slice, as they are not yet
// known to lie in the record. The corner is in two's complement.
#[derive(Clone, Copy)]
pub struct PictureFields {
    pub x: u32,
    pub y: u32,
    pub usage: u32,
    pub bmi: u32,
    pub bmi_len: u32,
    pub bits: u32,
    pub bits_len: u32,
}

// The fields of a record's fixed part: Bounds, target, operation, and source and mask where they are present. Signed ones are in two's
// complement. The source's extent is there without a source too: a type that does not stretch has its target's. So are the corners and usages
// as written, of an absent picture too, of which document 01 says "its usage and rectangle fields are then not looked at"; a present picture
// has its own as well. A mask's are 0 where the type has no mask.
#[derive(Clone, Copy)]
pub struct Fields {
    pub bounds: Rectangle,
    pub x: u32,
    pub y: u32,
    pub cx: u32,
    pub cy: u32,
    pub operation: u32,
    pub source: Option<PictureFields>,
    pub x_src: u32,
    pub y_src: u32,
    pub usage_src: u32,
    pub cx_src: u32,
    pub cy_src: u32,
    pub mask: Option<PictureFields>,
    pub x_mask: u32,
    pub y_mask: u32,
    pub usage_mask: u32,
}
