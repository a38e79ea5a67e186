// What a DIB's pixels are read with: the palette, a row's bytes and the pixels smaller than a byte, the masks in force and what they make of a number.
#![tactic(auto)]

pub mod colour;
pub mod palette;
pub mod stored;
