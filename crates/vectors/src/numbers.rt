// The numbers of the crates `pixel` and `sample`.
use crate::line::{Hex, YesNo, lines};
use pixel::{blend, masks, position, widen};
use sample::stored;
use std::io;

pub fn blends(rt: &impl Print) -> io::Result<()> {
    lines(
        rt,
        &[
            (
                "format 0: s 200, d 100, c 128",
                blend::channel0(200, 100, 128),
                150,
            ),
            (
                "format 1: s 100, a 128, c 255, d 200",
                blend::channel1(100, 128, 200, 255),
                200,
            ),
            (
                "format 1: s 100, a 128, c 128, d 200",
                blend::channel1(100, 128, 200, 128),
                200,
            ),
            (
                "format 1: s 1, a 1, c 128, d 1",
                blend::channel1(1, 1, 1, 128),
                1,
            ),
            (
                "format 1: s 255, a 0, c 255, d 255",
                blend::channel1(255, 0, 255, 255),
                255,
            ),
        ],
    )
}

// The channels that need no cut. Where alpha 0 stays at 255, a colour of 255 comes to 510 and is cut: the last line above.
pub fn uncut(rt: &impl Print) -> io::Result<()> {
    lines(
        rt,
        &[
            (
                "format 0: s 255, d 255, c 128",
                blend::channel0(255, 255, 128),
                255,
            ),
            (
                "format 1, alpha: a 255, c 128, d 255",
                blend::alpha1(255, 255, 128),
                255,
            ),
            (
                "format 1, alpha: a 0, c 255, d 255",
                blend::alpha1(0, 255, 255),
                255,
            ),
            (
                "format 1, alpha: a 128, c 255, d 200",
                blend::alpha1(128, 200, 255),
                228,
            ),
        ],
    )
}

pub fn whole_pixels(rt: &impl Print) -> io::Result<()> {
    lines(
        rt,
        &[
            (
                "format 0: pixel 0xFFC8C8C8 over 0xFF646464, c 128",
                Hex(blend::pixel0(0xFFC8C8C8, 0xFF646464, 128)),
                Hex(0xFF969696),
            ),
            (
                "format 1: pixel 0x80646464 over 0xC8C8C8C8, c 255",
                Hex(blend::pixel1(0x80646464, 0xC8C8C8C8, 255)),
                Hex(0xE4C8C8C8),
            ),
            (
                "format 0: pixel 0xFF00FF00 over 0x00FF00FF, c 128",
                Hex(blend::pixel0(0xFF00FF00, 0x00FF00FF, 128)),
                Hex(0x807F807F),
            ),
            (
                "format 1: pixel 0x00FF3201 over 0xC8FFC8FF, c 255",
                Hex(blend::pixel1(0x00FF3201, 0xC8FFC8FF, 255)),
                Hex(0xC8FFFAFF),
            ),
        ],
    )
}

pub fn raster(rt: &impl Print) -> io::Result<()> {
    lines(
        rt,
        &[
            (
                "raster 0x66: source 0xFF00FF, target 0x0F0F0F",
                Hex(pixel::raster::raster(0x66, 0, 0xFF00FF, 0x0F0F0F)),
                Hex(0xF00FF0),
            ),
            (
                "raster 0x66: source 0x12FF00FF, target pixel 0x340F0F0F",
                Hex(pixel::raster::pixel(0x66, 0, 0x12FF00FF, 0x340F0F0F)),
                Hex(0x34F00FF0),
            ),
            (
                "raster 0xF0: brush 0x112233, target pixel 0xFF0000FF",
                Hex(pixel::raster::pixel(0xF0, 0x112233, 0, 0xFF0000FF)),
                Hex(0xFF112233),
            ),
        ],
    )
}

// Brush 0xF0, source 0xCC and target 0xAA have the three digits of k at bit k: what they give is the operation itself, in each channel.
fn read_off(op: u8) -> Hex {
    Hex(pixel::raster::raster(op, 0xF0F0F0, 0xCCCCCC, 0xAAAAAA))
}

// Each and-term by itself, then an operation of four.
pub fn terms(rt: &impl Print) -> io::Result<()> {
    lines(
        rt,
        &[
            ("truth table of 0x01", read_off(0x01), Hex(0x010101)),
            ("truth table of 0x02", read_off(0x02), Hex(0x020202)),
            ("truth table of 0x04", read_off(0x04), Hex(0x040404)),
            ("truth table of 0x08", read_off(0x08), Hex(0x080808)),
            ("truth table of 0x10", read_off(0x10), Hex(0x101010)),
            ("truth table of 0x20", read_off(0x20), Hex(0x202020)),
            ("truth table of 0x40", read_off(0x40), Hex(0x404040)),
            ("truth table of 0x80", read_off(0x80), Hex(0x808080)),
            ("truth table of 0xB8", read_off(0xB8), Hex(0xB8B8B8)),
        ],
    )
}

pub fn needs_source(rt: &impl Print) -> io::Result<()> {
    lines(
        rt,
        &[
            (
                "raster 0xCC needs a source",
                YesNo(pixel::raster::needs_source(0xCC)),
                YesNo(true),
            ),
            (
                "raster 0x66 needs a source",
                YesNo(pixel::raster::needs_source(0x66)),
                YesNo(true),
            ),
            (
                "raster 0xF0 needs a source",
                YesNo(pixel::raster::needs_source(0xF0)),
                YesNo(false),
            ),
            (
                "raster 0xAA needs a source",
                YesNo(pixel::raster::needs_source(0xAA)),
                YesNo(false),
            ),
        ],
    )
}

pub fn widths(rt: &impl Print) -> io::Result<()> {
    let t = widen::table();
    lines(
        rt,
        &[
            ("5 bits, 16", widen::widen(&t, 5, 16), 132),
            ("6 bits, 32", widen::widen(&t, 6, 32), 130),
        ],
    )
}

pub fn row_lengths(rt: &impl Print) -> io::Result<()> {
    lines(
        rt,
        &[
            (
                "row length of 1 pixel of 24 bits",
                position::row_length(1, 24),
                4,
            ),
            (
                "row length of 33 pixels of 1 bit",
                position::row_length(33, 1),
                8,
            ),
        ],
    )
}

pub fn source_positions(rt: &impl Print) -> io::Result<()> {
    lines(
        rt,
        &[
            (
                "n 2, m 3, i 0 reads",
                position::source_position(false, 0, 2, 3),
                0,
            ),
            (
                "n 2, m 3, i 1 reads",
                position::source_position(false, 1, 2, 3),
                0,
            ),
            (
                "n 2, m 3, i 2 reads",
                position::source_position(false, 2, 2, 3),
                1,
            ),
            (
                "n 2, m 3, i 0, mirrored, reads",
                position::source_position(true, 0, 2, 3),
                1,
            ),
            (
                "n 2, m 3, i 1, mirrored, reads",
                position::source_position(true, 1, 2, 3),
                1,
            ),
            (
                "n 2, m 3, i 2, mirrored, reads",
                position::source_position(true, 2, 2, 3),
                0,
            ),
        ],
    )
}

pub fn mask_places(rt: &impl Print) -> io::Result<()> {
    lines(
        rt,
        &[(
            "mask width 8, xMask -3, i 0 reads column",
            position::mask_pixel(-3, 0, 8),
            5,
        )],
    )
}

// The masks of a 5-6-5 pixel, and one with a gap.
pub fn channel_masks(rt: &impl Print) -> io::Result<()> {
    lines(
        rt,
        &[
            ("mask 0xF800: width", masks::width(0xF800), 5),
            ("mask 0xF800: place", masks::shift(0xF800), 11),
        ],
    )?;
    lines(
        rt,
        &[
            (
                "mask 0xF800 is contiguous",
                YesNo(masks::is_contiguous(0xF800)),
                YesNo(true),
            ),
            (
                "mask 0xF01F is contiguous",
                YesNo(masks::is_contiguous(0xF01F)),
                YesNo(false),
            ),
        ],
    )?;
    lines(
        rt,
        &[(
            "channel of 6 bits at place 5 of 0xABCD",
            masks::channel(6, 5, 0xABCD),
            30,
        )],
    )
}

pub fn halves(rt: &impl Print) -> io::Result<()> {
    let row = [0x1Fu8];
    lines(
        rt,
        &[
            ("4-bit byte 0x1F, column 0: index", stored::half(&row, 0), 1),
            (
                "4-bit byte 0x1F, column 1: index",
                stored::half(&row, 1),
                15,
            ),
        ],
    )
}
