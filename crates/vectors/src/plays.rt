// Whole plays: that of document 01, and one of each type whose pixels are worked out by hand.
ghost use Rattle.std.specs.Prelude.{◌+◌, ◌≤◌, ◌<◌, length, ◌≡◌};
ghost use Rattle.player.specs.Rop4Order.{make_rop4};

use crate::line::{Hex, line, lines};
use meaning::Terms;
use region::Rectangle;
use std::io;

// A clip that cuts nothing, and document 01's brush.
fn everywhere() -> Terms {
    let clip = Rectangle {
        left: 0,
        top: 0,
        right: 100,
        bottom: 100,
    };
    Terms {
        clip,
        brush: 0x112233,
    }
}

// The common fields of a record on row 0: type, Size, Bounds over columns 0 to 9.
fn begin(r: &mut [u8], kind: u32, size: u32)
    requires { 80 ≤ length r.old }
{
    words::store_u32(r, 0, kind);
    words::store_u32(r, 4, size);
    words::store_u32(r, 16, 9);
}

// A 40-byte header of one row at `at`.
fn header(r: &mut [u8], at: usize, width: u32, bits: u32)
    requires { (at < 4096) × (at + 40 ≤ length r.old) × (bits < 64) }
{
    words::store_u32(r, at, 40);
    words::store_u32(r, at + 4, width);
    words::store_u32(r, at + 8, 1);
    words::store_u32(r, at + 12, 1 + bits * 65536);
}

// A picture's four: a header part of so many bytes at `bmi`, four bytes of pixels behind it.
fn parts(r: &mut [u8], at: usize, bmi: u32, long: u32, bits: u32)
    requires { (at < 4096) × (at + 16 ≤ length r.old) × (bmi < 4096) × (long < 4096) }
{
    words::store_u32(r, at, bmi);
    words::store_u32(r, at + 4, long);
    words::store_u32(r, at + 8, bmi + long);
    words::store_u32(r, at + 12, bits);
}

// The record of document 01's whole play: type 0x51, ROP 0x00F00021, no source, target (0, 0) 2 by 1.
fn whole_record() -> [u8; 80] {
    let mut r = [0u8; 80];
    begin(&mut r, 0x51, 80);
    words::store_u32(&mut r, 16, 1);
    words::store_u32(&mut r, 68, 0x00F00021);
    words::store_u32(&mut r, 72, 2);
    words::store_u32(&mut r, 76, 1);
    r
}

// Document 01: "A 36-byte journal takes it".
pub fn whole(rt: &impl Print) -> io::Result<()> {
    let r = whole_record();
    let mut surface = [0xFF000000u32, 0xFF0000FFu32];
    let mut journal = [0xA5u8; 36];
    let mut used = 0;
    let answer = player::play(
        &mut surface,
        2,
        1,
        &mut journal,
        &mut used,
        &r,
        everywhere(),
    );
    let (status, pixels) = player::numbers(answer);
    lines(
        rt,
        &[
            ("whole play, 36 bytes: status", status, 0),
            ("whole play: pixels", pixels, 2),
        ],
    )?;
    line(rt, b"whole play: count in use", used, 3)?;
    played(rt, &surface, &journal)?;
    undone(rt, &mut surface, &journal, used)
}

fn played(rt: &impl Print, surface: &[u32; 2], journal: &[u8; 36]) -> io::Result<()> {
    lines(
        rt,
        &[
            ("whole play: pixel 0", Hex(surface[0]), Hex(0xFF112233)),
            ("whole play: pixel 1", Hex(surface[1]), Hex(0xFF112233)),
        ],
    )?;
    journal_record(rt, "whole play: record 0", journal, 0, [0, 0, 0xFF000000])?;
    journal_record(rt, "whole play: record 1", journal, 1, [1, 0, 0xFF0000FF])?;
    journal_record(
        rt,
        "whole play: closing record",
        journal,
        2,
        [0xFFFFFFFF, 2, 0x51],
    )
}

fn undone(rt: &impl Print, surface: &mut [u32; 2], journal: &[u8], used: u64) -> io::Result<()> {
    let mut left = used;
    let answer = player::undo(surface, 2, 1, journal, &mut left);
    let (status, pixels) = player::numbers(answer);
    lines(
        rt,
        &[("undone: status", status, 0), ("undone: pixels", pixels, 2)],
    )?;
    line(rt, b"undone: count in use", left, 0)?;
    lines(
        rt,
        &[
            ("undone: pixel 0", Hex(surface[0]), Hex(0xFF000000)),
            ("undone: pixel 1", Hex(surface[1]), Hex(0xFF0000FF)),
        ],
    )
}

// The three numbers of record i. The journal holds three records.
fn journal_record(
    rt: &impl Print,
    label: &str,
    journal: &[u8; 36],
    i: usize,
    should: [u32; 3],
) -> io::Result<()>
    requires { i < 3 }
{
    let got = journal::load(journal, i);
    three(rt, label, &[got.first, got.second, got.third], &should)
}

// A line with the same label for each of three pixels or numbers.
fn three(rt: &impl Print, label: &str, got: &[u32; 3], should: &[u32; 3]) -> io::Result<()> {
    for (x, y) in got.iter().zip(should) {
        line(rt, label.as_bytes(), Hex(*x), Hex(*y))?;
    }
    Ok(())
}

// "24 gives 14, 35 gives 2": nothing is drawn.
pub fn refused(rt: &impl Print) -> io::Result<()> {
    let r = whole_record();
    let mut short = [0u8; 24];
    not_taken(rt, "whole play, 24 bytes: status", &r, &mut short, 14)?;
    let mut odd = [0u8; 35];
    not_taken(rt, "whole play, 35 bytes: status", &r, &mut odd, 2)
}

fn not_taken(
    rt: &impl Print,
    label: &str,
    r: &[u8],
    journal: &mut [u8],
    should: u32,
) -> io::Result<()> {
    let mut surface = [0xFF000000u32, 0xFF0000FFu32];
    let answer = player::play(&mut surface, 2, 1, journal, &mut 0, r, everywhere());
    let (status, pixels) = player::numbers(answer);
    lines(
        rt,
        &[(label, status, should), ("refused: pixels", pixels, 0)],
    )?;
    lines(
        rt,
        &[
            ("refused: pixel 0", Hex(surface[0]), Hex(0xFF000000)),
            ("refused: pixel 1", Hex(surface[1]), Hex(0xFF0000FF)),
        ],
    )
}

// Plays on a surface of one row and shows its pixels.
fn shown(
    rt: &impl Print,
    label: &str,
    r: &[u8],
    surface: &mut [u32; 3],
    should: [u32; 3],
) -> io::Result<()> {
    let mut journal = [0u8; 48];
    let answer = player::play(surface, 3, 1, &mut journal, &mut 0, r, everywhere());
    let status = words::refusal::status(&answer);
    line(rt, label.as_bytes(), status, 0)?;
    three(rt, label, surface, &should)
}

// 0x72 with a source of one 32-bit pixel, on column 1.
fn blend(
    rt: &impl Print,
    label: &str,
    field: u32,
    source: u32,
    old: u32,
    new: u32,
) -> io::Result<()> {
    let mut r = [0u8; 152];
    begin(&mut r, 0x72, 152);
    words::store_u32(&mut r, 24, 1);
    words::store_u32(&mut r, 32, 1);
    words::store_u32(&mut r, 36, 1);
    words::store_u32(&mut r, 40, field);
    words::store_u32(&mut r, 52, 0x3F800000);
    words::store_u32(&mut r, 64, 0x3F800000);
    parts(&mut r, 84, 108, 40, 4);
    words::store_u32(&mut r, 100, 1);
    words::store_u32(&mut r, 104, 1);
    header(&mut r, 108, 1, 32);
    words::store_u32(&mut r, 148, source);
    let mut surface = [old; 3];
    shown(rt, label, &r, &mut surface, [old, new, old])
}

// Format 0: s 200, d 100, c 128 gives 150. Format 1: s 100, a 128, c 255, d 200 gives 200; its alpha, 128 over 200, gives 228.
// At alpha 0 and c 255 source and target are added: 510 and 256 are cut to 255, 250 is not, and alpha stays 200.
pub fn blends(rt: &impl Print) -> io::Result<()> {
    blend(
        rt,
        "0x72, format 0",
        0x00800000,
        0x00C8C8C8,
        0xFF646464,
        0xFF969696,
    )?;
    blend(
        rt,
        "0x72, format 1",
        0x01FF0000,
        0x80646464,
        0xC8C8C8C8,
        0xE4C8C8C8,
    )?;
    blend(
        rt,
        "0x72, format 1, colours above their alpha",
        0x01FF0000,
        0x00FF3201,
        0xC8FFC8FF,
        0xC8FFFAFF,
    )
}

// 0x4E on three columns. The mask is 8 wide and holds 00000101; xMask -3 makes column 0 read column 5 (document 01's check
// number), so that columns 0 to 2 read 1, 0, 1. Behind the mask's bits is room for a source.
fn masked_record(field: u32) -> [u8; 232] {
    let mut r = [0u8; 232];
    begin(&mut r, 0x4E, 232);
    words::store_u32(&mut r, 32, 3);
    words::store_u32(&mut r, 36, 1);
    words::store_u32(&mut r, 40, field);
    words::store_u32(&mut r, 52, 0x3F800000);
    words::store_u32(&mut r, 64, 0x3F800000);
    words::store_u32(&mut r, 100, 0xFFFFFFFD);
    parts(&mut r, 112, 128, 48, 4);
    header(&mut r, 128, 8, 1);
    words::store_u32(&mut r, 176, 5);
    r
}

// Without a source: the brush where the mask's bit is 1, the target kept where it is 0.
pub fn masked(rt: &impl Print) -> io::Result<()> {
    let r = masked_record(0xAAF00000);
    let mut surface = [0xFF000000u32, 0x800000FFu32, 0x00FFFFFFu32];
    shown(
        rt,
        "0x4E, 0xF0 over 0xAA",
        &r,
        &mut surface,
        [0xFF112233, 0x800000FF, 0x00112233],
    )
}

// With a source of three 24-bit pixels, 0x0A0B0C, 0x010203 and 0x445566.
fn with_source(rt: &impl Print, label: &str, field: u32, should: [u32; 3]) -> io::Result<()> {
    let mut r = masked_record(field);
    parts(&mut r, 84, 180, 40, 12);
    header(&mut r, 180, 3, 24);
    words::store_u32(&mut r, 220, 0x030A0B0C);
    words::store_u32(&mut r, 224, 0x55660102);
    words::store_u32(&mut r, 228, 0x00000044);
    let mut surface = [0xFF000000u32, 0x800000FFu32, 0x00FFFFFFu32];
    shown(rt, label, &r, &mut surface, should)
}

// Document 001's copy-or-keep: copied where the mask's bit is 1.
fn copied_by(rt: &impl Print, label: &str, field: u32) -> io::Result<()> {
    with_source(rt, label, field, [0xFF0A0B0C, 0x800000FF, 0x00445566])
}

// wingdi.h: #define MAKEROP4(fore,back) (DWORD)((((back) << 8) & 0xFF000000) | (fore))
fn makerop4(fore: u32, back: u32) -> u32
    ensures { result ≡ make_rop4 fore back }
{
    ((back << 8) & 0xFF000000) | fore
}

// SRCCOPY is 0x00CC0020; 0x00AA0029 leaves the target as it is.
pub fn copied(rt: &impl Print) -> io::Result<()> {
    copied_by(rt, "0x4E, 0xCC over 0xAA", 0xAACC0000)?;
    let field = makerop4(0x00CC0020, 0x00AA0029);
    lines(
        rt,
        &[(
            "MAKEROP4(0x00CC0020, 0x00AA0029)",
            Hex(field),
            Hex(0xAACC0020),
        )],
    )?;
    copied_by(rt, "0x4E, MAKEROP4(0x00CC0020, 0x00AA0029)", field)
}

// 0xB8 looks at all three: the target where the source's bit is 1, the brush where it is 0. 0x66 is source xor target.
pub fn picked(rt: &impl Print) -> io::Result<()> {
    with_source(
        rt,
        "0x4E, 0xB8 over 0x66",
        0x66B80000,
        [0xFF112033, 0x800102FC, 0x00557777],
    )
}

// 0x51 with a source of two 24-bit pixels, 0x0A0B0C and 0x010203, on three columns: n 2, m 3 reads 0, 0, 1; mirrored 1, 1, 0.
fn stretched(rt: &impl Print, label: &str, x: u32, cx: u32, should: [u32; 3]) -> io::Result<()> {
    let mut r = [0u8; 128];
    begin(&mut r, 0x51, 128);
    words::store_u32(&mut r, 24, x);
    words::store_u32(&mut r, 40, 2);
    words::store_u32(&mut r, 44, 1);
    parts(&mut r, 48, 80, 40, 8);
    words::store_u32(&mut r, 68, 0x00CC0020);
    words::store_u32(&mut r, 72, cx);
    words::store_u32(&mut r, 76, 1);
    header(&mut r, 80, 2, 24);
    words::store_u32(&mut r, 120, 0x030A0B0C);
    words::store_u32(&mut r, 124, 0x00000102);
    let mut surface = [0xFF000000u32, 0x80FFFFFFu32, 0x00FFFFFFu32];
    shown(rt, label, &r, &mut surface, should)
}

pub fn stretches(rt: &impl Print) -> io::Result<()> {
    stretched(
        rt,
        "0x51, 2 to 3",
        0,
        3,
        [0xFF0A0B0C, 0x800A0B0C, 0x00010203],
    )?;
    stretched(
        rt,
        "0x51, 2 to 3, mirrored",
        3,
        0xFFFFFFFD,
        [0xFF010203, 0x80010203, 0x000A0B0C],
    )
}
