// Reading a record's source or mask: `read` answers every byte string, with one judging, and the parts and the palette are taken by what
// it answered.
#![tactic(auto)]

ghost use Rattle.std.specs.Prelude.{◌≡◌, false, length};
ghost use Rattle.words.specs.Part.{IsPart};
ghost use Rattle.dib.specs.HeaderStatus.{bad_fields};
ghost use Rattle.reading.specs.Reading.{wanted as wanted_of, empty_reading, full_reading, shown_palette, Within, IsReading};

use dib::Masks;
use judge::{Picture, Record};

// How a view's pixels are stored. The masks are 0 under BI_RGB.
#[derive(Clone, Copy)]
pub struct Layout {
    pub bits: u32,
    pub compression: u32,
    pub top_down: bool,
    pub masks: Masks,
}

// What a reading answers, but for the bytes: the status; where the header part and the view's bytes stand in the record; where the colours
// that the palette shows stand in the header part, and how many they are; width, rows and layout. Where there is no picture, all is 0 in
// the 1-bit bottom-up layout. The status is a number and no Err, since a refused reading has the rest too, and parts are places and lengths, since
// `lacrumont_read` hands them out (`reading_of`). Its three later calls ask by `Within` that the reading is of the same record: no type of its own
// could say of which.
#[derive(Clone, Copy)]
pub struct Reading {
    pub status: u32,
    pub header_at: usize,
    pub header_len: usize,
    pub view_at: usize,
    pub view_len: usize,
    pub table_at: usize,
    pub colours: usize,
    pub width: u32,
    pub rows: u32,
    pub layout: Layout,
}

fn nothing(status: u32) -> Reading
    ensures { result ≡ empty_reading status }
{
    let layout = Layout {
        bits: 1,
        compression: 0,
        top_down: false,
        masks: Masks::default(),
    };
    Reading {
        status,
        header_at: 0,
        header_len: 0,
        view_at: 0,
        view_len: 0,
        table_at: 0,
        colours: 0,
        width: 0,
        rows: 0,
        layout,
    }
}

fn full(p: Picture) -> Reading
    requires { bad_fields p.header ≡ false }
    ensures { result ≡ full_reading p }
{
    let h = p.header;
    let layout = Layout {
        bits: h.bits,
        compression: h.compression,
        top_down: dib::is_top_down(h),
        masks: h.masks,
    };
    Reading {
        status: 0,
        header_at: p.bmi as usize,
        header_len: p.bmi_len as usize,
        view_at: p.bits as usize,
        view_len: dib::bits_needed(h) as usize,
        table_at: dib::table_start(h),
        colours: picture::shown_entries(h),
        width: h.width,
        rows: words::magnitude(h.height),
        layout,
    }
}

fn wanted(mask: bool, r: Record) -> Option<Picture>
    ensures { result ≡ wanted_of mask r }
{
    if mask { r.mask } else { r.source }
}

// The reading for the source, or for the mask, which is asked for by a bool, as `reading_of` has it.
pub fn read(s: &[u8], mask: bool) -> Reading
    ensures { IsReading s.now mask result }
{
    match judge::check(s) {
        Ok(r) => match wanted(mask, r) {
            Some(p) => full(p),
            None => nothing(0),
        },
        Err(refusal) => nothing(u32::from(refusal)),
    }
}

// The header part: all its bytes, the record's own. It and `view_part` are a call each: one function over both would be told which.
pub fn header_part(s: &[u8], r: Reading) -> &[u8]
    requires { Within (length s.now) r }
    ensures { IsPart s.entry result r.header_at r.header_len }
{
    words::part(s, r.header_at, r.header_len)
}

// The view's bytes: the first row length · rows of the bits part, the record's own.
pub fn view_part(s: &[u8], r: Reading) -> &[u8]
    requires { Within (length s.now) r }
    ensures { IsPart s.entry result r.view_at r.view_len }
{
    words::part(s, r.view_at, r.view_len)
}

// The palette; black where no colours are shown.
pub fn palette(s: &[u8], r: Reading) -> [u32; 256]
    requires { Within (length s.now) r }
    ensures { result ≡ shown_palette s.now r }
{
    let header = header_part(s, r);
    let from = r.table_at;
    sample::palette::read(&header[from..], r.colours)
}
