// The pictures of a record: palette, bits part and rows.
#![tactic(auto)]

ghost use Rattle.std.specs.Prelude.{◌≡◌, ◌+◌, false, ◌≤◌, ◌<◌, length};
ghost use Rattle.std.specs.Option.{ForSome};
ghost use Rattle.dib.specs.Header.{rows, entries};
ghost use Rattle.dib.specs.HeaderStatus.{bad_header};
ghost use Rattle.sample.specs.At.{Colours};
ghost use Rattle.judge.specs.Record.{header_part, bits_part};
ghost use Rattle.judge.specs.Good.{Fit};
ghost use Rattle.picture.specs.Shown.{black as black_of, shown_entries, header_palette, picture_palette, picture_row};

use dib::Header;
use judge::Picture;

// The header part of a picture: the record's own bytes. It and `bits_part` are a call each: one function over both would be told which.
#[tactic(auto, unfolding(judge::specs::Record::header_part))]
pub fn header_part(s: &[u8], p: Picture) -> &[u8]
    requires { p.bmi + p.bmi_len ≤ length s.now }
    ensures { result.now ≡ header_part s.now p }
{
    words::part(s, p.bmi as usize, p.bmi_len as usize)
}

// The bits part of a picture: the record's own bytes.
#[tactic(auto, unfolding(judge::specs::Record::bits_part))]
pub fn bits_part(s: &[u8], p: Picture) -> &[u8]
    requires { p.bits + p.bits_len ≤ length s.now }
    ensures { result.now ≡ bits_part s.now p }
{
    words::part(s, p.bits as usize, p.bits_len as usize)
}

// 256 black colours.
pub fn black() -> [u32; 256]
    ensures { (result ≡ black_of) × Colours result }
{
    [0u32; 256]
}

// How many entries the palette shows: none at 16 bits and up.
pub fn shown_entries(h: Header) -> usize
    ensures { (result ≡ shown_entries h) × (result ≤ entries h) }
{
    if h.bits <= 8 {
        return dib::table_entries(h);
    }
    0
}

fn header_palette(header: &[u8], h: Header) -> [u32; 256]
    requires { bad_header (length header.now) h ≡ false }
    ensures { (result ≡ header_palette header.now h) × Colours result }
{
    let n = shown_entries(h);
    let from = dib::table_start(h);
    sample::palette::read(&header[from..], n)
}

// The palette of a picture; where there is none, it is black.
#[tactic(auto, using(crate::proofs::PictureRowLaws::length_header), unfolding(crate::specs::Shown::picture_palette))]
pub fn palette(s: &[u8], picture: Option<Picture>) -> [u32; 256]
    requires { ForSome picture (Fit (length s.now)) }
    ensures { (result ≡ picture_palette s.now picture) × Colours result }
{
    let Some(p) = picture else {
        return black();
    };
    header_palette(header_part(s, p), p.header)
}

// The bytes of a row of a picture, counted from its top.
pub fn row(s: &[u8], p: Picture, row: u32) -> &[u8]
    requires { Fit (length s.now) p × (row < rows p.header) }
    ensures { result.now ≡ picture_row s.now p row }
{
    let h = p.header;
    let bytes = bits_part(s, p);
    let long = pixel::position::row_length(h.width, h.bits) as usize;
    let k = sample::stored::row_at(dib::is_top_down(h), words::magnitude(h.height), row);
    sample::stored::row_bytes(bytes, long, k as usize)
}
