// A DIB's header: read to its numbers, and judged (statuses 8, 9 and 10).
#![tactic(auto)]

ghost use Rattle.std.specs.Prelude.{◌≡◌, false, ◌<◌, length};
ghost use Rattle.words.specs.Refusal.{answer_of};
ghost use Rattle.dib.specs.Header.{masks_at, header_of, top_down, table_start, entries};
ghost use Rattle.dib.specs.HeaderStatus.{bad_fields, bad_header, bad_masks, bits_needed, dib_status};

use words::refusal::Refusal;

mod limits;

// The masks of a pixel's channels. An alpha of 0 is none, and no Option, since `masks_at` and a reading's layout give the number.
#[derive(Clone, Copy, Default, PartialEq, Eq)]
pub struct Masks {
    pub red: u32,
    pub green: u32,
    pub blue: u32,
    pub alpha: u32,
}

// The header's numbers as written: width and height in two's complement. A mask is 0 where the header has none. Depth and compression are
// no enums, and a header that passed status 8 is no type of its own, since `header_of` gives every number that a header can hold, and a reading
// hands them out: `bits_needed` and `bad_masks` ask by `bad_fields`.
#[derive(Clone, Copy)]
pub struct Header {
    pub size: u32,
    pub width: u32,
    pub height: u32,
    pub planes: u32,
    pub bits: u32,
    pub compression: u32,
    pub colours: u32,
    pub masks: Masks,
}

// The masks of a header part, which it has under BI_BITFIELDS only.
fn read_masks(h: &[u8], compression: u32, size: u32) -> Masks
    ensures { result ≡ masks_at h.now compression size }
{
    if compression != 3 {
        return Masks::default();
    }
    Masks {
        red: words::read::<4>(h, 40),
        green: words::read::<4>(h, 44),
        blue: words::read::<4>(h, 48),
        alpha: if size == 108 {
            words::read::<4>(h, 52)
        } else {
            0
        },
    }
}

// The numbers of any header part; a byte past its end reads as 0.
pub fn read(h: &[u8]) -> Header
    ensures { result ≡ header_of h.now }
{
    let size = words::read::<4>(h, 0);
    let width = words::read::<4>(h, 4);
    let height = words::read::<4>(h, 8);
    let planes = words::read::<2>(h, 12);
    let bits = words::read::<2>(h, 14);
    let compression = words::read::<4>(h, 16);
    let colours = words::read::<4>(h, 32);
    let masks = read_masks(h, compression, size);
    Header {
        size,
        width,
        height,
        planes,
        bits,
        compression,
        colours,
        masks,
    }
}

// Where the colour table begins in the header part.
#[tactic(auto, unfolding(crate::specs::Header::table_start))]
pub fn table_start(h: Header) -> usize
    ensures { (result ≡ table_start h) × (result < 8589934592) }
{
    let behind_masks = if (h.compression == 3) & (h.size == 40) {
        12
    } else {
        0
    };
    h.size as usize + behind_masks
}

// How many entries the colour table has.
#[tactic(auto, using(crate::proofs::HeaderLaws::full_table), unfolding(crate::specs::Header::entries))]
pub fn table_entries(h: Header) -> usize
    ensures { (result ≡ entries h) × (result < 4294967296) }
{
    let entries = match h.colours {
        0 if h.bits <= 8 => limits::most_colours(h.bits),
        n => n,
    };
    entries as usize
}

// Status 8, all but the length of the header part.
#[tactic(auto, unfolding(crate::specs::HeaderStatus::bad_fields))]
fn bad_fields(h: Header) -> bool
    ensures { result ≡ bad_fields h }
{
    limits::bad_size(h.size)
        | (h.planes != 1)
        | !limits::is_depth(h.bits)
        | limits::bad_compression(h.compression, h.bits)
        | limits::bad_extent(h.width)
        | limits::bad_extent(words::magnitude(h.height))
        | limits::bad_colours(h.colours, h.bits)
}

// Status 8.
#[tactic(auto, unfolding(crate::specs::HeaderStatus::bad_header))]
fn bad_header(len: usize, h: Header) -> bool
    ensures { result ≡ bad_header len h }
{
    bad_fields(h) | (len < table_start(h) + 4 * table_entries(h))
}

// Status 9.
fn bad_masks(h: Header) -> bool
    requires { bad_fields h ≡ false }
    ensures { result ≡ bad_masks h }
{
    (h.compression == 3) & (limits::bad_channels(h.bits, h.masks) | limits::bad_overlaps(h.masks))
}

// Is the first stored row the top one?
pub fn is_top_down(h: Header) -> bool
    ensures { result ≡ top_down h }
{
    words::is_negative(h.height)
}

// The bytes that the rows take.
pub fn bits_needed(h: Header) -> u64
    requires { bad_fields h ≡ false }
    ensures { result ≡ bits_needed h }
{
    pixel::position::row_length(h.width, h.bits) * words::magnitude(h.height) as u64
}

// The first of 8, 9 and 10 that applies to a header whose part has `len` bytes and a bits part of `bits` bytes.
#[tactic(auto, using(crate::proofs::HeaderLaws::passed_fields), unfolding(crate::specs::HeaderStatus::dib_status))]
pub fn status(len: usize, h: Header, bits: u32) -> Result<(), Refusal>
    ensures { answer_of result ≡ dib_status len h bits }
{
    if bad_header(len, h) {
        return Err(Refusal::BadHeader);
    }
    if bad_masks(h) {
        return Err(Refusal::BadMasks);
    }
    if (bits as u64) < bits_needed(h) {
        return Err(Refusal::BitsTooShort);
    }
    Ok(())
}
