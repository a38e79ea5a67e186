// A row of source pixels, fetched once a row: one loop, specialised to each depth and common layout, so that none is asked for at a pixel.
#![tactic(auto)]

ghost use Rattle.std.specs.Prelude.{◌≡◌, [], ◌+◌, ◌*◌, ◌^◌, ◌≤◌, ◌<◌, length, get_or};
ghost use Rattle.words.specs.Filled.{Filled};
ghost use Rattle.words.specs.Bytes.{le};
ghost use Rattle.pixel.specs.Widen.{Widens};
ghost use Rattle.sample.specs.At.{Colours};
ghost use Rattle.sample.specs.Colour.{Sampled, masked as masked_of};
ghost use Rattle.fetch.specs.Fetched.{fetched, Fetches, InRow, Readable, WholeBytes};

use dib::Masks;
use sample::colour::byte_masks;
use words::fill::mapped;

// Fills the front of `out` with the source pixels of `columns`, from the bytes of their row. The palette, the masks, the line and the columns are
// plain values with a clause each, and no types of their own, as `sample::palette::read`, `sample::colour::masks` and `picture::row` hand them out.
pub fn row(bits: u32, palette: &[u32; 256], m: Masks, line: &[u8], columns: &[u32], out: &mut [u32])
    requires readable { Readable bits m }
    requires in_row { InRow bits line.now columns.now out.old }
    requires colours { Colours palette.now }
    ensures { Filled (fetched bits palette.now m line.now columns.now)
        out.old (length columns.now) out.new }
{
    match bits {
        1 => mapped(
            columns,
            out,
            |column| opaque(palette, sample::stored::bit(line, column as usize)),
        ),
        4 => mapped(
            columns,
            out,
            |column| opaque(palette, sample::stored::half(line, column as usize)),
        ),
        8 => mapped(
            columns,
            out,
            |column| opaque(palette, u32::from(line[column as usize])),
        ),
        16 => masked::<2>(m, line, columns, out),
        24 => mapped(
            columns,
            out,
            |column| 0xFF000000 + words::load::<3>(line, column as usize * 3),
        ),
        _ => row32(m, line, columns, out),
    }
}

// Pixels of N bytes, by any masks. A function of its own: with the table in an arm of its caller each row clears it, whatever its layout (a
// play of 16 by 16 at 32 bits then took 1,910 ns for 1,370).
fn masked<const N: usize>(m: Masks, line: &[u8], columns: &[u32], out: &mut [u32])
    requires whole { WholeBytes N }
    requires in_row { InRow (N * 8) line.now columns.now out.old }
    requires sampled { Sampled m }
    ensures { Fetches (N * 8) [] m line.now columns.now out.old out.new }
{
    let table = pixel::widen::table();
    let pixel = |column: u32| -> u32
        requires { ((column + 1) * N ≤ length line.now) × (N ≤ 4) × Sampled m × Widens table }
        ensures { result ≡ masked_of m (le N line.entry.now (column * N)) }
    { sample::colour::masked(&table, m, words::load::<N>(line, column as usize * N)) };
    mapped(columns, out, pixel);
}

// 32 bits: the masks choose how a number is shown. Where each channel is a byte, the stored bytes are the pixel's own.
fn row32(m: Masks, line: &[u8], columns: &[u32], out: &mut [u32])
    requires in_row { InRow 32 line.now columns.now out.old }
    requires sampled { Sampled m }
    ensures { Fetches 32 [] m line.now columns.now out.old out.new }
{
    if m == byte_masks(0) {
        mapped(
            columns,
            out,
            |column| 0xFF000000 + words::load::<4>(line, column as usize * 4) % 0x1000000,
        );
    } else if m == byte_masks(0xFF000000) {
        mapped(
            columns,
            out,
            |column| words::load::<4>(line, column as usize * 4),
        );
    } else {
        masked::<4>(m, line, columns, out);
    }
}

// A palette's colour with alpha 255.
fn opaque(palette: &[u32; 256], n: u32) -> u32
    requires is_byte { n < 256 }
    requires colours { Colours palette.now }
    ensures { result ≡ 255 * 2 ^ 24 + get_or palette.now n 0 }
{
    0xFF000000 + palette[n as usize]
}
