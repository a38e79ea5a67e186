// A row of source pixels and a row of mask bits; nothing is written where there is no source or no mask. The record is plain, with `Good` as a
// clause, and no type of its own, as `judge::check` answers it.
ghost use Rattle.std.specs.Prelude.{◌≤◌, ◌<◌, length};
ghost use Rattle.words.specs.Bytes.{magnitude32};
ghost use Rattle.meaning.specs.Rows.{SourceRow, SourceFilled, MaskRow, MaskFilled};

use dib::Masks;
use judge::Record;
use words::fill::mapped;

// s is the record. The source pixels of these columns of the source, in the row that row j of the target reads.
pub fn of_source(
    s: &[u8],
    r: Record,
    m: Masks,
    palette: &[u32; 256],
    columns: &[u32],
    j: u32,
    out: &mut [u32],
)
    requires source_row { SourceRow s.now r m palette.now columns.now }
    requires in_rows { (j < magnitude32 r.cy) × (length columns.now ≤ length out.old) }
    ensures { SourceFilled s.now r j columns.now out.old out.new }
{
    if let Some(p) = r.source {
        let row = crate::columns::source_column(p.y, r.cy_src, r.cy, j);
        let line = picture::row(s, p, row);
        fetch::row(p.header.bits, palette, m, line, columns, out);
    }
}

// The mask bits of these columns of the mask, in the row that row j of the target reads.
pub fn of_mask(s: &[u8], r: Record, columns: &[u32], j: u32, out: &mut [u8])
    requires mask_row { MaskRow s.now r columns.now }
    requires room { length columns.now ≤ length out.old }
    ensures { MaskFilled s.now r j columns.now out.old out.new }
{
    if let Some(p) = r.mask {
        let rows = words::magnitude(p.header.height);
        let row = crate::columns::mask_column(p.y, j, rows);
        let line = picture::row(s, p, row);
        mapped(
            columns,
            out,
            |column| sample::stored::bit(line, column as usize) as u8,
        );
    }
}
