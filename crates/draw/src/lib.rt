// Drawing an accepted record. What the record decides is decided before the first row; then each row fetches its source pixels
// and mask bits, and one loop saves the old pixels and writes the new ones. The buffers hold one row.
#![tactic(auto)]

ghost use Rattle.std.specs.Prelude.{◌≡◌, ◌+◌, ◌≤◌, None, length};
ghost use Rattle.std.specs.Option.{ForSome};
ghost use Rattle.words.specs.Bytes.{magnitude32};
ghost use Rattle.judge.specs.Good.{Good};
ghost use Rattle.sample.specs.Colour.{masks_in};
ghost use Rattle.meaning.specs.Sampling.{is_format1};
ghost use Rattle.draw.specs.Ready.{Ready, Mapped, Buffers, Drawn};

use composite::Start;
use dib::Masks;
use judge::Record;
use region::Target;

// The most columns that a row has, and as many as small buffers hold: clearing large ones would take most of a small play's time.
const MOST: usize = 4096;

const FEW: usize = 64;

// A record, its clipped target on a surface of this width, the brush, and the first record of the journal that is written.
#[derive(Clone, Copy)]
pub struct Plan {
    pub width: u32,
    pub at: usize,
    pub record: Record,
    pub target: Target,
    pub brush: u32,
}

// The columns of source and mask that the target's columns read; none is written where there is no such picture.
fn map_columns(s: &[u8], p: Plan, source_columns: &mut [u32], mask_columns: &mut [u32])
    requires record { Good (length s.now) p.record
        × (p.target.columns.index + p.target.columns.count ≤ magnitude32 p.record.cx) }
    requires as_many { (length source_columns.old ≡ p.target.columns.count) × (length mask_columns.old ≡ p.target.columns.count) }
    ensures mapped { Mapped p source_columns.new mask_columns.new }
    ensures absent { (p.record.source ≡ None → source_columns.new ≡ source_columns.old)
        × (p.record.mask ≡ None → mask_columns.new ≡ mask_columns.old) }
{
    let r = p.record;
    let index = p.target.columns.index as u32;
    if let Some(source) = r.source {
        meaning::columns::of_source(source.x, r.cx_src, r.cx, index, source_columns);
    }
    if let Some(mask) = r.mask {
        meaning::columns::of_mask(mask.x, mask.header.width, index, mask_columns);
    }
}

// The masks that the source's pixels are read with; without a source none are.
fn source_masks(r: Record) -> Masks
    ensures { ForSome r.source (λ p. result ≡ masks_in p.header (is_format1 r.action)) }
{
    match r.source {
        Some(p) => sample::colour::masks(p.header, meaning::is_format1(r.action)),
        None => Masks::default(),
    }
}

// Draws the rows of the clipped target, each through the buffers, which are as long as a row. They come one by one: behind a struct that lends
// them, the places written in the loop did not prove. `Ready` is a clause and no type: `clipped`, named in docs/, asks it of a plain plan, and only
// of one with columns.
fn rows(
    surface: &mut [u32],
    journal: &mut [u8],
    s: &[u8],
    p: Plan,
    source_columns: &mut [u32],
    mask_columns: &mut [u32],
    colours: &mut [u32],
    bits: &mut [u8],
)
    requires ready { Ready (length s.now) p surface.old journal.old }
    requires buffers { Buffers p source_columns.old mask_columns.old colours.old bits.old }
    ensures { Drawn s.now p surface.old journal.old surface.new journal.new }
{
    map_columns(s, p, source_columns, mask_columns);
    let r = p.record;
    let masks = source_masks(r);
    let palette = picture::palette(s, r.source);
    let rule = meaning::rule(r.action, p.brush);
    let t = p.target;
    for k in 0..t.rows.count {
        let start = Start {
            at: p.at + (t.columns.count * k) as usize,
            x: t.columns.at as u32,
            y: (t.rows.at + k) as u32,
        };
        let j = (t.rows.index + k) as u32;
        meaning::rows::of_source(s, r, masks, &palette, source_columns, j, colours);
        meaning::rows::of_mask(s, r, mask_columns, j, bits);
        composite::row(surface, p.width, journal, start, colours, bits, rule);
    }
}

// Draws a target of at most N columns, through buffers of N.
fn through<const N: usize>(surface: &mut [u32], journal: &mut [u8], s: &[u8], p: Plan)
    requires ready { Ready (length s.now) p surface.old journal.old }
    requires room { p.target.columns.count ≤ N }
    requires limit { N ≤ 4096 }
    ensures { Drawn s.now p surface.old journal.old surface.new journal.new }
{
    let count = p.target.columns.count as usize;
    let mut source_columns = [0u32; N];
    let mut mask_columns = [0u32; N];
    let mut colours = [0u32; N];
    let mut bits = [0u8; N];
    rows(
        surface,
        journal,
        s,
        p,
        &mut source_columns[..count],
        &mut mask_columns[..count],
        &mut colours[..count],
        &mut bits[..count],
    );
}

// Draws the plan's target, and saves its old pixels. A target without columns may lie anywhere: nothing is drawn.
pub fn clipped(surface: &mut [u32], journal: &mut [u8], s: &[u8], p: Plan)
    requires { 1 ≤ p.target.columns.count → Ready (length s.now) p surface.old journal.old }
    ensures { Drawn s.now p surface.old journal.old surface.new journal.new }
{
    if p.target.columns.count == 0 {
        return;
    }
    if p.target.columns.count <= FEW as u64 {
        through::<FEW>(surface, journal, s, p);
        return;
    }
    through::<MOST>(surface, journal, s, p);
}
