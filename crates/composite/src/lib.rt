// A row of a play: a loop saves each old pixel and writes the new. The rule is chosen once a row, and the loop is compiled anew for
// each: a choice inside it would keep it from being vectorised.
#![tactic(auto)]

ghost use Rattle.std.specs.Prelude.{◌≡◌, cond, eqb, List, ℕ, ◌+◌, ◌*◌, ◌≤◌, ◌<◌, length};
ghost use Rattle.journal.specs.Records.{stride};
ghost use Rattle.composite.specs.declared.Rule.{Rule};
ghost use Rattle.composite.specs.Paints.{Paints, Painted};

// What a pixel becomes: blended in alpha format 0 or 1 at a constant alpha, by a raster operation and a brush, or by one of two
// raster operations (foreground, background) as the mask's bit says. judge::Action with the brush: two enums, since `action_of` knows no
// brush and `rule_of` adds it.
#[derive(Clone, Copy)]
pub enum Rule {
    Blend0(u8),
    Blend1(u8),
    Raster(u8, u32),
    Masked(u8, u8, u32),
}

// Where a row begins: its first record in the journal, and its first pixel's column and row.
#[derive(Clone, Copy)]
pub struct Start {
    pub at: usize,
    pub x: u32,
    pub y: u32,
}

// Draws a row: a pixel for each of the source pixels and mask bits, two slices, since only one rule reads the bits.
pub fn row(
    surface: &mut [u32],
    width: u32,
    journal: &mut [u8],
    p: Start,
    colours: &[u32],
    bits: &[u8],
    rule: Rule,
)
    requires in_width { (p.x + length colours.now ≤ width) × (length colours.now ≤ length bits.now) }
    requires in_surface { p.y * width + width ≤ length surface.old }
    requires in_journal { (p.at + length colours.now) * stride ≤ length journal.old }
    ensures { Painted width p rule colours.now bits.now
        surface.old journal.old surface.new journal.new }
{
    match rule {
        Rule::Blend0(c) => each(surface, width, journal, p, colours, |_, source, old| {
            pixel::blend::pixel0(source, old, c)
        }),
        Rule::Blend1(c) => each(surface, width, journal, p, colours, |_, source, old| {
            pixel::blend::pixel1(source, old, c)
        }),
        Rule::Raster(op, brush) => each(surface, width, journal, p, colours, |_, source, old| {
            pixel::raster::pixel(op, brush, source, old)
        }),
        Rule::Masked(foreground, background, brush) => each(
            surface,
            width,
            journal,
            p,
            colours,
            |i, source, old| {
                let one = pixel::raster::pixel(foreground, brush, source, old);
                let zero = pixel::raster::pixel(background, brush, source, old);
                by_bit(bits[i], one, zero)
            },
        ),
    }
}

// Saves each old pixel of a row, and writes what `paint` makes of it, of its place in the row and of its source pixel.
fn each<F: Fn(usize, u32, u32) -> u32>(
    surface: &mut [u32],
    width: u32,
    journal: &mut [u8],
    p: Start,
    colours: &[u32],
    paint: F,
)
    requires callable { (i source old : ℕ) → i < length colours.now → F.pre paint i source old }
    requires in_width { p.x + length colours.now ≤ width }
    requires in_surface { p.y * width + width ≤ length surface.old }
    requires in_journal { (p.at + length colours.now) * stride ≤ length journal.old }
    ensures { (rule : Rule) (bits : List ℕ) → Paints (F.post paint) rule (length colours.now) bits
        → Painted width p rule colours.now bits surface.old journal.old surface.new journal.new }
{
    let start = p.y as usize * width as usize + p.x as usize;
    for (i, source) in colours.iter().enumerate() {
        let k = start + i;
        let old = surface[k];
        journal::put(journal, p.at + i, p.x + i as u32, p.y, old);
        surface[k] = paint(i, *source, old);
    }
}

// Both outcomes are worked out and one is picked: no branch on what the mask holds.
fn by_bit(bit: u8, one: u32, zero: u32) -> u32
    ensures { result ≡ cond (eqb bit 1) one zero }
{
    if bit == 1 { one } else { zero }
}
