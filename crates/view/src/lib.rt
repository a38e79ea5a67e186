// A reading as one answer: its status, the header part, the view and the palette, in a struct that holds the record's own bytes. No
// `requires`, every byte string is answered.
#![tactic(auto)]

ghost use Rattle.view.specs.View.{IsWhole};

use reading::Layout;

// A picture view: the record's own bytes, with width, rows and layout.
#[derive(Clone, Copy)]
pub struct View<'a> {
    pub bytes: &'a [u8],
    pub width: u32,
    pub rows: u32,
    pub layout: Layout,
}

// A reading for the source or the mask, as one answer. A refused one has its status beside empty parts and a black palette (`IsWhole`).
#[derive(Clone, Copy)]
pub struct Whole<'a> {
    pub status: u32,
    pub header: &'a [u8],
    pub view: View<'a>,
    pub palette: [u32; 256],
}

// The reading of the source, or of the mask, asked for as `reading::read` is.
pub fn read<'a>(s: &'a [u8], mask: bool) -> Whole<'a>
    ensures { IsWhole s.entry mask result }
{
    let r = reading::read(s, mask);
    let header = reading::header_part(s, r);
    let bytes = reading::view_part(s, r);
    let palette = reading::palette(s, r);
    Whole {
        status: r.status,
        header,
        view: View {
            bytes,
            width: r.width,
            rows: r.rows,
            layout: r.layout,
        },
        palette,
    }
}
