// The C entry points, which take every input: include/lacrumont.h documents them. From a library `no_mangle` exports nothing: lacrumont_c
// exports them.
#![tactic(auto)]

ghost use Rattle.std.specs.Prelude.{◌≡◌};
ghost use Rattle.memory.specs.Memory.{memory, outcome};
ghost use Rattle.memory.specs.Undoing.{undo_of};
ghost use Rattle.history.specs.Run.{ran, run_of};
ghost use Rattle.reading.specs.Reading.{reading_of, read_palette};
ghost use Rattle.lacrumont.specs.Numbers.{asks_mask, numbers_in};
ghost use Rattle.player.specs.Calls.{play_with, play_outcome};

use meaning::Terms;
use region::Rectangle;

// Plays record s onto the surface. `used` is the journal's records in use, before and after; `pixels` gets the number drawn.
#[unsafe(no_mangle)]
pub extern "C" fn lacrumont_play(
    surface: &mut [u32],
    width: u32,
    height: u32,
    journal: &mut [u8],
    used: &mut u64,
    s: &[u8],
    left: u32,
    top: u32,
    right: u32,
    bottom: u32,
    brush: u32,
    pixels: &mut u32,
) -> u32
    ensures { outcome result pixels.new (memory surface.new journal.new used.new)
        ≡ play_outcome width height (play_with s.now
        (record { clip = record { left = left; top = top; right = right; bottom = bottom }; brush = brush }))
        (memory surface.old journal.old used.old) }
{
    let clip = Rectangle {
        left,
        top,
        right,
        bottom,
    };
    let terms = Terms { clip, brush };
    let answer = player::play(surface, width, height, journal, used, s, terms);
    let (status, number) = player::numbers(answer);
    *pixels = number;
    status
}

// Undoes the last play in the journal. `used` and `pixels` as above.
#[unsafe(no_mangle)]
pub extern "C" fn lacrumont_undo(
    surface: &mut [u32],
    width: u32,
    height: u32,
    journal: &[u8],
    used: &mut u64,
    pixels: &mut u32,
) -> u32
    ensures { outcome result pixels.new (memory surface.new journal.now used.new)
        ≡ undo_of width height (memory surface.old journal.now used.old) }
{
    let answer = player::undo(surface, width, height, journal, used);
    let (status, number) = player::numbers(answer);
    *pixels = number;
    status
}

// Runs a list of plays and undos on a surface and a journal with no record in use. `answers` gets two numbers of each call, `calls` their
// number, `used` the journal's records in use.
#[unsafe(no_mangle)]
pub extern "C" fn lacrumont_run(
    surface: &mut [u32],
    width: u32,
    height: u32,
    journal: &mut [u8],
    list: &[u8],
    answers: &mut [u32],
    used: &mut u64,
    calls: &mut u32,
) -> u32
    ensures { ran result calls.new used.new surface.new journal.new answers.new
        ≡ run_of width height surface.old journal.old list.now answers.old }
{
    match history::run(surface, width, height, journal, list, answers) {
        Ok(report) => {
            *used = report.used;
            *calls = report.calls;
            0
        }
        Err(refusal) => {
            *used = 0;
            *calls = 0;
            u32::from(refusal)
        }
    }
}

// Reads the record's source (mask 0) or mask. `out` gets where the header part and the view's bytes stand, width, rows and layout.
#[unsafe(no_mangle)]
pub extern "C" fn lacrumont_read(s: &[u8], mask: u32, out: &mut [u64; 13]) -> u32
    ensures { (result ≡ (reading_of s.now (asks_mask mask)).status) × (out.new ≡ numbers_in (reading_of s.now (asks_mask mask))) }
{
    let a = reading::read(s, mask != 0);
    let l = a.layout;
    *out = [
        a.header_at as u64,
        a.header_len as u64,
        a.view_at as u64,
        a.view_len as u64,
        a.width as u64,
        a.rows as u64,
        l.bits as u64,
        l.compression as u64,
        u64::from(l.top_down),
        l.masks.red as u64,
        l.masks.green as u64,
        l.masks.blue as u64,
        l.masks.alpha as u64,
    ];
    a.status
}

// The palette of the record's source (mask 0) or mask; black where there is none.
#[unsafe(no_mangle)]
pub extern "C" fn lacrumont_palette(s: &[u8], mask: u32, out: &mut [u32; 256])
    ensures { out.new ≡ read_palette s.now (asks_mask mask) }
{
    let a = reading::read(s, mask != 0);
    *out = reading::palette(s, a);
}
