// The library lacrumont for C: each entry point calls the function of its name there, and states its clause again.
// include/lacrumont.h documents them. A static library can't be used by a crate, so the two are apart.
#![tactic(auto)]

ghost use Rattle.std.specs.Prelude.{◌≡◌};
ghost use Rattle.memory.specs.Memory.{memory, outcome};
ghost use Rattle.memory.specs.Undoing.{undo_of};
ghost use Rattle.history.specs.Run.{ran, run_of};
ghost use Rattle.reading.specs.Reading.{reading_of, read_palette};
ghost use Rattle.lacrumont.specs.Numbers.{asks_mask, numbers_in};
ghost use Rattle.player.specs.Calls.{play_with, play_outcome};

// Plays record s onto the surface. `used` is the journal's records in use, before and after; `pixels` gets the number drawn.
#[unsafe(no_mangle)]
pub extern "C" fn lacrumont_play(
    surface: &mut [u32],
    width: u32,
    height: u32,
    journal: &mut [u8],
    used: &mut u64,
    s: &[u8],
    left: u32,
    top: u32,
    right: u32,
    bottom: u32,
    brush: u32,
    pixels: &mut u32,
) -> u32
    ensures { outcome result pixels.new (memory surface.new journal.new used.new)
        ≡ play_outcome width height (play_with s.now
        (record { clip = record { left = left; top = top; right = right; bottom = bottom }; brush = brush }))
        (memory surface.old journal.old used.old) }
{
    lacrumont::lacrumont_play(
        surface, width, height, journal, used, s, left, top, right, bottom, brush, pixels,
    )
}

// Undoes the last play in the journal. `used` and `pixels` as above.
#[unsafe(no_mangle)]
pub extern "C" fn lacrumont_undo(
    surface: &mut [u32],
    width: u32,
    height: u32,
    journal: &[u8],
    used: &mut u64,
    pixels: &mut u32,
) -> u32
    ensures { outcome result pixels.new (memory surface.new journal.now used.new)
        ≡ undo_of width height (memory surface.old journal.now used.old) }
{
    lacrumont::lacrumont_undo(surface, width, height, journal, used, pixels)
}

// Runs a list of plays and undos on a surface and a journal with no record in use. `answers` gets two numbers of each call, `calls` their
// number, `used` the journal's records in use.
#[unsafe(no_mangle)]
pub extern "C" fn lacrumont_run(
    surface: &mut [u32],
    width: u32,
    height: u32,
    journal: &mut [u8],
    list: &[u8],
    answers: &mut [u32],
    used: &mut u64,
    calls: &mut u32,
) -> u32
    ensures { ran result calls.new used.new surface.new journal.new answers.new
        ≡ run_of width height surface.old journal.old list.now answers.old }
{
    lacrumont::lacrumont_run(surface, width, height, journal, list, answers, used, calls)
}

// Reads the record's source (mask 0) or mask. `out` gets where the header part and the view's bytes stand, width, rows and layout.
#[unsafe(no_mangle)]
pub extern "C" fn lacrumont_read(s: &[u8], mask: u32, out: &mut [u64; 13]) -> u32
    ensures { (result ≡ (reading_of s.now (asks_mask mask)).status) × (out.new ≡ numbers_in (reading_of s.now (asks_mask mask))) }
{
    lacrumont::lacrumont_read(s, mask, out)
}

// The palette of the record's source (mask 0) or mask; black where there is none.
#[unsafe(no_mangle)]
pub extern "C" fn lacrumont_palette(s: &[u8], mask: u32, out: &mut [u32; 256])
    ensures { out.new ≡ read_palette s.now (asks_mask mask) }
{
    lacrumont::lacrumont_palette(s, mask, out);
}
