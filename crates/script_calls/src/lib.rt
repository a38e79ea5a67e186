// The library's calls as a script asks for them, on what is lent of the surface and the journal.
#![tactic(auto)]

ghost use Rattle.std.specs.Prelude.{◌≡◌, ◌≤◌, length, take};
ghost use Rattle.memory.specs.Memory.{memory as memory_with};
ghost use Rattle.memory.specs.Undoing.{undo_of};
ghost use Rattle.player.specs.Outcome.{outcome_of};
ghost use Rattle.script_calls.specs.Asked.{Rest, read_line};

use script_format::sum::{of_bytes, of_words};
use words::refusal::Refusal;

// What the next calls are lent: the sides, how much of surface and journal, and the records in use.
#[derive(Clone, Copy)]
pub struct Loan {
    pub width: u32,
    pub height: u32,
    pub pixels: usize,
    pub bytes: usize,
    pub used: u64,
}

// A script's surface and journal, and what the next calls are lent of them. Both are held whole, since a later call may be lent more
// again.
#[derive(Drop)]
pub struct Lent<'a> {
    pub surface: &'a mut [u32],
    pub journal: &'a mut [u8],
    pub loan: Loan,
    pub ghost pixels_within: { loan.pixels ≤ length surface.now },
    pub ghost bytes_within: { loan.bytes ≤ length journal.now },
}

impl<'a> Lent<'a> {
    ghost use Rattle.player.specs.Calls.{play_outcome};
    ghost use Rattle.script_calls.specs.Asked.{play_asked};
    ghost use Rattle.script_calls.specs.Kept.{SameLoan};

    // A play of record s. Behind the opcode of the call stand the clip's four numbers, the brush and a tag, which is not looked at.
    pub fn play(&mut self, s: &[u8], call: &[u8]) -> Result<u32, Refusal>
        ensures outcome { outcome_of result
            (memory_with (take self.old.loan.pixels self.new.surface.now) (take self.old.loan.bytes self.new.journal.now) self.new.loan.used)
            ≡ play_outcome self.old.loan.width self.old.loan.height (play_asked s.now call.now)
            (memory_with (take self.old.loan.pixels self.old.surface.now) (take self.old.loan.bytes self.old.journal.now) self.old.loan.used) }
        ensures rest { (Rest self.old.loan.pixels self.old.surface.now self.new.surface.now)
            × (Rest self.old.loan.bytes self.old.journal.now self.new.journal.now) }
        ensures loan { SameLoan self.old self.new }
    {
        let terms = meaning::read_terms(call, 4);
        let pixels = self.loan.pixels;
        let bytes = self.loan.bytes;
        player::play(
            &mut self.surface[..pixels],
            self.loan.width,
            self.loan.height,
            &mut self.journal[..bytes],
            &mut self.loan.used,
            s,
            terms,
        )
    }

    // An undo of the last play.
    pub fn undo(&mut self) -> Result<u32, Refusal>
        ensures outcome { outcome_of result
            (memory_with (take self.old.loan.pixels self.new.surface.now) (take self.old.loan.bytes self.new.journal.now) self.new.loan.used)
            ≡ undo_of self.old.loan.width self.old.loan.height
            (memory_with (take self.old.loan.pixels self.old.surface.now) (take self.old.loan.bytes self.old.journal.now) self.old.loan.used) }
        ensures rest { Rest self.old.loan.pixels self.old.surface.now self.new.surface.now }
        ensures journal { self.new.journal.now ≡ self.old.journal.now }
        ensures loan { SameLoan self.old self.new }
    {
        // A journal borrowed as `&` here would not be known to stay.
        let journal = &mut *self.journal;
        undo(self.surface, journal, &mut self.loan)
    }
}

// An undo of the last play, by a journal that is read alone.
pub fn undo(surface: &mut [u32], journal: &[u8], loan: &mut Loan) -> Result<u32, Refusal>
    requires { (loan.old.pixels ≤ length surface.old) × (loan.old.bytes ≤ length journal.now) }
    ensures outcome { outcome_of result (memory_with (take loan.old.pixels surface.new) (take loan.old.bytes journal.now) loan.new.used)
        ≡ undo_of loan.old.width loan.old.height
        (memory_with (take loan.old.pixels surface.old) (take loan.old.bytes journal.now) loan.old.used) }
    ensures rest { Rest loan.old.pixels surface.old surface.new }
    ensures loan { loan.new ≡ record loan.old { used = loan.new.used } }
{
    let pixels = loan.pixels;
    let bytes = loan.bytes;
    let journal = &journal[..bytes];
    player::undo(
        &mut surface[..pixels],
        loan.width,
        loan.height,
        journal,
        &mut loan.used,
    )
}

// A reading of record s, as the numbers of its line; asked for as `view::read` is.
pub fn read(s: &[u8], mask: bool) -> [u64; 15]
    ensures { result ≡ read_line s.now mask }
{
    let w = view::read(s, mask);
    let layout = w.view.layout;
    let masks = layout.masks;
    [
        u64::from(w.status),
        w.header.len() as u64,
        of_bytes(w.header),
        w.view.bytes.len() as u64,
        of_bytes(w.view.bytes),
        u64::from(w.view.width),
        u64::from(w.view.rows),
        u64::from(layout.bits),
        u64::from(layout.compression),
        u64::from(layout.top_down),
        u64::from(masks.red),
        u64::from(masks.green),
        u64::from(masks.blue),
        u64::from(masks.alpha),
        of_words(&w.palette),
    ]
}
