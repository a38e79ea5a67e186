// Playing a record, and undoing the last play. Surface, sides, journal and count in use come one by one and in no struct, as C lends them:
// the journal of an undo is lent to be read alone, and each contract names what it leaves of each.
#![tactic(auto)]

ghost use Rattle.std.specs.Prelude.{◌≡◌, length};
ghost use Rattle.words.specs.Refusal.{answer_of};
ghost use Rattle.judge.specs.Good.{Good};
ghost use Rattle.memory.specs.Memory.{memory, limits};
ghost use Rattle.memory.specs.Undoing.{undo_of};
ghost use Rattle.meaning.specs.Meaning.{meaning_in, work_of};
ghost use Rattle.player.specs.Calls.{play_with, play_outcome, accepted_outcome};
ghost use Rattle.player.specs.Outcome.{outcome_of, pixels_of};

use draw::Plan;
use judge::Record;
use meaning::Terms;
use words::refusal::{Refusal, status};

// A call's answer as two numbers: its status, and its number of pixels, 0 where it is refused.
pub fn numbers(answer: Result<u32, Refusal>) -> (u32, u32)
    ensures { (result.0 ≡ answer_of answer) × (result.1 ≡ pixels_of answer) }
{
    (status(&answer), answer.unwrap_or(0))
}

// Plays a record that was accepted, on memory that passed statuses 1 and 2; answers the pixels drawn.
#[tactic(auto, using(crate::proofs::PlayLaws::pixels_few))]
fn accepted(
    surface: &mut [u32],
    width: u32,
    height: u32,
    journal: &mut [u8],
    used: &mut u64,
    s: &[u8],
    rec: Record,
    terms: Terms,
) -> Result<u32, Refusal>
    requires { (limits width height (length surface.old) (length journal.old) used.old ≡ 0) × Good (length s.now) rec }
    ensures { outcome_of result (memory surface.new journal.new used.new)
        ≡ accepted_outcome width (work_of width height (meaning_in s.now rec) terms) (memory surface.old journal.old used.old) }
{
    let first = *used;
    let bounds = rec.bounds;
    let clip = terms.clip;
    let t = region::clipped_target(width, height, clip, bounds, rec.x, rec.y, rec.cx, rec.cy);
    let pixels = t.columns.count * t.rows.count;
    let records = journal.len() / journal::STRIDE;
    let free = records as u64 - first;
    if free < pixels + 1 {
        return Err(Refusal::JournalFull);
    }
    let plan = Plan {
        width,
        at: first as usize,
        record: rec,
        target: t,
        brush: terms.brush,
    };
    draw::clipped(surface, journal, s, plan);
    let closing = (first + pixels) as usize;
    journal::put(journal, closing, journal::MARK, pixels as u32, rec.kind);
    *used = first + pixels + 1;
    Ok(pixels as u32)
}

// Plays record s; answers the pixels drawn. `used` is the journal's records in use. A refused play changes nothing.
pub fn play(
    surface: &mut [u32],
    width: u32,
    height: u32,
    journal: &mut [u8],
    used: &mut u64,
    s: &[u8],
    terms: Terms,
) -> Result<u32, Refusal>
    ensures { outcome_of result (memory surface.new journal.new used.new)
        ≡ play_outcome width height (play_with s.now terms) (memory surface.old journal.old used.old) }
{
    memory::status(width, height, surface.len(), journal.len(), *used)?;
    let rec = match judge::check(s) {
        Ok(rec) => rec,
        Err(refusal) => return Err(refusal),
    };
    accepted(surface, width, height, journal, used, s, rec, terms)
}

// Undoes the last play; answers the pixels restored. All its records are tested before one pixel is restored: a refused undo changes
// nothing.
pub fn undo(
    surface: &mut [u32],
    width: u32,
    height: u32,
    journal: &[u8],
    used: &mut u64,
) -> Result<u32, Refusal>
    ensures { outcome_of result (memory surface.new journal.now used.new)
        ≡ undo_of width height (memory surface.old journal.now used.old) }
{
    memory::status(width, height, surface.len(), journal.len(), *used)?;
    if *used == 0 {
        return Err(Refusal::NothingToUndo);
    }
    let last = *used - 1;
    let closing = journal::load(journal, last as usize);
    if closing.first != journal::MARK {
        return Err(Refusal::BrokenPlay);
    }
    let named = closing.second;
    if last < named as u64 {
        return Err(Refusal::BrokenPlay);
    }
    let from = last - named as u64;
    if journal::any_off(journal, from as usize, named as usize, width, height) {
        return Err(Refusal::BrokenPlay);
    }
    journal::restore(
        surface,
        width,
        height,
        journal,
        from as usize,
        named as usize,
    );
    *used = from;
    Ok(named)
}
