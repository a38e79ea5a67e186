// Runs a list of plays and undos that is given as bytes, each with the real call, and answers what each call answered. What is lent comes one
// by one through to the player, whose clauses name each. A call is found by the list and its place in it, as `call_length` and `call_at` have it,
// and its two answers go to their place among all, of which `Stepped` speaks.
#![tactic(auto)]

ghost use Rattle.std.specs.Prelude.{◌≡◌, true, ◌+◌, ◌*◌, ◌≤◌, ◌<◌, length};
ghost use Rattle.std.proofs.lemmas.List.Edits.{sets};
ghost use Rattle.words.specs.Bytes.{le32};
ghost use Rattle.memory.specs.Memory.{memory};
ghost use Rattle.player.specs.Calls.{play_outcome};
ghost use Rattle.player.specs.Outcome.{outcome_of};
ghost use Rattle.history.specs.Lists.{made, memory_after, answers as answers_of};
ghost use Rattle.history.specs.Run.{play_at, padded as padded_of, call_length, call_at, well_formed, calls_from, numbers_of, run_of};
ghost use Rattle.history.specs.Reported.{reported, length_found};
ghost use Rattle.history.specs.Stepped.{Stepped};

use words::refusal::Refusal;

// What a run answered: how many calls were made, and the journal's records in use afterwards.
#[derive(Clone, Copy)]
pub struct Report {
    pub calls: u32,
    pub used: u64,
}

// The length of the call that stands whole at a place of the list. The list's two kinds of call, 1 and 2, are matched here and in `call`: an
// enum would cost a conversion with an error of its own for two arms.
#[tactic(auto, unfolding(crate::specs::Run::call_length))]
fn call_length(list: &[u8], at: usize) -> Option<usize>
    ensures { result ≡ length_found (call_length list.now at) }
{
    let room = list.len().checked_sub(at)?;
    if room < 4 {
        return None;
    }
    let length = match words::load::<4>(list, at) {
        1 if 32 <= room => 32 + padded(words::load::<4>(list, at + 28)),
        2 => 4,
        _ => return None,
    };
    if room < length {
        return None;
    }
    Some(length)
}

// A length, up to the next multiple of 4.
fn padded(n: u32) -> usize
    ensures { (result ≡ padded_of n) × (result < 8589934592) }
{
    (n as usize).next_multiple_of(4)
}

// Do n calls stand from a place on, and nothing behind them?
fn well_formed(list: &[u8], at: usize, n: u32) -> bool
    ensures { result ≡ well_formed list.now at n }
{
    let mut place = at;
    for _ in 0..n {
        let Some(length) = call_length(list, place) else {
            return false;
        };
        place += length;
    }
    place == list.len()
}

// Plays the record that stands whole at a place of the list.
fn play_at(
    surface: &mut [u32],
    width: u32,
    height: u32,
    journal: &mut [u8],
    used: &mut u64,
    list: &[u8],
    at: usize,
) -> Result<u32, Refusal>
    requires { at + (32 + padded_of (le32 list.now (at + 28))) ≤ length list.now }
    ensures { outcome_of result (memory surface.new journal.new used.new)
        ≡ play_outcome width height (play_at list.now at) (memory surface.old journal.old used.old) }
{
    let terms = meaning::read_terms(list, at + 4);
    let count = words::read::<4>(list, at + 28) as usize;
    let s = words::part(list, at + 32, count);
    player::play(surface, width, height, journal, used, s, terms)
}

// Makes the call at a place of the list.
#[tactic(auto, using(crate::proofs::CallLaws::play_inside), unfolding(crate::specs::Run::call_at))]
fn call(
    surface: &mut [u32],
    width: u32,
    height: u32,
    journal: &mut [u8],
    used: &mut u64,
    list: &[u8],
    at: usize,
) -> Result<u32, Refusal>
    requires { call_length list.now at ≡ 0 → ⊥ }
    ensures { outcome_of result (memory surface.new journal.new used.new)
        ≡ made width height (call_at list.now at) (memory surface.old journal.old used.old) }
{
    match words::read::<4>(list, at) {
        1 => play_at(surface, width, height, journal, used, list, at),
        _ => player::undo(surface, width, height, journal, used),
    }
}

// Makes the call at a place of the list, with its two numbers at place k of the answers; where the next call stands.
fn one(
    surface: &mut [u32],
    width: u32,
    height: u32,
    journal: &mut [u8],
    used: &mut u64,
    list: &[u8],
    at: usize,
    answers: &mut [u32],
    k: usize,
) -> usize
    requires { (call_length list.now at ≡ 0 → ⊥) × (k + 2 ≤ length answers.old) }
    ensures { Stepped width height list.now at (memory surface.old journal.old used.old)
        (memory surface.new journal.new used.new) k answers.old answers.new result }
{
    let answer = call(surface, width, height, journal, used, list, at);
    let (status, number) = player::numbers(answer);
    answers[k] = status;
    answers[k + 1] = number;
    at + call_length(list, at).unwrap_or(0)
}

// Makes the list's n calls, one after the other, from none in use; the count in use afterwards.
fn all(
    surface: &mut [u32],
    width: u32,
    height: u32,
    journal: &mut [u8],
    list: &[u8],
    n: u32,
    answers: &mut [u32],
) -> u64
    requires { (well_formed list.now 4 n ≡ true) × (n * 2 ≤ length answers.old) }
    ensures leaves { memory surface.new journal.new result
        ≡ memory_after width height (calls_from list.now 4 n) (memory surface.old journal.old 0) }
    ensures writes { answers.new ≡ sets answers.old 0
        (numbers_of (answers_of width height (calls_from list.now 4 n) (memory surface.old journal.old 0))) }
{
    let mut used = 0;
    let mut at = 4;
    for i in 0..n {
        let k = i as usize * 2;
        at = one(
            surface, width, height, journal, &mut used, list, at, answers, k,
        );
    }
    used
}

// Runs a list of calls on a surface and a journal with none in use: the status and the number of each call go to `answers`.
// Status 29: the list is malformed. Status 30: the answers exceed their room. A refused run changes nothing.
pub fn run(
    surface: &mut [u32],
    width: u32,
    height: u32,
    journal: &mut [u8],
    list: &[u8],
    answers: &mut [u32],
) -> Result<Report, Refusal>
    ensures { reported result surface.new journal.new answers.new
        ≡ run_of width height surface.old journal.old list.now answers.old }
{
    memory::status(width, height, surface.len(), journal.len(), 0)?;
    let calls = words::read::<4>(list, 0);
    if !well_formed(list, 4, calls) {
        return Err(Refusal::MalformedList);
    }
    if answers.len() < calls as usize * 2 {
        return Err(Refusal::TooManyAnswers);
    }
    let used = all(surface, width, height, journal, list, calls, answers);
    Ok(Report { calls, used })
}
