// The lent surface and journal: statuses 1 and 2, of numbers alone, as `limits` is: sides and pixels of the one, bytes and count of the other.
#![tactic(auto)]

ghost use Rattle.std.specs.Prelude.{◌≡◌};
ghost use Rattle.words.specs.Refusal.{answer_of};
ghost use Rattle.memory.specs.Memory.{bad_surface, bad_journal, surface_status, journal_status, limits};

use words::refusal::Refusal;

#[tactic(auto, unfolding(crate::specs::Memory::bad_surface))]
fn bad_surface(width: u32, height: u32, pixels: usize) -> bool
    ensures { result ≡ bad_surface width height pixels }
{
    (width < 1)
        | (4096 < width)
        | (height < 1)
        | (4096 < height)
        | (pixels != width as usize * height as usize)
}

#[tactic(auto, unfolding(crate::specs::Memory::bad_journal))]
fn bad_journal(size: usize, used: u64) -> bool
    ensures { result ≡ bad_journal size used }
{
    let records = size / journal::STRIDE;
    (size % journal::STRIDE != 0) | (20000000 < records) | ((records as u64) < used)
}

// 1, of a surface of so many pixels.
#[tactic(auto, unfolding(crate::specs::Memory::surface_status))]
pub fn surface_status(width: u32, height: u32, pixels: usize) -> Result<(), Refusal>
    ensures { answer_of result ≡ surface_status width height pixels }
{
    if bad_surface(width, height, pixels) {
        return Err(Refusal::BadSurface);
    }
    Ok(())
}

// 2, of a journal of so many bytes with `used` records in use.
#[tactic(auto, unfolding(crate::specs::Memory::journal_status))]
pub fn journal_status(size: usize, used: u64) -> Result<(), Refusal>
    ensures { answer_of result ≡ journal_status size used }
{
    if bad_journal(size, used) {
        return Err(Refusal::BadJournal);
    }
    Ok(())
}

// 1 and 2, of both.
#[tactic(auto, unfolding(crate::specs::Memory::limits))]
pub fn status(width: u32, height: u32, pixels: usize, size: usize, used: u64) -> Result<(), Refusal>
    ensures { answer_of result ≡ limits width height pixels size used }
{
    surface_status(width, height, pixels)?;
    journal_status(size, used)
}
