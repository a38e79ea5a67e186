// Why a call is refused, and the number that C programs get for it.
ghost use Rattle.std.specs.Prelude.{◌≡◌};
ghost use Rattle.words.specs.Status.{lowest as lowest_of};
ghost use Rattle.words.specs.Refusal.{number_of, answer_of, Numbers};

// A status other than 0, which is success.
#[derive(Clone, Copy, PartialEq, Eq)]
pub enum Refusal {
    BadSurface = 1,
    BadJournal = 2,
    BadLength = 3,
    UnknownType = 4,
    BadSize = 5,
    PartOutside = 6,
    Unreadable = 7,
    BadHeader = 8,
    BadMasks = 9,
    BitsTooShort = 10,
    BadOperation = 11,
    BadGeometry = 12,
    BadMask = 13,
    JournalFull = 14,
    NothingToUndo = 15,
    BrokenPlay = 16,
    SharedParts = 21,
    MalformedList = 29,
    TooManyAnswers = 30,
}

impl From<Refusal> for u32 {
    ghost from_gives = { Numbers };

    fn from(refusal: Refusal) -> u32 {
        refusal as u32
    }
}

// The status of a result, which is 0 where it is a success.
pub fn status<T>(answer: &Result<T, Refusal>) -> u32
    ensures { result ≡ answer_of answer.now }
{
    match answer {
        Ok(_) => 0,
        Err(refusal) => u32::from(*refusal),
    }
}

// Of two results the refusal with the lower number, if there is one. The numbers are compared, as a derived order's `min` did not prove.
pub fn lowest(a: Result<(), Refusal>, b: Result<(), Refusal>) -> Result<(), Refusal>
    ensures { answer_of result ≡ lowest_of (answer_of a) (answer_of b) }
{
    match (a, b) {
        (Err(x), Err(y)) => Err(if u32::from(y) < u32::from(x) { y } else { x }),
        (Ok(()), _) => b,
        (Err(_), Ok(())) => a,
    }
}
