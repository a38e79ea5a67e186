// Why a script is not played to its end.
ghost use Rattle.std.specs.Prelude.{◌≡◌};

use std::io;

// A fault of the script, or a read or a write that failed.
#[derive(Debug, Drop)]
pub enum Failure {
    Fault,
    Stream(io::Error),
}

impl From<io::Error> for Failure {
    ghost use Rattle.replay.specs.declared.failure.Failure.TheVariants.{Stream};

    ghost from_gives = { λ e f. f ≡ Stream e };

    fn from(e: io::Error) -> Failure {
        Failure::Stream(e)
    }
}
