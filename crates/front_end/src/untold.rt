//! Answers: why a text was not written to its end, and the status of a call that writes one.

ghost use Rattle.std.specs.Prelude.{◌≡◌};
ghost use Rattle.front_end.specs.Told.{status_by};

use crate::status::Status;
use kw_bits::NoMemory;

/// Why a text wasn't written to its end.
#[derive(Clone, Copy, Debug, PartialEq, Eq)]
pub enum Untold {
    WriteFault,
    NoMemory,
}

impl From<NoMemory> for Untold {
    ghost use Rattle.std.specs.Prelude.{◌≡◌};
    ghost use Rattle.front_end.specs.declared.untold.Untold.TheVariants as untold;

    ghost from_gives = { λ _ e. e ≡ untold.NoMemory };

    fn from(_: NoMemory) -> Untold {
        Untold::NoMemory
    }
}

/// The status of a call that wrote its text to the end, or didn't.
pub fn status_by(told: Result<(), Untold>, done: Status) -> Status
    ensures { result ≡ status_by told done }
{
    match told {
        Ok(()) => done,
        Err(Untold::WriteFault) => Status::WriteFault,
        Err(Untold::NoMemory) => Status::NoMemory,
    }
}
