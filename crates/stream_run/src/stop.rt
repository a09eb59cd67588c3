//! Sessions: why a part of a session ends early.

ghost use Rattle.std.specs.Prelude.{◌≡◌};
ghost use Rattle.stream_run.specs.declared.stop.Stop.TheVariants.{ReadFault, WriteFault, NoMemory as WantOfMemory};

use front_end::Untold;
use kw_base::{Fault, Refusal};
use kw_bits::NoMemory;
use std::alloc::AllocError;

/// Why a part of a session ends early.
#[derive(Clone, Copy, Debug, PartialEq, Eq)]
pub(crate) enum Stop {
    /// The source has a fault.
    Fault(Fault),
    /// Reading failed.
    ReadFault,
    /// Writing failed.
    WriteFault,
    /// The allocator refused.
    NoMemory,
}

impl From<NoMemory> for Stop {
    ghost from_gives = { λ _ stop. stop ≡ WantOfMemory };

    fn from(_: NoMemory) -> Stop {
        Stop::NoMemory
    }
}

impl From<AllocError> for Stop {
    ghost from_gives = { λ _ stop. stop ≡ WantOfMemory };

    fn from(_: AllocError) -> Stop {
        Stop::NoMemory
    }
}

impl From<kw_io::Failed> for Stop {
    ghost from_gives = { λ _ stop. stop ≡ ReadFault };

    fn from(_: kw_io::Failed) -> Stop {
        Stop::ReadFault
    }
}

impl From<Refusal> for Stop {
    ghost use Rattle.stream_run.specs.inner.Stops.{stop_by_refusal};

    ghost from_gives = { λ refusal stop. stop ≡ stop_by_refusal refusal };

    fn from(refusal: Refusal) -> Stop {
        match refusal {
            Refusal::Fault(fault) => Stop::Fault(fault),
            Refusal::NoMemory => Stop::NoMemory,
        }
    }
}

impl From<Untold> for Stop {
    ghost use Rattle.stream_run.specs.inner.Stops.{stop_by_untold};

    ghost from_gives = { λ untold stop. stop ≡ stop_by_untold untold };

    fn from(untold: Untold) -> Stop {
        match untold {
            Untold::WriteFault => Stop::WriteFault,
            Untold::NoMemory => Stop::NoMemory,
        }
    }
}
