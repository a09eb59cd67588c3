//! Values: why a call that takes memory gave no value.

use crate::memory::NoMemory;
use std::alloc::{AllocError, AllocFailed};

/// Why a call that takes memory gave no value: by its own reason, or since the allocator refused.
#[derive(Clone, Copy, Debug, PartialEq, Eq)]
pub enum Failure<E> {
    Why(E),
    NoMemory,
}

impl<E> From<NoMemory> for Failure<E> {
    ghost use Rattle.std.specs.Prelude.{◌≡◌};
    ghost use Rattle.kw_bits.specs.declared.failure.Failure.TheVariants as failures;

    ghost from_gives = { λ _ failure. failure ≡ failures.NoMemory };

    fn from(_: NoMemory) -> Failure<E> {
        Failure::NoMemory
    }
}

impl<E> From<AllocError> for Failure<E> {
    ghost use Rattle.std.specs.Prelude.{◌≡◌};
    ghost use Rattle.kw_bits.specs.declared.failure.Failure.TheVariants as failures;

    ghost from_gives = { λ _ failure. failure ≡ failures.NoMemory };

    fn from(_: AllocError) -> Failure<E> {
        Failure::NoMemory
    }
}

impl<E, T: Drop> From<AllocFailed<T>> for Failure<E> {
    ghost use Rattle.std.specs.Prelude.{◌≡◌};
    ghost use Rattle.kw_bits.specs.declared.failure.Failure.TheVariants as failures;

    ghost from_gives = { λ _ failure. failure ≡ failures.NoMemory };

    fn from(_: AllocFailed<T>) -> Failure<E> {
        Failure::NoMemory
    }
}
