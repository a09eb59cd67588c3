//! Checker: why checking ends.

ghost use Rattle.std.specs.Prelude.{◌≡◌};
ghost use Rattle.koika_check.specs.Outcomes.{holds, smaller, wrong};
ghost use Rattle.koika_check.specs.inner.Outcomes.{Passes};
ghost use Rattle.kw_bits.specs.declared.failure.Failure.TheVariants as failures;

use kw_bits::Failure;

/// What is wrong: the number of the fault and the offset of the byte where it stands.
#[derive(Clone, Copy, Debug, PartialEq, Eq)]
pub struct Wrong {
    pub number: u32,
    pub place: u32,
}

impl Wrong {
    pub(crate) fn new(number: u32, place: u32) -> Wrong
        ensures { result ≡ wrong number place }
    {
        Wrong { number, place }
    }
}

/// Why checking ends: what is wrong, or no memory.
pub(crate) type Stop = Failure<Wrong>;

/// Checking ends with the fault of this number at this place.
pub(crate) fn stop_at(number: u32, place: u32) -> Stop
    ensures { result ≡ failures.Why (wrong number place) }
{
    Failure::Why(Wrong { number, place })
}

/// Of the faults of two conditions the one with the smaller number, or the first where both have one number.
pub(crate) fn least(first: Option<Wrong>, second: Option<Wrong>) -> Option<Wrong>
    ensures { result ≡ smaller first second }
{
    match (first, second) {
        (Some(one), Some(other)) => {
            if other.number < one.number {
                Some(other)
            } else {
                Some(one)
            }
        }
        (None, other) => other,
        (one, None) => one,
    }
}

/// The fault of a condition that doesn't hold.
pub(crate) fn unless(test: bool, number: u32, place: u32) -> Option<Wrong>
    ensures { result ≡ holds test (wrong number place) }
{
    if test {
        None
    } else {
        Some(Wrong { number, place })
    }
}

/// Goes on where there is no fault.
pub(crate) fn refuse(fault: Option<Wrong>) -> Result<(), Stop>
    ensures { Passes fault result }
{
    match fault {
        Some(fault) => Err(Failure::Why(fault)),
        None => Ok(()),
    }
}
