//! Checker: the numbers of names.

ghost use Rattle.std.specs.Prelude.{◌≡◌, ◌<◌, IfOk};
ghost use Rattle.kw_base.specs.declared.fault_number.TheConstants.{UNKNOWN_NAME};
ghost use Rattle.koika_check.specs.inner.Checking.{IsChecker, count_of};
ghost use Rattle.koika_check.specs.Kinds.{number_named};
ghost use Rattle.koika_check.specs.Outcomes.{found, wrong};
ghost use Rattle.koika_check.specs.inner.Outcomes.{Tells};
ghost use Rattle.kw_bits.specs.declared.failure.Failure.TheVariants as failures;

use crate::checker::Checker;
use crate::stop::{Stop, stop_at};
use crate::things::{Kind, number_if};
use koika_syntax::Name;
use kw_base::fault_number;

impl Checker {
    /// The number of what is declared of a kind by this name.
    pub(crate) fn number_named(&self, kind: Kind, name: &Name) -> Result<u32, Stop>
        requires { IsChecker self.now }
        ensures found { Tells (λ number of. number ≡ of) (found (number_named kind self.now.design name.now.text) (wrong UNKNOWN_NAME name.now.place)) result }
        ensures declared { IfOk result (λ number. number < count_of kind self.now.design) }
    {
        match number_if(kind, self.things.named(name.text.as_slice())) {
            Some(number) => Ok(number),
            None => Err(unknown(name)),
        }
    }
}

/// The fault of a name that names nothing of the wanted kind.
pub(crate) fn unknown(name: &Name) -> Stop
    ensures { result ≡ failures.Why (wrong UNKNOWN_NAME name.now.place) }
{
    stop_at(fault_number::UNKNOWN_NAME, name.place)
}
