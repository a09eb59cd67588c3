//! Circuits: the refusal of a line.

ghost use Rattle.std.specs.Prelude.{◌≡◌};
ghost use Rattle.kw_base.specs.declared.fault.Refusal.TheVariants as refusals;
ghost use Rattle.btor2_model.specs.Acceptance.{fault_in};

use btor2_text::Line;
use kw_base::{Fault, Place, Refusal};

/// The refusal of a line by the fault of a number.
pub(crate) fn refusal_at(number: u32, line: &Line) -> Refusal
    ensures { result ≡ refusals.Fault (fault_in line.now number) }
{
    let place = Place {
        line: line.number,
        column: 1,
    };
    Refusal::Fault(Fault::new(number, place))
}
