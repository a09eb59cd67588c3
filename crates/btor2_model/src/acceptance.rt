//! Circuits: which lines of BTOR2 are accepted as a circuit, and the first fault of the others.

ghost use Rattle.std.specs.Prelude.{◌≡◌, IfOk, OnOk, None, Some};
ghost use Rattle.kw_base.specs.Fault.{IfFault, IsOkUnlessNoMemory, IsFaultUnlessNoMemory};
ghost use Rattle.kw_base.specs.declared.fault.Fault.{Fault as FaultOf};
ghost use Rattle.btor2_text.specs.Printable.{ArePrintable};
ghost use Rattle.btor2_model.specs.Acceptance as acceptance;
ghost use Rattle.btor2_model.specs.inner.Known.{scope_of};
ghost use Rattle.btor2_model.specs.Scope as scope;

use crate::Btor;
use crate::known::Known;
use crate::refusal::refusal_at;
use btor2_text::{Line, Lines};
use kw_base::{Refusal, fault_number};
use std::alloc::Global;

/// The lines, if they are accepted. Otherwise the fault of the first line that isn't, of 51, 52, 53, 55, 57, 58 and 59
/// the smallest; and if there is none, 56 at the first state without a `next`.
pub fn accept(alloc: Global, lines: Lines) -> Result<Btor, Refusal>
    requires { ArePrintable lines }
    ensures lines { IfOk result (λ text. text ≡ lines) }
    ensures no_fault { OnOk result (acceptance.first_fault lines ≡ None) }
    ensures fault { IfFault result (λ fault. acceptance.first_fault lines ≡ Some fault) }

    // A text is accepted exactly where it has no fault, unless memory runs out.
    ensures accepted { acceptance.first_fault lines ≡ None → IsOkUnlessNoMemory result (λ text. text ≡ lines) }
    ensures refused { (fault : FaultOf) → acceptance.first_fault lines ≡ Some fault → IsFaultUnlessNoMemory result fault }
{
    let known = declared(alloc, lines.as_slice())?;
    no_state_lacks_next(&known, lines.as_slice())?;
    Ok(Btor::new(lines))
}

/// What lines declare, if none has a fault.
pub(crate) fn declared(alloc: Global, lines: &[Line]) -> Result<Known, Refusal>
    ensures accepted { OnOk result (acceptance.lines_fault scope.no_lines lines.now ≡ None) }
    ensures declared { IfOk result (λ known. scope_of known ≡ scope.behind_all scope.no_lines lines.now) }
    ensures fault { IfFault result (λ fault. acceptance.lines_fault scope.no_lines lines.now ≡ Some fault) }
{
    let mut known = Known::new(alloc, lines.len())?;
    for line in lines {
        known.add(line)?;
    }
    Ok(known)
}

// Refuses the first state without a `next`.
fn no_state_lacks_next(known: &Known, lines: &[Line]) -> Result<(), Refusal>
    ensures accepted { OnOk result (acceptance.states_fault (scope_of known.now) lines.now ≡ None) }
    ensures fault { IfFault result (λ fault. acceptance.states_fault (scope_of known.now) lines.now ≡ Some fault) }
{
    for line in lines {
        if known.lacks_next(line) {
            return Err(refusal_at(fault_number::STATE_WITHOUT_NEXT, line));
        }
    }
    Ok(())
}
