//! Designs: the circuit of BTOR2 lines that are printed and read again.

ghost use Rattle.std.specs.Prelude.{◌≡◌, ◌<◌, ◌^◌, IfOk, Ok, length};
ghost use Rattle.kw_base.specs.Fault.{IfFault};
ghost use Rattle.btor2_text.specs.Printable.{numbered_from};
ghost use Rattle.btor2_model.specs.Acceptance.{IsAccepted};
ghost use Rattle.btor2_model.specs.Rules.{is_input, is_state};
ghost use Rattle.btor2_model.specs.Run.{lines_by_rule};
ghost use Rattle.btor2_net.specs.Translations.{HasLines, RunsAs};

use btor2_model::accept;
use btor2_net::to_circuit;
use btor2_text::{Lines, print_lines, read_lines};
use circuit_eval::Circuit;
use kw_base::Refusal;
use kw_bits::NoMemory;
use std::alloc::Global;

/// The circuit of lines that are printed and read again.
pub(crate) fn read_again(alloc: Global, lines: &Lines) -> Result<Circuit, NoMemory>
    requires accepted { IsAccepted lines.now }
    requires numbers { numbered_from 1 lines.now ≡ lines.now }
    requires inputs { length (lines_by_rule is_input lines.now) < 2 ^ 32 }
    requires states { length (lines_by_rule is_state lines.now) < 2 ^ 32 }
    ensures lines { IfOk result (HasLines lines.now) }
    ensures run { IfOk result (RunsAs lines.now) }
{
    let printed = print_lines(alloc, lines)?;
    let read = unrefused(read_lines(alloc, printed.as_slice()))?;
    let text = unrefused(accept(alloc, read))?;
    to_circuit(alloc, &text)
}

// What is read where there is no fault.
fn unrefused<T: Drop>(read: Result<T, Refusal>) -> Result<T, NoMemory>
    requires { IfFault read (λ fault. ⊥) }
    ensures { IfOk result (λ value. read ≡ Ok value) }
{
    match read {
        Ok(value) => Ok(value),
        Err(Refusal::Fault(_)) => unreachable!(),
        Err(Refusal::NoMemory) => Err(NoMemory),
    }
}
