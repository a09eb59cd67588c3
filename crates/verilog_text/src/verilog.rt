//! Verilog: the text of a circuit.

ghost use Rattle.std.specs.Prelude.{◌^◌, ◌<◌, IfOk, length};
ghost use Rattle.verilog_text.specs.Translations.{HasFlags, IsTextOf};

use crate::draft::draft_of;
use crate::lines::text_of;
use crate::module::Module;
use crate::parts::module_with;
use circuit_eval::Circuit;
use kw_bits::{NoMemory, Text};
use std::alloc::Global;

/// What a module has beside the circuit's inputs and outputs.
#[derive(Clone, Copy, Debug)]
pub struct Options {
    /// An input that gives the registers their first values.
    pub reset: bool,
    /// The registers as outputs.
    pub registers: bool,
}

/// The Verilog text of a circuit whose outputs have one bit each: that of a legal module with the circuit's run.
pub fn module_text(alloc: Global, circuit: &Circuit, options: Options) -> Result<Text, NoMemory>
    requires { HasFlags circuit.now }
    ensures { IfOk result (IsTextOf circuit.now options) }
{
    let draft = draft_of(alloc, &circuit.net)?;
    let made = module_with(alloc, circuit, draft, options)?;
    has_few_wires(&made);
    let text = text_of(alloc, &made)?;
    Ok(text)
}

// What is in memory has fewer wires than 2^64. It computes nothing that is used.
fn has_few_wires(made: &Module)
    ensures { length made.now.wires < 2 ^ 64 }
{
    let _count = made.wires.len();
}
