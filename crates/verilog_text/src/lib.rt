//! Verilog: the module of a circuit, for synthesis and for other simulators (IEEE 1364-2005).
//!
//! `specs/Texts.antt` says which text a module has, `specs/Modules.antt` which modules are legal, `specs/Runs.antt`
//! what their run is by the standard, and `specs/Translations.antt` when a text is that of a circuit. `specs/Laws.antt`
//! has what holds of every module. Whoever writes a design as Verilog calls `module_text` for its circuit.
#![tactic(auto)]

mod draft;
mod laws;
mod lines;
mod module;
mod names;
mod nodes;
mod parts;
mod signs;
mod text;
mod verilog;
mod words;

pub use laws::{a_reset_leaves_the_first_values, texts_have_one_module};
pub use module::{Form, Infix, Module, Operand, Output, Port, Prefix, Register, Wire};
pub use verilog::{Options, module_text};
