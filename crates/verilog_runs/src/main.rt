//! Runs modules of Verilog from their bytes, plainly and slowly, by the rules of IEEE 1364-2005. It reads the modules
//! that `verilog` writes, and some that are wrong in a way that changes a run.
//!
//! A case on standard input is a module, a line `%%` and a line for each cycle with the values of inputs; a line `====`
//! ends it. Remarks are written as they are, then a row for each cycle, in a report's form: the outputs that are 1 in
//! the cycle, and the registers after the edge that ends it. A signal that has no value is `x`.
//!
//! It shares nothing with `verilog_text`: neither definitions nor code. The merge gate compares what it writes with
//! `stdout`, whose rows other programs have too (`bench/verilog.sh --part plain`).
#![tactic(auto)]

mod expression;
mod module;
mod operators;
mod run;
mod signals;
mod value;

use crate::module::Module;
use crate::run::run_module;
use std::io;

fn main(rt: HostRuntime) -> io::Result<()> {
    let mut case = String::new(rt.alloc());
    for line in rt.lines(rt.alloc()) {
        let line = line?;
        if line.as_str() == "====" {
            run_case(&rt, case.as_str())?;
            case = String::new(rt.alloc());
        } else {
            case.push_str(line.as_str())?;
            case.push_str("\n")?;
        }
    }
    Ok(())
}

// Writes the remarks of a case and the rows of its module.
fn run_case(rt: &HostRuntime, case: &str) -> io::Result<()> {
    let (text, stimulus) = case.split_once("%%\n").unwrap_or((case, ""));
    for line in text.lines() {
        if line.starts_with("//") {
            println!(rt; "{line}")?;
        }
    }
    match Module::read(rt.alloc(), text)? {
        Some(module) => run_module(rt, module, stimulus),
        None => println!(rt; "no module"),
    }
}
