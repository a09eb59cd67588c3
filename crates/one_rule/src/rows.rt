//! Engines: registers, inputs, fired flags and the rows of a run.

ghost use Rattle.std.specs.Prelude.{◌≡◌, IfOk, false, length, replicate};
ghost use Rattle.one_rule.specs.Rows.{RowFits};
ghost use Rattle.one_rule.specs.Run.{first_values, opening};
ghost use Rattle.typed_core.specs.Widths.{HaveWidths, register_widths};

use kw_bits::{Bits, NoMemory, Sequence};
use std::alloc::Global;
use typed_core::Design;

/// One value for each register.
pub type Regs = Sequence<Bits>;

/// One value for each input.
pub type Inputs = Sequence<Bits>;

/// One flag for each rule: whether it fired.
pub type FiredSet = Sequence<bool>;

/// The registers after a cycle and the rules that fired in it.
#[derive(Debug, Drop)]
pub struct Row {
    pub regs: Regs,
    pub fired: FiredSet,
}

/// The rows of a run, the first with the opening registers and no rule that fired.
pub type Rows = Sequence<Row>;

/// The first value of each register.
pub fn first_values(alloc: Global, design: &Design) -> Result<Regs, NoMemory>
    ensures values { IfOk result (λ regs. regs ≡ first_values design.now) }
    ensures fit { IfOk result (λ regs. HaveWidths (register_widths design.now) regs) }
{
    let mut regs = Regs::new(alloc);
    for decl in design.regs.as_slice() {
        regs.push(decl.first)?;
    }
    Ok(regs)
}

/// The row that a run begins with: these registers, and no rule that fired.
pub fn opening(alloc: Global, design: &Design, regs: Regs) -> Result<Row, NoMemory>
    requires { HaveWidths (register_widths design.now) regs }
    ensures row { IfOk result (λ row. row ≡ opening (length design.now.rules) regs) }
    ensures fits { IfOk result (λ row. RowFits design.now row) }
{
    Ok(Row {
        regs,
        fired: no_flags(alloc, design.rules.len())?,
    })
}

fn no_flags(alloc: Global, rules: usize) -> Result<FiredSet, NoMemory>
    ensures { IfOk result (λ fired. fired ≡ replicate rules false) }
{
    let mut fired = FiredSet::new(alloc);
    for _rule in 0..rules {
        fired.push(false)?;
    }
    Ok(fired)
}
