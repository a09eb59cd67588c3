//! Lowering: the core design of a typed design.

ghost use Rattle.std.specs.Prelude.{IfOk};
ghost use Rattle.koika_check.specs.Typing.{IsTypedDesign};
ghost use Rattle.koika_lower.specs.Lowering.{IsLowered};
ghost use Rattle.koika_lower.specs.inner.Rules.{AreRules};
ghost use Rattle.typed_core.specs.Valid.{IsValid};

use crate::declarations::{lower_hosts, lower_inputs, lower_registers, lower_tables};
use crate::expressions::{Lowering, lower_expression};
use koika_check::Checked;
use kw_bits::{NoMemory, Sequence, Text};
use std::alloc::Global;
use typed_core::{Design, Parts, Rule, Scope};

/// The design of the core that a well typed design is lowered to: functions are written in, values are packed, and each rule
/// does alone what it did. Time and memory grow as the design's weight does. The one error is `NoMemory`: memory ran out, or a
/// number is past 32 bits.
pub fn lower(alloc: Global, checked: &Checked) -> Result<Design, NoMemory>
    requires { IsTypedDesign checked.now }
    ensures { IfOk result (IsLowered checked.now) }
{
    let parts = lower_parts(alloc, checked)?;
    match Design::new(parts) {
        Some(design) => Ok(design),
        None => unreachable!(),
    }
}

// What the design is made of.
fn lower_parts(alloc: Global, checked: &Checked) -> Result<Parts, NoMemory>
    requires { IsTypedDesign checked.now }
    ensures lowered { IfOk result (IsLowered checked.now) }
    ensures valid { IfOk result IsValid }
{
    let rules = lower_rules(alloc, checked)?;
    let regs = lower_registers(alloc, checked)?;
    let inputs = lower_inputs(alloc, checked.inputs.as_slice())?;
    let tables = lower_tables(alloc, checked.tables.as_slice())?;
    let hosts = lower_hosts(alloc, checked.hosts.as_slice())?;
    let nodes = Sequence::from_slice(alloc, checked.nodes.as_slice())?;
    Ok(Parts {
        rules,
        regs,
        inputs,
        tables,
        hosts,
        nodes,
    })
}

// The rules, round whose bodies no name is bound and which may call all functions.
fn lower_rules(alloc: Global, checked: &Checked) -> Result<Sequence<Rule>, NoMemory>
    requires { IsTypedDesign checked.now }
    ensures { IfOk result (AreRules checked.now checked.now.rules) }
{
    let lowering = Lowering {
        alloc,
        design: checked,
        functions: checked.functions.len(),
    };
    let mut all = Sequence::new(alloc);
    let rules = checked.rules.as_slice();
    for rule in rules {
        let body = lower_expression(&lowering, &Scope::empty(), 0, &rule.body)?;
        all.push(Rule {
            name: Text::from_slice(alloc, rule.name.as_slice())?,
            body: body.action,
        })?;
    }
    Ok(all)
}
