//! Lowering: registers, inputs, tables and host functions.

ghost use Rattle.std.specs.Prelude.{◌≡◌, map, IfOk};
ghost use Rattle.koika_check.specs.Typing.{IsRegister, IsTypedDesign};
ghost use Rattle.koika_check.specs.declared.checked.Checked.{Checked as CheckedDesign};
ghost use Rattle.koika_check.specs.declared.checked.Host.{Host as CheckedHost};
ghost use Rattle.koika_check.specs.declared.checked.Table.{Table as CheckedTable};
ghost use Rattle.koika_lower.specs.Lowering.{core_input, register_of};
ghost use Rattle.koika_types.specs.Values.{packed};

use crate::packing::bits_of;
use koika_check::{Checked, Host, Input, Register, Table};
use kw_bits::{Bits, NoMemory, Sequence, Text};
use std::alloc::Global;
use typed_core::{HostSpec, InputDecl, RegDecl, TableSpec};

/// The registers of a well typed design, whose first values are packed.
pub(crate) fn lower_registers(
    alloc: Global,
    checked: &Checked,
) -> Result<Sequence<RegDecl>, NoMemory>
    requires { IsTypedDesign checked.now }
    ensures { IfOk result (λ all. all ≡ map register_of checked.now.registers) }
{
    let mut all = Sequence::new(alloc);
    let registers = checked.registers.as_slice();
    for register in registers {
        all.push(RegDecl {
            name: Text::from_slice(alloc, register.name.as_slice())?,
            width: register.width,
            first: first_bits(register),
        })?;
    }
    Ok(all)
}

// The bits of a register's first value.
fn first_bits(register: &Register) -> Bits
    requires { (d : CheckedDesign) × IsTypedDesign d × IsRegister d register.now }
    ensures { result ≡ packed register.now.first }
{
    match bits_of(&register.first) {
        Some(bits) => bits,
        None => unreachable!(),
    }
}

/// The inputs.
pub(crate) fn lower_inputs(alloc: Global, inputs: &[Input]) -> Result<Sequence<InputDecl>, NoMemory>
    ensures { IfOk result (λ all. all ≡ map core_input inputs.now) }
{
    let mut all = Sequence::new(alloc);
    for input in inputs {
        all.push(InputDecl {
            name: Text::from_slice(alloc, input.name.as_slice())?,
            width: input.width,
        })?;
    }
    Ok(all)
}

/// The tables.
pub(crate) fn lower_tables(alloc: Global, tables: &[Table]) -> Result<Sequence<TableSpec>, NoMemory>
    ensures { IfOk result (λ all. all ≡ map (λ (t : CheckedTable). t.spec) tables.now) }
{
    let mut all = Sequence::new(alloc);
    for table in tables {
        all.push(TableSpec {
            in_width: table.spec.in_width,
            out_width: table.spec.out_width,
            entries: Sequence::from_slice(alloc, table.spec.entries.as_slice())?,
        })?;
    }
    Ok(all)
}

/// The host functions.
pub(crate) fn lower_hosts(alloc: Global, hosts: &[Host]) -> Result<Sequence<HostSpec>, NoMemory>
    ensures { IfOk result (λ all. all ≡ map (λ (h : CheckedHost). h.spec) hosts.now) }
{
    let mut all = Sequence::new(alloc);
    for host in hosts {
        all.push(host.spec)?;
    }
    Ok(all)
}
