//! Checker: adds a declaration to the tables of what is declared.

ghost use Rattle.std.specs.Prelude.{◌≡◌, ◌<◌, ◌^◌, ◌++◌, ◌∷◌, [], None, OnOk, IfOk};
ghost use Rattle.kw_bits.specs.Host.{TakesWidth};
ghost use Rattle.koika_check.specs.inner.Checking.{IsSignature, IsWidth, Stands};
ghost use Rattle.koika_check.specs.inner.Settled.{IsSettled};
ghost use Rattle.koika_check.specs.inner.Things.{thing_named};

use crate::checked::{CheckedFunction, CheckedRule, Host, Input, Register, Table};
use crate::checker::{Checker, Signature};
use crate::shapes::Shape;
use crate::things::{Kind, Thing};
use koika_syntax::Name;
use kw_bits::NoMemory;

impl Checker {
    /// Declares a register of a type.
    pub(crate) fn add_register(
        &mut self,
        name: &Name,
        register: Register,
        shape: Shape,
    ) -> Result<(), NoMemory>
        requires settled { IsSettled self.old }
        requires new { thing_named self.old.things name.now.text ≡ None }
        requires name { register.name ≡ name.now.text }
        requires stands { Stands self.old shape register.of }
        ensures kept { OnOk result (IsSettled self.new) }
        ensures design { OnOk result (self.new.design ≡ record self.old.design { registers = self.old.design.registers ++ register ∷ [] }) }
        ensures hosts { OnOk result (self.new.hosts ≡ self.old.hosts) }
    {
        let number = next_number(self.design.registers.len())?;
        self.design.registers.push(register)?;
        self.registers.push(shape)?;
        self.things.declare(
            name.text.as_slice(),
            Thing {
                kind: Kind::Register,
                number,
            },
        )?;
        Ok(())
    }

    /// Declares an input of a type.
    pub(crate) fn add_input(
        &mut self,
        name: &Name,
        input: Input,
        shape: Shape,
    ) -> Result<(), NoMemory>
        requires settled { IsSettled self.old }
        requires new { thing_named self.old.things name.now.text ≡ None }
        requires name { input.name ≡ name.now.text }
        requires stands { Stands self.old shape input.of }
        ensures kept { OnOk result (IsSettled self.new) }
        ensures design { OnOk result (self.new.design ≡ record self.old.design { inputs = self.old.design.inputs ++ input ∷ [] }) }
        ensures hosts { OnOk result (self.new.hosts ≡ self.old.hosts) }
    {
        let number = next_number(self.design.inputs.len())?;
        self.design.inputs.push(input)?;
        self.inputs.push(shape)?;
        self.things.declare(
            name.text.as_slice(),
            Thing {
                kind: Kind::Input,
                number,
            },
        )?;
        Ok(())
    }

    /// Declares a table.
    pub(crate) fn add_table(&mut self, name: &Name, table: Table) -> Result<(), NoMemory>
        requires settled { IsSettled self.old }
        requires new { thing_named self.old.things name.now.text ≡ None }
        requires name { table.name ≡ name.now.text }
        requires widths { IsWidth table.spec.in_width × IsWidth table.spec.out_width }
        ensures kept { OnOk result (IsSettled self.new) }
        ensures design { OnOk result (self.new.design ≡ record self.old.design { tables = self.old.design.tables ++ table ∷ [] }) }
        ensures hosts { OnOk result (self.new.hosts ≡ self.old.hosts) }
    {
        let number = next_number(self.design.tables.len())?;
        self.design.tables.push(table)?;
        self.things.declare(
            name.text.as_slice(),
            Thing {
                kind: Kind::Table,
                number,
            },
        )?;
        Ok(())
    }

    /// Declares a host function.
    pub(crate) fn add_host(&mut self, name: &Name, host: Host) -> Result<(), NoMemory>
        requires settled { IsSettled self.old }
        requires new { thing_named self.old.things name.now.text ≡ None }
        requires name { host.name ≡ name.now.text }
        requires width { TakesWidth host.spec.kind host.spec.in_width }
        ensures kept { OnOk result (IsSettled self.new) }
        ensures design { OnOk result (self.new.design ≡ record self.old.design { hosts = self.old.design.hosts ++ host ∷ [] }) }
        ensures hosts { OnOk result (self.new.hosts ≡ self.old.hosts) }
    {
        let number = next_number(self.design.hosts.len())?;
        self.design.hosts.push(host)?;
        self.things.declare(
            name.text.as_slice(),
            Thing {
                kind: Kind::Host,
                number,
            },
        )?;
        Ok(())
    }

    /// Declares a function.
    pub(crate) fn add_function(
        &mut self,
        name: &Name,
        function: CheckedFunction,
        signature: Signature,
    ) -> Result<(), NoMemory>
        requires settled { IsSettled self.old }
        requires new { thing_named self.old.things name.now.text ≡ None }
        requires name { function.name ≡ name.now.text }
        requires signature { IsSignature self.old signature function }
        ensures kept { OnOk result (IsSettled self.new) }
        ensures design { OnOk result (self.new.design ≡ record self.old.design { functions = self.old.design.functions ++ function ∷ [] }) }
        ensures hosts { OnOk result (self.new.hosts ≡ self.old.hosts) }
    {
        let number = next_number(self.design.functions.len())?;
        self.design.functions.push(function)?;
        self.functions.push(signature)?;
        self.things.declare(
            name.text.as_slice(),
            Thing {
                kind: Kind::Function,
                number,
            },
        )?;
        Ok(())
    }

    /// Declares a rule.
    pub(crate) fn add_rule(&mut self, name: &Name, rule: CheckedRule) -> Result<(), NoMemory>
        requires settled { IsSettled self.old }
        requires new { thing_named self.old.things name.now.text ≡ None }
        requires name { rule.name ≡ name.now.text }
        ensures kept { OnOk result (IsSettled self.new) }
        ensures design { OnOk result (self.new.design ≡ record self.old.design { rules = self.old.design.rules ++ rule ∷ [] }) }
        ensures hosts { OnOk result (self.new.hosts ≡ self.old.hosts) }
    {
        let number = next_number(self.design.rules.len())?;
        self.design.rules.push(rule)?;
        self.asserted.push(false)?;
        self.things.declare(
            name.text.as_slice(),
            Thing {
                kind: Kind::Rule,
                number,
            },
        )?;
        Ok(())
    }
}

/// The number after that many. Numbers run out as memory does.
pub(crate) fn next_number(count: usize) -> Result<u32, NoMemory>
    ensures number { IfOk result (λ number. number ≡ count) }
    ensures small { IfOk result (λ number. number < 2 ^ 32) }
{
    if count > u32::MAX as usize {
        return Err(NoMemory);
    }
    Ok(count as u32)
}
