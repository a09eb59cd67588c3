//! Checker: declarations.

ghost use Rattle.std.specs.Prelude.{◌≡◌, ◌++◌, ◌∷◌, ◌^◌, [], nat_eq, map, None, IfOk, OnOk};
ghost use Rattle.std.specs.List.{find};
ghost use Rattle.kw_base.specs.declared.fault_number.TheConstants.{REPEATED_NAME, UNKNOWN_HOST_FUNCTION};
ghost use Rattle.koika_check.specs.inner.Checking.{IsChecker};
ghost use Rattle.koika_check.specs.Declarations as declarations;
ghost use Rattle.koika_check.specs.Outcomes.{found, smallest, wrong};
ghost use Rattle.koika_check.specs.inner.Outcomes.{Answers};
ghost use Rattle.koika_check.specs.inner.Settled.{IsSettled};
ghost use Rattle.koika_check.specs.inner.Things.{thing_named};
ghost use Rattle.koika_check.specs.Types as types;
ghost use Rattle.kw_bits.specs.declared.failure.Failure.TheVariants as failures;

use crate::agreement::agrees;
use crate::checked::{Host, Input, Register, Table};
use crate::checker::Checker;
use crate::stop::{Stop, Wrong, least, refuse, stop_at, unless};
use crate::things::Kind;
use crate::types::is_width;
use koika_syntax::{Constant, Literal, Name, TypeExpression, Width};
use kw_base::fault_number;
use kw_bits::{Bits, HostKind, NoMemory, Sequence, Text};
use std::alloc::Global;
use typed_core::limits::MAX_TABLE_IN_WIDTH;
use typed_core::{HostSpec, TableSpec};

impl Checker {
    /// Goes on where the name isn't declared yet.
    pub(crate) fn is_new(&self, name: &Name) -> Result<(), Stop>
        requires { IsChecker self.now }
        ensures { Answers (λ _ found. (found ≡ name.now.text) × (thing_named self.now.things name.now.text ≡ None)) (declarations.new_name self.now.design name.now) result }
    {
        match self.things.named(name.text.as_slice()) {
            Some(_) => Err(repeated(name)),
            None => Ok(()),
        }
    }

    /// `reg`.
    pub(crate) fn register(
        &mut self,
        name: &Name,
        of: &TypeExpression,
        first: &Constant,
    ) -> Result<(), Stop>
        requires { IsSettled self.old }
        ensures kept { OnOk result (IsSettled self.new) }
        ensures hosts { OnOk result (self.new.hosts ≡ self.old.hosts) }
        ensures answers { Answers (λ _ x. self.new.design ≡ record self.old.design { registers = self.old.design.registers ++ x ∷ [] }) (declarations.register_with self.old.design name.now of.now first.now) result }
    {
        self.is_new(name)?;
        let of = self.named_type(of)?;
        let known = self.constant(first)?;
        refuse(agrees(Some(of.shape), known.part))?;
        let width = self.width(of.shape);
        let text = Text::from_slice(self.alloc, name.text.as_slice())?;
        let declared = Register {
            name: text,
            of: of.of,
            width,
            first: known.value,
        };
        self.add_register(name, declared, of.shape)?;
        Ok(())
    }

    /// `input`.
    pub(crate) fn input(&mut self, name: &Name, of: &TypeExpression) -> Result<(), Stop>
        requires { IsSettled self.old }
        ensures kept { OnOk result (IsSettled self.new) }
        ensures hosts { OnOk result (self.new.hosts ≡ self.old.hosts) }
        ensures answers { Answers (λ _ x. self.new.design ≡ record self.old.design { inputs = self.old.design.inputs ++ x ∷ [] }) (declarations.input_with self.old.design name.now of.now) result }
    {
        self.is_new(name)?;
        let of = self.named_type(of)?;
        let width = self.width(of.shape);
        let text = Text::from_slice(self.alloc, name.text.as_slice())?;
        let declared = Input {
            name: text,
            of: of.of,
            width,
        };
        self.add_input(name, declared, of.shape)?;
        Ok(())
    }

    /// `table`.
    pub(crate) fn table(
        &mut self,
        name: &Name,
        input: Width,
        output: Width,
        entries: &[Literal],
    ) -> Result<(), Stop>
        requires { IsSettled self.old }
        ensures kept { OnOk result (IsSettled self.new) }
        ensures hosts { OnOk result (self.new.hosts ≡ self.old.hosts) }
        ensures answers { Answers (λ _ x. self.new.design ≡ record self.old.design { tables = self.old.design.tables ++ x ∷ [] }) (declarations.table_with self.old.design name.now input output entries.now) result }
    {
        self.is_new(name)?;
        refuse(table_wrong(name, input, output, entries))?;
        let kept = bits_of(self.alloc, entries)?;
        let text = Text::from_slice(self.alloc, name.text.as_slice())?;
        let declared = Table {
            name: text,
            spec: TableSpec {
                in_width: input.number.value,
                out_width: output.number.value,
                entries: kept,
            },
        };
        self.add_table(name, declared)?;
        Ok(())
    }

    /// `host`.
    pub(crate) fn host(&mut self, name: &Name, input: Width, output: Width) -> Result<(), Stop>
        requires { IsSettled self.old }
        ensures kept { OnOk result (IsSettled self.new) }
        ensures hosts { OnOk result (self.new.hosts ≡ self.old.hosts) }
        ensures answers { Answers (λ _ x. self.new.design ≡ record self.old.design { hosts = self.old.design.hosts ++ x ∷ [] }) (declarations.host_with self.old.hosts self.old.design name.now input output) result }
    {
        self.is_new(name)?;
        let spec = wanted_host(self.hosts.as_slice(), name, input, output)?;
        let text = Text::from_slice(self.alloc, name.text.as_slice())?;
        self.add_host(name, Host { name: text, spec })?;
        Ok(())
    }

    /// `assert`.
    pub(crate) fn assertion(&mut self, name: &Name) -> Result<(), Stop>
        requires { IsSettled self.old }
        ensures kept { OnOk result (IsSettled self.new) }
        ensures hosts { OnOk result (self.new.hosts ≡ self.old.hosts) }
        ensures answers { Answers (λ _ x. self.new.design ≡ record self.old.design { asserts = self.old.design.asserts ++ x ∷ [] }) (declarations.assert_with self.old.design name.now) result }
    {
        let rule = self.number_named(Kind::Rule, name)?;
        if self.asserted[rule as usize] {
            return Err(repeated(name));
        }
        self.asserted.set(rule as usize, true);
        self.design.asserts.push(rule)?;
        Ok(())
    }
}

/// The fault of a name that is declared already.
pub(crate) fn repeated(name: &Name) -> Stop
    ensures { result ≡ failures.Why (wrong REPEATED_NAME name.now.place) }
{
    stop_at(fault_number::REPEATED_NAME, name.place)
}

// What is wrong with the widths of a table and its entries.
fn table_wrong(name: &Name, input: Width, output: Width, entries: &[Literal]) -> Option<Wrong>
    ensures { result ≡ smallest (declarations.table_conditions name.now input output entries.now) }
{
    let in_width = input.number.value;
    let out_width = output.number.value;
    let ins = unless(
        1 <= in_width && in_width <= MAX_TABLE_IN_WIDTH,
        fault_number::WRONG_WIDTH,
        input.place,
    );
    let outs = unless(is_width(out_width), fault_number::WRONG_WIDTH, output.place);
    let count = unless(
        is_power(entries.len(), in_width),
        fault_number::WRONG_ENTRY_COUNT,
        name.place,
    );
    least(
        ins,
        least(outs, least(have_width(entries, out_width), count)),
    )
}

// What is wrong with the first entry that isn't of this width.
fn have_width(entries: &[Literal], width: u32) -> Option<Wrong>
    ensures { result ≡ types.each (declarations.has_width width) entries.now }
{
    for entry in entries {
        let wrong = has_width(*entry, width);
        if wrong.is_some() {
            return wrong;
        }
    }
    None
}

/// What is wrong with a literal that isn't of this width.
pub(crate) fn has_width(literal: Literal, width: u32) -> Option<Wrong>
    ensures { result ≡ declarations.has_width width literal }
{
    unless(
        literal.bits.width() == width,
        fault_number::WRONG_WIDTH,
        literal.place,
    )
}

// Whether there are as many as inputs of this width.
fn is_power(count: usize, width: u32) -> bool
    ensures { result ≡ nat_eq count (2 ^ width) }
{
    if width < 64 {
        count == 1 << width
    } else {
        false
    }
}

// The bits of literals, in order.
fn bits_of(alloc: Global, literals: &[Literal]) -> Result<Sequence<Bits>, NoMemory>
    ensures { IfOk result (λ bits. bits ≡ map (λ (l : Literal). l.bits) literals.now) }
{
    let mut bits = Sequence::new(alloc);
    for literal in literals {
        bits.push(literal.bits)?;
    }
    Ok(bits)
}

// The first host function of this name and these widths.
fn wanted_host(
    hosts: &[HostSpec],
    name: &Name,
    input: Width,
    output: Width,
) -> Result<HostSpec, Stop>
    ensures { Answers (λ spec of. of ≡ spec) (found (find (declarations.is_host name.now.text input.number.value output.number.value) hosts.now) (wrong UNKNOWN_HOST_FUNCTION name.now.place)) result }
{
    for host in hosts {
        if is_host(*host, name, input.number.value, output.number.value) {
            return Ok(*host);
        }
    }
    Err(stop_at(fault_number::UNKNOWN_HOST_FUNCTION, name.place))
}

// Whether a host function has this name and these widths.
fn is_host(host: HostSpec, name: &Name, input: u32, output: u32) -> bool
    ensures { result ≡ declarations.is_host name.now.text input output host }
{
    name.text.as_slice() == name_of_kind(host.kind)
        && host.in_width == input
        && host.kind.out_width(host.in_width) == output
}

// The name that designs call a host function by.
fn name_of_kind(kind: HostKind) -> &'static [u8]
    ensures { result.now ≡ declarations.name_of_kind kind }
{
    match kind {
        HostKind::Popcount => b"popcount",
        HostKind::Parity => b"parity",
        HostKind::Reverse => b"reverse",
        HostKind::LeadingZeros => b"clz",
        HostKind::Gray => b"gray",
        HostKind::Hamming => b"hamming",
        HostKind::Morton => b"morton",
        HostKind::SatAdd => b"satadd",
    }
}
