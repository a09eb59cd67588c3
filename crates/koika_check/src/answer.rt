//! Checker: the typed tree of a tree, or its first fault.

ghost use Rattle.std.specs.Prelude.{◌≡◌, [], All, Contains, IfOk, OnOk, map};
ghost use Rattle.kw_base.specs.Fault.{IfFault, fault_at};
ghost use Rattle.kw_base.specs.Place.{place_at};
ghost use Rattle.kw_bits.specs.Host.{TakesWidth};
ghost use Rattle.koika_check.specs.Checks as checks;
ghost use Rattle.koika_check.specs.Declarations as declarations;
ghost use Rattle.host_fn.specs.Stored.{spec_of};
ghost use Rattle.koika_check.specs.Outcomes.{Fails, Gives, one_by_one};
ghost use Rattle.koika_check.specs.inner.Outcomes.{Answers};
ghost use Rattle.koika_check.specs.inner.Settled.{IsSettled};
ghost use Rattle.koika_check.specs.Typing.{IsTypedDesign};
ghost use Rattle.koika_check.specs.declared.checked.Host.{Host};
ghost use Rattle.koika_check.specs.declared.stop.Wrong.{Wrong as SpecWrong};
ghost use Rattle.koika_syntax.specs.Grammar.{IsDesign};
ghost use Rattle.kw_bits.specs.declared.host.HostSpec.{HostSpec as Spec};

use crate::checked::Checked;
use crate::checker::Checker;
use crate::limits::limits;
use crate::measure::measure_of;
use crate::schedule::nodes_of;
use crate::stop::{Stop, Wrong, refuse};
use host_fn::HostFn;
use koika_syntax::{Declaration, Tree};
use kw_base::{Fault, Refusal, place_of};
use kw_bits::{Failure, NoMemory, Sequence};
use std::alloc::Global;
use typed_core::HostSpec;

/// The typed tree of the tree of a text, given the host functions that are handed in, or its first fault: 20 to 29, and
/// then the limits 41, 42, 47, 43, 44 and 46.
pub fn check(alloc: Global, text: &[u8], tree: &Tree, hosts: &[HostFn]) -> Result<Checked, Refusal>
    requires { IsDesign tree.now }
    ensures gives { IfOk result (λ d. checks.checked (map spec_of hosts.now) tree.now ≡ Gives d) }
    ensures typed { IfOk result IsTypedDesign }
    ensures offered { IfOk result (λ d. All (λ (h : Host). Contains (map spec_of hosts.now) h.spec) d.hosts) }
    ensures fault { IfFault result (λ fault. (wrong : SpecWrong) × (checks.checked (map spec_of hosts.now) tree.now ≡ Fails wrong) × (fault ≡ fault_at wrong.number (place_at text.now wrong.place))) }
{
    match checked(alloc, text, tree, hosts) {
        Ok(design) => Ok(design),
        Err(Failure::Why(wrong)) => Err(Refusal::Fault(fault(text, wrong))),
        Err(Failure::NoMemory) => Err(Refusal::NoMemory),
    }
}

// The typed tree, or why there is none. The names are those of the text.
fn checked(alloc: Global, text: &[u8], tree: &Tree, hosts: &[HostFn]) -> Result<Checked, Stop>
    requires { IsDesign tree.now }
    ensures answers { Answers (λ design found. design ≡ found) (checks.checked (map spec_of hosts.now) tree.now) result }
    ensures typed { IfOk result IsTypedDesign }
    ensures offered { IfOk result (λ d. All (λ (h : Host). Contains (map spec_of hosts.now) h.spec) d.hosts) }
{
    let specs = specs_of(alloc, hosts)?;
    let mut checker = Checker::new(alloc, text, specs);
    checker.declarations(tree.declarations.as_slice())?;
    let nodes = nodes_of(&checker, &tree.scheduler)?;
    let mut design = checker.design;
    design.nodes = nodes;
    within_limits(alloc, tree, design)
}

// A design within the limits, with its weight.
fn within_limits(alloc: Global, tree: &Tree, mut design: Checked) -> Result<Checked, Stop>
    ensures { Answers (λ design found. design ≡ found) (checks.within_limits tree.now design) result }
{
    let measure = measure_of(alloc, &design)?;
    refuse(limits(tree, measure))?;
    design.weight = measure.weight;
    Ok(design)
}

impl Checker {
    // Adds declarations, each after those before it.
    fn declarations(&mut self, all: &[Declaration]) -> Result<(), Stop>
        requires { IsSettled self.old }
        ensures kept { OnOk result (IsSettled self.new) }
        ensures answers { Answers (λ _ found. self.new.design ≡ found) (one_by_one (declarations.declare self.old.hosts) all.now self.old.design) result }
    {
        for declaration in all {
            self.declaration(declaration)?;
        }
        Ok(())
    }

    // Adds a declaration.
    fn declaration(&mut self, of: &Declaration) -> Result<(), Stop>
        requires { IsSettled self.old }
        ensures kept { OnOk result (IsSettled self.new) }
        ensures hosts { OnOk result (self.new.hosts ≡ self.old.hosts) }
        ensures answers { Answers (λ _ found. self.new.design ≡ found) (declarations.declare self.old.hosts of.now self.old.design) result }
    {
        match of {
            Declaration::Enum {
                name,
                width,
                members,
            } => self.enumeration(name, *width, members.as_slice()),
            Declaration::Struct { name, fields } => self.structure_type(name, fields.as_slice()),
            Declaration::Register { name, of, first } => self.register(name, of, first),
            Declaration::Input { name, of } => self.input(name, of),
            Declaration::Table {
                name,
                input,
                output,
                entries,
            } => self.table(name, *input, *output, entries.as_slice()),
            Declaration::Host {
                name,
                input,
                output,
            } => self.host(name, *input, *output),
            Declaration::Function {
                name,
                parameters,
                result,
                body,
            } => self.function(name, parameters.as_slice(), result, body),
            Declaration::Rule { name, body } => self.rule(name, body),
            Declaration::Assert(rule) => self.assertion(rule),
        }
    }
}

// The host functions that are handed in, as designs declare them.
fn specs_of(alloc: Global, hosts: &[HostFn]) -> Result<Sequence<HostSpec>, NoMemory>
    ensures specs { IfOk result (λ specs. specs ≡ map spec_of hosts.now) }
    ensures widths { IfOk result (λ specs. All (λ (h : Spec). TakesWidth h.kind h.in_width) specs) }
{
    let mut specs = Sequence::new(alloc);
    for host in hosts {
        specs.push(HostSpec {
            kind: host.kind(),
            in_width: host.in_width(),
        })?;
    }
    Ok(specs)
}

// The fault, with its line and column. What lies past the text is its end.
fn fault(text: &[u8], wrong: Wrong) -> Fault
    ensures { result ≡ fault_at wrong.number (place_at text.now wrong.place) }
{
    let offset = (wrong.place as usize).min(text.len());
    Fault::new(wrong.number, place_of(text, offset))
}
