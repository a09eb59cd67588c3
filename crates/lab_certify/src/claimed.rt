//! Claims: what a source claims of its design, with a bit-level circuit of it.

ghost use Rattle.std.specs.Prelude.{◌≡◌, ◌⊎◌, ◌≤◌, ◌<◌, ◌++◌, None, Some, All, IfOk, OnOk, length};
ghost use Rattle.std.specs.List.{flat_map};
ghost use Rattle.kw_base.specs.Fault.{IfFault};
ghost use Rattle.koika_check.specs.Typing.{IsTypedDesign};
ghost use Rattle.koika_lower.specs.Lowering.{IsLowered};
ghost use Rattle.one_rule.specs.Hosts.{host_specs};
ghost use Rattle.front_end.specs.Certified.{HasNoParts, longest_certified};
ghost use Rattle.front_end.specs.Sources as sources;
ghost use Rattle.clause_check.specs.Refutations.{fault_of};
ghost use Rattle.invariant_check.specs.Texts.{text_of};
ghost use Rattle.lab_certify.specs.Certificates.{HoldsInEveryRun, KeepsPromise, claim_text, never_line, obligation_in};
ghost use Rattle.lab_certify.specs.Claims.{Claims, HasNoClaim, HasTooManyBits, SpellsLight, claimed_of};
ghost use Rattle.lab_certify.specs.inner.Read.{IsReady, claim_of, part_of};

use crate::fault_number::NO_SUCH_RULE;
use aig_blast::Aig;
use clause_check::Formula;
use front_end::{Lowered, aig_of, certified_parts, fault_of_source, has_few_bits, spell_parts};
use host_fn::HostFn;
use invariant_check::{certify, obligation, push_obligation, read_invariant};
use itoa::Buffer;
use koika_check::Checked;
use kw_base::Refusal;
use kw_bits::{NoMemory, Text};
use lab_core::rule_named;
use std::alloc::Global;
use typed_core::Design;

/// A claim: a design, a bit-level circuit of it, an invariant of its registers, and the rules that never fire.
#[derive(Drop)]
pub(crate) struct Claimed {
    pub(crate) design: Checked,
    pub(crate) aig: Aig,
    pub(crate) invariant: Formula,
    pub(crate) rules: Vec<u32>,
}

impl Claimed {
    /// What a source claims of the rule of a name, or of those of all assertions, where these bytes are its invariant
    /// and begin with the line of this number; or the first fault.
    pub(crate) fn read(
        alloc: Global,
        hosts: &[HostFn],
        name: Option<Text>,
        source: &[u8],
        invariant: &[u8],
        first_line: u32,
    ) -> Result<Claimed, Refusal>
        requires { length source.now ≤ longest_certified }
        ensures claims { IfOk result (λ it.
            Claims (host_specs hosts.now) name (part_of invariant.now first_line) source.now (claim_of it)) }
        ensures ready { IfOk result IsReady }
        ensures refused { IfFault result
            (HasNoClaim (host_specs hosts.now) name (part_of invariant.now first_line) source.now) }
    {
        let lowered = lower_light(alloc, hosts, source)?;
        let design: &Design = &lowered.design;
        let rules = claimed_rules(alloc, &lowered.checked, design, name)?;
        let aig = aig_of(alloc, &lowered)?;
        aig.recall();
        let invariant = read_invariant(alloc, &aig, invariant, first_line)?;
        Ok(Claimed {
            design: lowered.checked,
            aig,
            invariant,
            rules,
        })
    }

    /// The text of the clauses to be refuted.
    pub(crate) fn obligation_text(&self, alloc: Global) -> Result<Text, NoMemory>
        requires { IsReady self.now }
        ensures text { IfOk result (λ text. text ≡ text_of self.now.aig (obligation_in self.now.aig (claim_of self.now))) }
        ensures promise { OnOk result
            (KeepsPromise self.now.aig (claim_of self.now) (obligation_in self.now.aig (claim_of self.now))) }
    {
        let formula = obligation(alloc, &self.aig, &self.invariant, self.rules.as_slice())?;
        let mut text = Text::new(alloc);
        push_obligation(&mut text, &self.aig, &formula)?;
        Ok(text)
    }

    /// Checks that bytes, which begin with the line of this number, refute these clauses; or the first fault.
    pub(crate) fn check(
        &self,
        alloc: Global,
        refutation: &[u8],
        first_line: u32,
    ) -> Result<(), Refusal>
        requires { IsReady self.now }
        ensures taken { OnOk result
            (fault_of (obligation_in self.now.aig (claim_of self.now)) first_line refutation.now ≡ None) }
        ensures holds { OnOk result (HoldsInEveryRun (claim_of self.now)) }
        ensures fault { IfFault result (λ fault.
            fault_of (obligation_in self.now.aig (claim_of self.now)) first_line refutation.now ≡ Some fault) }
    {
        let rules = self.rules.as_slice();
        certify(
            alloc,
            &self.aig,
            &self.invariant,
            rules,
            refutation,
            first_line,
        )
    }

    /// What is written of a claim that holds: how many clauses its invariant has, and which rules never fire.
    pub(crate) fn text(&self, alloc: Global) -> Result<Text, NoMemory>
        requires { IsReady self.now }
        ensures { IfOk result (λ text. text ≡ claim_text (claim_of self.now)) }
    {
        let mut buffer = Buffer::new();
        let mut text = Text::from_slice(alloc, b"clauses ")?;
        text.extend_from_slice(buffer.format(self.invariant.len()).as_bytes())?;
        text.push(b'\n')?;
        push_never(&mut text, &self.design, self.rules.as_slice())?;
        Ok(text)
    }
}

// Adds a line for each claimed rule.
fn push_never(text: &mut Text, design: &Checked, rules: &[u32]) -> Result<(), NoMemory>
    requires { All (λ rule. rule < length design.now.rules) rules.now }
    ensures { OnOk result (text.new ≡ text.old ++ flat_map (never_line design.now) rules.now) }
{
    for rule in rules {
        push_never_line(text, design, *rule)?;
    }
    Ok(())
}

// Adds the line of a claimed rule.
fn push_never_line(text: &mut Text, design: &Checked, rule: u32) -> Result<(), NoMemory>
    requires { rule < length design.now.rules }
    ensures { OnOk result (text.new ≡ text.old ++ never_line design.now rule) }
{
    let rules = design.rules.as_slice();
    text.extend_from_slice(b"never ")?;
    text.extend_from_slice(rules[rule as usize].name.as_slice())?;
    text.push(b'\n')
}

// The design that a source spells, lowered, if it has few bits.
fn lower_light(alloc: Global, hosts: &[HostFn], source: &[u8]) -> Result<Lowered, Refusal>
    requires { length source.now ≤ longest_certified }
    ensures spelled { IfOk result (λ lowered. SpellsLight (host_specs hosts.now) source.now lowered.checked) }
    ensures typed { IfOk result (λ lowered. IsTypedDesign lowered.checked) }
    ensures refused { IfFault result (λ fault.
        HasNoParts (host_specs hosts.now) source.now fault ⊎ HasTooManyBits (host_specs hosts.now) source.now fault) }
{
    let parts = certified_parts(source);
    let spelled = spell_parts(alloc, hosts, source, parts)?;
    has_few_bits(&spelled.design)?;
    let lowered = Lowered::new(alloc, spelled, hosts)?;
    Ok(lowered)
}

// The rules that are claimed never to fire, where a name that is given is one's.
fn claimed_rules(
    alloc: Global,
    checked: &Checked,
    design: &Design,
    name: Option<Text>,
) -> Result<Vec<u32>, Refusal>
    requires lowered { IsLowered checked.now design.now }
    requires typed { IsTypedDesign checked.now }
    ensures rules { IfOk result (λ rules. claimed_of checked.now name ≡ Some rules.items) }
    ensures within { IfOk result (λ rules. All (λ rule. rule < length checked.now.rules) rules.items) }
    ensures unknown { IfFault result (λ fault.
        (fault ≡ sources.fault_of_source 90) × (claimed_of checked.now name ≡ None)) }
{
    let Some(name) = name else {
        return Ok(Vec::from_slice(alloc, checked.asserts())?);
    };
    let Some(rule) = rule_named(design, name.as_slice()) else {
        return Err(Refusal::Fault(fault_of_source(NO_SUCH_RULE)));
    };
    Ok(Vec::from_slice(alloc, &[rule])?)
}
