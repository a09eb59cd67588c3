//! Lint's text: what is found of a design.

ghost use Rattle.std.specs.Prelude.{◌≡◌, ◌↔◌, ℕ, [], IfOk, IsTrue, map, true, slice_index_or};
ghost use Rattle.koika_check.specs.Typing.{IsTypedDesign};
ghost use Rattle.lab_lint.specs.Occurrences.{rule_part};
ghost use Rattle.lab_lint.specs.Order.{MayBeUntried, MayPrecede, is_scheduled as is_scheduled_in};
ghost use Rattle.lab_lint.specs.Refusals as refusals;
ghost use Rattle.lab_lint.specs.Rules.{numbers};
ghost use Rattle.lint_text.specs.Findings.{AreFindings, by_register, is_set};

use koika_check::Checked;
use kw_bits::{NoMemory, Sequence};
use lab_lint::{
    Occurrence, all_occurrences, is_scheduled, made_accesses, may_be_untried, own_writes, preceded,
};
use std::alloc::Global;
use typed_core::Access;

/// Accesses by rule and register.
pub type ByRegister = Sequence<Sequence<Sequence<Access>>>;

/// What is found of a typed design, by which its notes are made.
#[derive(Drop)]
pub struct Findings {
    /// The occurrences of each rule's body.
    pub occurrences: Sequence<Sequence<Occurrence>>,
    /// Whether each rule is scheduled.
    pub scheduled: Sequence<bool>,
    /// The accesses that each rule makes of each register.
    pub made: ByRegister,
    /// The writes among them that the rule's own accesses may refuse.
    pub own: ByRegister,
    /// For each rule whether it may have fired before each rule.
    pub precedes: Sequence<Sequence<bool>>,
    /// Whether a cycle may pass by each rule.
    pub untried: Sequence<bool>,
    /// Which rules never fire, as far as that is known.
    pub never: Sequence<bool>,
}

impl Findings {
    /// What is found of a design, of which these rules never fire.
    pub fn new(alloc: Global, design: &Checked, never: Sequence<bool>) -> Result<Findings, NoMemory>
        requires { IsTypedDesign design.now }
        ensures found { IfOk result (AreFindings design.now) }
        ensures never { IfOk result (λ found. found.never ≡ never) }
    {
        let occurrences = all_occurrences(alloc, design)?;
        let scheduled = scheduled_rules(alloc, design)?;
        let made = all_made(alloc, design, &occurrences)?;
        let own = all_own(alloc, design, &made)?;
        let precedes = all_preceded(alloc, design)?;
        let untried = untried_rules(alloc, design)?;
        Ok(Findings {
            occurrences,
            scheduled,
            made,
            own,
            precedes,
            untried,
            never,
        })
    }
}

// Whether each rule is scheduled.
fn scheduled_rules(alloc: Global, design: &Checked) -> Result<Sequence<bool>, NoMemory>
    ensures { IfOk result (λ flags. flags ≡ map (is_scheduled_in design.now.nodes) (numbers design.now.rules)) }
{
    let mut flags = Sequence::new(alloc);
    for rule in 0..design.rules.len() {
        flags.push(is_scheduled(design.nodes.as_slice(), rule))?;
    }
    Ok(flags)
}

// The accesses that each rule makes of each register.
fn all_made(
    alloc: Global,
    design: &Checked,
    occurrences: &Sequence<Sequence<Occurrence>>,
) -> Result<ByRegister, NoMemory>
    requires typed { IsTypedDesign design.now }
    requires occurrences { occurrences.now ≡ map (λ rule. (rule_part design.now rule).all) (numbers design.now.rules) }
    ensures { IfOk result (λ made. made ≡ by_register design.now (refusals.made design.now)) }
{
    let mut all = Sequence::new(alloc);
    for rule in 0..design.rules.len() {
        all.push(made_by(alloc, design, rule, occurrences.get(rule).as_slice())?)?;
    }
    Ok(all)
}

// Those that one rule makes.
fn made_by(
    alloc: Global,
    design: &Checked,
    rule: usize,
    occurrences: &[Occurrence],
) -> Result<Sequence<Sequence<Access>>, NoMemory>
    requires typed { IsTypedDesign design.now }
    requires occurrences { occurrences.now ≡ (rule_part design.now rule).all }
    ensures { IfOk result (λ made. made ≡ map (refusals.made design.now rule) (numbers design.now.registers)) }
{
    let mut made = Sequence::new(alloc);
    for register in 0..design.registers.len() {
        made.push(made_accesses(alloc, occurrences, register as u32)?)?;
    }
    Ok(made)
}

// The writes of each register that each rule's own accesses may refuse.
fn all_own(alloc: Global, design: &Checked, made: &ByRegister) -> Result<ByRegister, NoMemory>
    requires { made.now ≡ by_register design.now (refusals.made design.now) }
    ensures { IfOk result (λ own. own ≡ by_register design.now (refusals.own_writes design.now)) }
{
    let mut all = Sequence::new(alloc);
    for rule in 0..design.rules.len() {
        all.push(own_of(alloc, design, rule, made.get(rule))?)?;
    }
    Ok(all)
}

// Those of one rule.
fn own_of(
    alloc: Global,
    design: &Checked,
    rule: usize,
    made: &Sequence<Sequence<Access>>,
) -> Result<Sequence<Sequence<Access>>, NoMemory>
    requires { made.now ≡ map (refusals.made design.now rule) (numbers design.now.registers) }
    ensures { IfOk result (λ own. own ≡ map (refusals.own_writes design.now rule) (numbers design.now.registers)) }
{
    let mut own = Sequence::new(alloc);
    for register in 0..design.registers.len() {
        own.push(own_writes(alloc, design, rule, made.get(register).as_slice())?)?;
    }
    Ok(own)
}

// For each rule whether it may have fired before each rule.
fn all_preceded(alloc: Global, design: &Checked) -> Result<Sequence<Sequence<bool>>, NoMemory>
    requires { IsTypedDesign design.now }
    ensures { IfOk result (λ flags. (earlier rule : ℕ) → IsTrue (is_set (slice_index_or flags earlier []) rule) ↔ MayPrecede design.now.nodes earlier rule) }
{
    let mut all = Sequence::new(alloc);
    let rules = design.rules.len();
    for earlier in 0..rules {
        all.push(preceded(alloc, design.nodes.as_slice(), rules, earlier)?)?;
    }
    Ok(all)
}

// Whether a cycle may pass by each rule.
fn untried_rules(alloc: Global, design: &Checked) -> Result<Sequence<bool>, NoMemory>
    requires { IsTypedDesign design.now }
    ensures { IfOk result (λ flags. (rule : ℕ) → IsTrue (slice_index_or flags rule true) ↔ MayBeUntried design.now.nodes rule) }
{
    let mut flags = Sequence::new(alloc);
    for rule in 0..design.rules.len() {
        flags.push(may_be_untried(alloc, design.nodes.as_slice(), rule)?)?;
    }
    Ok(flags)
}
