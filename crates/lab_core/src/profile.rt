//! The lab: what is counted of a run, cycle by cycle.

ghost use Rattle.std.specs.Prelude.{◌≡◌, ◌<◌, ◌+◌, ◌++◌, ◌∷◌, ◌^◌, [], ℕ, All, IfOk, List, None, OnOk, Option, length, replicate, slice_get, slice_index_or};
ghost use Rattle.one_rule.specs.Cycle as rows;
ghost use Rattle.one_rule.specs.Cycle.{system_of};
ghost use Rattle.one_rule.specs.Externs.{kept};
ghost use Rattle.typed_core.specs.Valid.{externs_of};
ghost use Rattle.typed_core.specs.Widths.{HaveWidths, input_widths, register_widths};
ghost use Rattle.lab_core.specs.Numbers as numbers;
ghost use Rattle.lab_core.specs.Numbers.{RuleNumbers, is_in_doubt, numbers_of, rule_numbers};
ghost use Rattle.journal_check.specs.Printing.{rule_name};
ghost use Rattle.lab_core.specs.Profiles.{assert_line, profile_text};
ghost use Rattle.lab_core.specs.Trials.{trials};
ghost use Rattle.lab_core.specs.declared.trial.Trial.{Trial as TrialOf};
ghost use Rattle.lab_core.specs.inner.Counting.{AreBelow, with_verdict};

use crate::counts::RuleCounts;
use crate::shown::{push_assert, push_cycles, push_rules};
use crate::table::verdicts_of;
use crate::trial::TrialVerdict;
use crate::walk::trials;
use journal_check::name_of;
use kw_bits::{NoMemory, Text};
use one_rule::{Externs, Inputs, Regs};
use std::alloc::Global;
use std::marker::Model;
use typed_core::Design;

/// What is counted of the trials of the cycles so far.
#[derive(Drop)]
pub struct Profile {
    cycles: u32,
    rules: Vec<RuleCounts>,
}

impl Model for Profile {
    ghost use Rattle.std.specs.Prelude.{◌+◌, All};
    ghost use Rattle.lab_core.specs.Numbers.{RunNumbers};
    ghost use Rattle.lab_core.specs.inner.Counting.{AreBelow};

    ghost Value = { RunNumbers };

    ghost view = { λ p. record { cycles = p.cycles; rules = p.rules.items } };

    ghost invariant = { λ p. All (AreBelow (p.cycles + 1)) p.rules.items };
}

impl Profile {
    /// No cycle yet, of a design.
    pub fn new(alloc: Global, design: &Design) -> Result<Profile, NoMemory>
        ensures { IfOk result (λ profile. profile ≡ numbers_of (length design.now.rules) []) }
    {
        Ok(Profile {
            cycles: 0,
            rules: no_counts(alloc, design.rules.len())?,
        })
    }

    /// Counts the trials of the next cycle, and leaves the registers of its row. An `Err` leaves any numbers and registers.
    pub fn add_cycle(
        &mut self,
        alloc: Global,
        design: &Design,
        externs: &Externs,
        cycle: u32,
        inputs: &Inputs,
        regs: &mut Regs,
    ) -> Result<(), NoMemory>
        requires externs { kept externs.now ≡ externs_of design.now }
        requires inputs { HaveWidths (input_widths design.now) inputs.now }
        requires registers { HaveWidths (register_widths design.now) regs.old }
        requires next { cycle ≡ self.old.cycles + 1 }
        requires rules { length self.old.rules ≡ length design.now.rules }

        // Where the numbers are those of cycles, they are those of these cycles and this one.
        ensures numbers { OnOk result ((cycles : List (List TrialOf)) → self.old ≡ numbers_of (length design.now.rules) cycles
            → self.new ≡ numbers_of (length design.now.rules) (cycles ++ trials (system_of design.now) inputs.now regs.old ∷ [])) }
        ensures cycles { OnOk result (self.new.cycles ≡ cycle) }
        ensures rules { length self.new.rules ≡ length self.old.rules }
        ensures registers { OnOk result (regs.new ≡ (rows.cycle (system_of design.now) inputs.now regs.old).regs) }
        ensures fits { OnOk result (HaveWidths (register_widths design.now) regs.new) }
    {
        let tried = trials(alloc, design, externs, inputs, regs)?;
        let verdicts = verdicts_of(alloc, self.rules.len(), tried.as_slice())?;
        self.cycles = cycle;
        note_all(&mut self.rules, cycle, &verdicts)
    }

    /// The profile, with the assertions of these rules.
    pub fn text(&self, alloc: Global, design: &Design, marks: &[u32]) -> Result<Text, NoMemory>
        ensures { IfOk result (λ text. text ≡ profile_text design.now marks.now self.now) }
    {
        let mut text = Text::new(alloc);
        push_cycles(&mut text, self.cycles)?;
        push_rules(&mut text, design, &self.rules)?;
        for mark in marks {
            self.push_mark(&mut text, design, *mark)?;
        }
        Ok(text)
    }

    // Adds the line of the assertion of a rule.
    fn push_mark(&self, text: &mut Text, design: &Design, mark: u32) -> Result<(), NoMemory>
        ensures { OnOk result (text.new ≡ text.old ++ assert_line (rule_name design.now mark) (slice_get self.now.rules mark)) }
    {
        match self.rules.get(mark as usize) {
            Some(counts) => push_assert(text, name_of(design, mark as usize), counts),
            None => Ok(()),
        }
    }

    /// Whether an assertion of one of these rules was violated, or some cycle says nothing of it.
    pub fn fails_strictly(&self, marks: &[u32]) -> bool
        ensures { result ≡ numbers.fails_strictly marks.now self.now }
    {
        marks.iter().any(|mark| self.is_in_doubt(*mark))
    }

    // Whether the assertion of a rule was violated, or some cycle says nothing of it.
    fn is_in_doubt(&self, mark: u32) -> bool
        ensures { result ≡ is_in_doubt (slice_get self.now.rules mark) }
    {
        match self.rules.get(mark as usize) {
            Some(counts) => counts.fired > 0 || counts.unwatched_count() > 0,
            None => false,
        }
    }
}

// No cycle is counted of that many rules.
fn no_counts(alloc: Global, rules: usize) -> Result<Vec<RuleCounts>, NoMemory>
    ensures { IfOk result (λ counts. counts.items ≡ replicate rules (rule_numbers [])) }
{
    let mut counts = Vec::with_capacity(alloc, rules)?;
    for _ in 0..rules {
        counts.push(RuleCounts::new(alloc))?;
    }
    Ok(counts)
}

// Counts the verdict on each rule in a cycle.
fn note_all(
    rules: &mut Vec<RuleCounts>,
    cycle: u32,
    verdicts: &[Option<TrialVerdict>],
) -> Result<(), NoMemory>
    requires few { All (AreBelow cycle) rules.old.items }
    requires count { length verdicts.now ≡ length rules.old.items }
    requires below { cycle < 2 ^ 32 }
    ensures few { All (AreBelow (cycle + 1)) rules.new.items }
    ensures count { length rules.new.items ≡ length rules.old.items }
    ensures each { OnOk result ((rule : ℕ) (none : RuleNumbers) → rule < length rules.old.items
        → slice_index_or rules.new.items rule none ≡ with_verdict cycle (slice_index_or rules.old.items rule none) (slice_index_or verdicts.now rule None)) }
{
    for rule in 0..rules.len() {
        rules[rule].note(cycle, verdicts[rule])?;
    }
    Ok(())
}
