//! Lint's text: the notes of a design.

ghost use Rattle.std.specs.Prelude.{◌≡◌, ◌++◌, ◌<◌, ◌&&◌, [], All, IfOk, OnOk, length, not, if◌then◌else◌};
ghost use Rattle.std.specs.List.{flat_map, list_any, range_with_len};
ghost use Rattle.typed_core.specs.Clash.{clashes};
ghost use Rattle.typed_core.specs.declared.access.Access.{Access as AccessOf};
ghost use Rattle.koika_check.specs.Sizes.{rule_sizes};
ghost use Rattle.lab_lint.specs.Order.{is_scheduled};
ghost use Rattle.lab_lint.specs.Refusals as refusals;
ghost use Rattle.lab_lint.specs.Rules.{has_any, may_be_clashed, may_be_refused, may_clash, may_refuse_itself, numbers};
ghost use Rattle.lint_text.specs.Findings.{AreFindings, is_set, order_of};
ghost use Rattle.lint_text.specs.Notes as noted;
ghost use Rattle.lint_text.specs.Notes.{note_if};
ghost use Rattle.lint_text.specs.declared.note.Note.TheVariants as note;
ghost use Rattle.lint_text.specs.declared.note.Use.TheVariants as uses;
ghost use Rattle.lint_text.specs.inner.Measured.{measures_from};

use crate::findings::Findings;
use crate::flags::{flag_or, is_set};
use crate::note::{Note, Use};
use koika_check::{Checked, Measure, rule_measures};
use kw_bits::{NoMemory, Sequence};
use lab_lint::{clashed, clashing};
use std::alloc::Global;
use typed_core::Access;

impl Findings {
    /// The notes of single rules.
    pub(crate) fn rule_notes(
        &self,
        alloc: Global,
        design: &Checked,
    ) -> Result<Sequence<Note>, NoMemory>
        requires { AreFindings design.now self.now }
        ensures { IfOk result (λ notes. notes ≡ noted.rule_notes (is_set self.now.never) design.now) }
    {
        let mut notes = Sequence::new(alloc);
        self.push_sizes(alloc, design, &mut notes)?;
        self.push_unscheduled(design, &mut notes)?;
        self.push_never(design, &mut notes)?;
        self.push_own(alloc, design, &mut notes)?;
        Ok(notes)
    }

    /// The notes of a rule and the rules that may have fired before it.
    pub(crate) fn pair_notes(
        &self,
        alloc: Global,
        design: &Checked,
        rule: usize,
    ) -> Result<Sequence<Note>, NoMemory>
        requires found { AreFindings design.now self.now }
        requires rule { rule < length design.now.rules }
        ensures { IfOk result (λ notes. notes ≡ noted.if_scheduled design.now (noted.may_notes (order_of self.now) design.now) rule) }
    {
        let mut notes = Sequence::new(alloc);
        self.push_may_if_scheduled(alloc, design, rule, &mut notes)?;
        Ok(notes)
    }

    /// The notes of assertions, and of what nothing uses.
    pub(crate) fn last_notes(
        &self,
        alloc: Global,
        design: &Checked,
    ) -> Result<Sequence<Note>, NoMemory>
        requires { AreFindings design.now self.now }
        ensures { IfOk result (λ notes. notes ≡ noted.last_notes (order_of self.now) design.now) }
    {
        let mut notes = Sequence::new(alloc);
        self.push_asserts(design, design.asserts.as_slice(), &mut notes)?;
        self.push_registers(alloc, design, &mut notes)?;
        self.push_unused(alloc, design, Use::Input, design.inputs.len(), &mut notes)?;
        self.push_unused(alloc, design, Use::Table, design.tables.len(), &mut notes)?;
        self.push_unused(alloc, design, Use::Host, design.hosts.len(), &mut notes)?;
        Ok(notes)
    }
}

// ---- single rules

impl Findings {
    // Notes the weight and the depth of each rule's body.
    fn push_sizes(
        &self,
        alloc: Global,
        design: &Checked,
        notes: &mut Sequence<Note>,
    ) -> Result<(), NoMemory>
        requires { AreFindings design.now self.now }
        ensures { OnOk result (notes.new ≡ notes.old ++ noted.sizes_from 0 (rule_sizes design.now)) }
    {
        let measures = rule_measures(alloc, design)?;
        push_measures(measures.as_slice(), notes)
    }

    // Notes the rules that aren't scheduled.
    fn push_unscheduled(&self, design: &Checked, notes: &mut Sequence<Note>) -> Result<(), NoMemory>
        requires { AreFindings design.now self.now }
        ensures { OnOk result (notes.new ≡ notes.old ++ flat_map (noted.unscheduled_note design.now) (numbers design.now.rules)) }
    {
        for rule in 0..design.rules.len() {
            push_if(
                !self.is_scheduled(design, rule),
                Note::Unscheduled(rule),
                notes,
            )?;
        }
        Ok(())
    }

    // Notes the scheduled rules that never fire.
    fn push_never(&self, design: &Checked, notes: &mut Sequence<Note>) -> Result<(), NoMemory>
        requires { AreFindings design.now self.now }
        ensures { OnOk result (notes.new ≡ notes.old ++ flat_map (noted.if_scheduled design.now (noted.never_note (is_set self.now.never))) (numbers design.now.rules)) }
    {
        for rule in 0..design.rules.len() {
            push_if(self.is_idle(design, rule), Note::Never(rule), notes)?;
        }
        Ok(())
    }

    /// Whether a rule is scheduled.
    pub(crate) fn is_scheduled(&self, design: &Checked, rule: usize) -> bool
        requires found { AreFindings design.now self.now }
        requires rule { rule < length design.now.rules }
        ensures { result ≡ is_scheduled design.now.nodes rule }
    {
        is_set(&self.scheduled, rule)
    }

    // Whether a rule is scheduled and never fires.
    fn is_idle(&self, design: &Checked, rule: usize) -> bool
        requires found { AreFindings design.now self.now }
        requires rule { rule < length design.now.rules }
        ensures { result ≡ (is_scheduled design.now.nodes rule && is_set self.now.never rule) }
    {
        self.is_scheduled(design, rule) && is_set(&self.never, rule)
    }

    // Notes the writes that scheduled rules may refuse themselves.
    fn push_own(
        &self,
        alloc: Global,
        design: &Checked,
        notes: &mut Sequence<Note>,
    ) -> Result<(), NoMemory>
        requires { AreFindings design.now self.now }
        ensures { OnOk result (notes.new ≡ notes.old ++ flat_map (noted.if_scheduled design.now (noted.own_notes design.now)) (numbers design.now.rules)) }
    {
        for rule in 0..design.rules.len() {
            self.push_own_if_scheduled(alloc, design, rule, notes)?;
        }
        Ok(())
    }

    // Those of one rule, if it is scheduled.
    fn push_own_if_scheduled(
        &self,
        alloc: Global,
        design: &Checked,
        rule: usize,
        notes: &mut Sequence<Note>,
    ) -> Result<(), NoMemory>
        requires found { AreFindings design.now self.now }
        requires rule { rule < length design.now.rules }
        ensures { OnOk result (notes.new ≡ notes.old ++ noted.if_scheduled design.now (noted.own_notes design.now) rule) }
    {
        if self.is_scheduled(design, rule) {
            self.push_own_of(alloc, design, rule, notes)
        } else {
            Ok(())
        }
    }

    // Those of one rule.
    fn push_own_of(
        &self,
        alloc: Global,
        design: &Checked,
        rule: usize,
        notes: &mut Sequence<Note>,
    ) -> Result<(), NoMemory>
        requires found { AreFindings design.now self.now }
        requires rule { rule < length design.now.rules }
        ensures { OnOk result (notes.new ≡ notes.old ++ noted.own_notes design.now rule) }
    {
        for register in 0..design.registers.len() {
            let writes = self.own_writes(design, rule, register);
            push_own_note(alloc, rule, register, writes, notes)?;
        }
        Ok(())
    }

    // The writes of a register that a rule may refuse itself.
    fn own_writes(&self, design: &Checked, rule: usize, register: usize) -> &[Access]
        requires found { AreFindings design.now self.now }
        requires rule { rule < length design.now.rules }
        requires register { register < length design.now.registers }
        ensures { result.now ≡ refusals.own_writes design.now rule register }
    {
        self.own.get(rule).get(register).as_slice()
    }

    // The accesses of a register that a rule makes.
    fn made(&self, design: &Checked, rule: usize, register: usize) -> &[Access]
        requires found { AreFindings design.now self.now }
        requires rule { rule < length design.now.rules }
        requires register { register < length design.now.registers }
        ensures { result.now ≡ refusals.made design.now rule register }
    {
        self.made.get(rule).get(register).as_slice()
    }
}

// Notes weights and depths, rule by rule.
fn push_measures(measures: &[Measure], notes: &mut Sequence<Note>) -> Result<(), NoMemory>
    ensures { OnOk result (notes.new ≡ notes.old ++ measures_from 0 measures.now) }
{
    for (rule, measure) in measures.iter().enumerate() {
        notes.push(Note::Size {
            rule,
            weight: measure.weight,
            depth: measure.depth,
        })?;
    }
    Ok(())
}

// Adds a note, if it is so.
fn push_if(is_so: bool, note: Note, notes: &mut Sequence<Note>) -> Result<(), NoMemory>
    ensures { OnOk result (notes.new ≡ notes.old ++ note_if is_so note) }
{
    if is_so { notes.push(note) } else { Ok(()) }
}

// Notes writes of a register that a rule may refuse itself, if there are any.
fn push_own_note(
    alloc: Global,
    rule: usize,
    register: usize,
    writes: &[Access],
    notes: &mut Sequence<Note>,
) -> Result<(), NoMemory>
    ensures { OnOk result (notes.new ≡ notes.old ++ note_if (has_any writes.now) (note.Own rule register writes.now)) }
{
    if has_any(writes) {
        let writes = Sequence::from_slice(alloc, writes)?;
        notes.push(Note::Own {
            rule,
            register,
            writes,
        })
    } else {
        Ok(())
    }
}

// ---- pairs of rules

impl Findings {
    // Notes the accesses of a rule that may clash, if it is scheduled.
    fn push_may_if_scheduled(
        &self,
        alloc: Global,
        design: &Checked,
        rule: usize,
        notes: &mut Sequence<Note>,
    ) -> Result<(), NoMemory>
        requires found { AreFindings design.now self.now }
        requires rule { rule < length design.now.rules }
        ensures { OnOk result (notes.new ≡ notes.old ++ noted.if_scheduled design.now (noted.may_notes (order_of self.now) design.now) rule) }
    {
        if self.is_scheduled(design, rule) {
            self.push_may(alloc, design, rule, notes)
        } else {
            Ok(())
        }
    }

    // Notes the accesses of a rule that may clash.
    fn push_may(
        &self,
        alloc: Global,
        design: &Checked,
        rule: usize,
        notes: &mut Sequence<Note>,
    ) -> Result<(), NoMemory>
        requires found { AreFindings design.now self.now }
        requires rule { rule < length design.now.rules }
        ensures { OnOk result (notes.new ≡ notes.old ++ noted.may_notes (order_of self.now) design.now rule) }
    {
        for earlier in 0..design.rules.len() {
            self.push_may_if_preceded(alloc, design, rule, earlier, notes)?;
        }
        Ok(())
    }

    // Those with accesses of one other rule, if it may have fired before.
    fn push_may_if_preceded(
        &self,
        alloc: Global,
        design: &Checked,
        rule: usize,
        earlier: usize,
        notes: &mut Sequence<Note>,
    ) -> Result<(), NoMemory>
        requires found { AreFindings design.now self.now }
        requires rule { rule < length design.now.rules }
        requires earlier { earlier < length design.now.rules }
        ensures { OnOk result (notes.new ≡ notes.old ++ (if (order_of self.now).may_precede earlier rule then noted.may_notes_between design.now rule earlier else [])) }
    {
        if self.may_precede(earlier, rule) {
            self.push_may_between(alloc, design, rule, earlier, notes)
        } else {
            Ok(())
        }
    }

    // Whether a rule may have fired before another.
    fn may_precede(&self, earlier: usize, rule: usize) -> bool
        ensures { result ≡ (order_of self.now).may_precede earlier rule }
    {
        if earlier < self.precedes.len() {
            is_set(self.precedes.get(earlier), rule)
        } else {
            false
        }
    }

    // Those of two rules.
    fn push_may_between(
        &self,
        alloc: Global,
        design: &Checked,
        rule: usize,
        earlier: usize,
        notes: &mut Sequence<Note>,
    ) -> Result<(), NoMemory>
        requires found { AreFindings design.now self.now }
        requires rule { rule < length design.now.rules }
        requires earlier { earlier < length design.now.rules }
        ensures { OnOk result (notes.new ≡ notes.old ++ noted.may_notes_between design.now rule earlier) }
    {
        for register in 0..design.registers.len() {
            self.push_may_note(alloc, design, rule, earlier, register, notes)?;
        }
        Ok(())
    }

    // Notes the accesses of a register by two rules that may clash, if there are any.
    fn push_may_note(
        &self,
        alloc: Global,
        design: &Checked,
        rule: usize,
        earlier: usize,
        register: usize,
        notes: &mut Sequence<Note>,
    ) -> Result<(), NoMemory>
        requires found { AreFindings design.now self.now }
        requires rule { rule < length design.now.rules }
        requires earlier { earlier < length design.now.rules }
        requires register { register < length design.now.registers }
        ensures { OnOk result (notes.new ≡ notes.old ++ noted.may_note design.now rule earlier register) }
    {
        let made = self.made(design, rule, register);
        let others = self.made(design, earlier, register);
        let accesses = clashing(alloc, made, others)?;
        let others = clashed(alloc, others, made)?;
        let is_noted = has_any(accesses.as_slice());
        let note = Note::May {
            rule,
            earlier,
            register,
            accesses,
            others,
        };
        push_if(is_noted, note, notes)
    }
}

// ---- assertions

impl Findings {
    // Notes what may be so of the assertions of rules.
    fn push_asserts(
        &self,
        design: &Checked,
        marks: &[u32],
        notes: &mut Sequence<Note>,
    ) -> Result<(), NoMemory>
        requires found { AreFindings design.now self.now }
        requires marks { All (λ mark. mark < length design.now.rules) marks.now }
        ensures { OnOk result (notes.new ≡ notes.old ++ flat_map (noted.assert_notes (order_of self.now) design.now) marks.now) }
    {
        for mark in marks {
            self.push_assert(design, *mark, notes)?;
        }
        Ok(())
    }

    // Notes what may be so of the assertion of a rule.
    fn push_assert(
        &self,
        design: &Checked,
        rule: u32,
        notes: &mut Sequence<Note>,
    ) -> Result<(), NoMemory>
        requires found { AreFindings design.now self.now }
        requires rule { rule < length design.now.rules }
        ensures { OnOk result (notes.new ≡ notes.old ++ noted.assert_notes (order_of self.now) design.now rule) }
    {
        let number = rule as usize;
        push_if(
            self.may_be_refused(design, number),
            Note::MayBeRefused(rule),
            notes,
        )?;
        let may_be_untried = flag_or(&self.untried, number, true);
        push_if(may_be_untried, Note::MayBeUntried(rule), notes)
    }

    // Whether a rule may be refused.
    fn may_be_refused(&self, design: &Checked, rule: usize) -> bool
        requires found { AreFindings design.now self.now }
        requires rule { rule < length design.now.rules }
        ensures { result ≡ may_be_refused (order_of self.now) design.now rule }
    {
        self.may_refuse_itself(design, rule) || self.may_be_clashed(design, rule)
    }

    // Whether a rule is scheduled and has a write that it may refuse itself.
    fn may_refuse_itself(&self, design: &Checked, rule: usize) -> bool
        requires found { AreFindings design.now self.now }
        requires rule { rule < length design.now.rules }
        ensures { result ≡ may_refuse_itself design.now rule }
    {
        self.is_scheduled(design, rule) && self.has_own(design, rule)
    }

    // Whether a rule has a write that it may refuse itself.
    fn has_own(&self, design: &Checked, rule: usize) -> bool
        requires found { AreFindings design.now self.now }
        requires rule { rule < length design.now.rules }
        ensures { result ≡ list_any (λ register. has_any (refusals.own_writes design.now rule register)) (numbers design.now.registers) }
    {
        for register in 0..design.registers.len() {
            if self.has_own_of(design, rule, register) {
                return true;
            }
        }
        false
    }

    // Whether a rule has a write of a register that it may refuse itself.
    fn has_own_of(&self, design: &Checked, rule: usize, register: usize) -> bool
        requires found { AreFindings design.now self.now }
        requires rule { rule < length design.now.rules }
        requires register { register < length design.now.registers }
        ensures { result ≡ has_any (refusals.own_writes design.now rule register) }
    {
        has_any(self.own_writes(design, rule, register))
    }

    // Whether a rule has an access that cannot follow some access of a rule that may fire before it.
    fn may_be_clashed(&self, design: &Checked, rule: usize) -> bool
        requires found { AreFindings design.now self.now }
        requires rule { rule < length design.now.rules }
        ensures { result ≡ may_be_clashed (order_of self.now) design.now rule }
    {
        for earlier in 0..design.rules.len() {
            if self.may_be_clashed_by(design, rule, earlier) {
                return true;
            }
        }
        false
    }

    // Whether a rule may fire before another that has an access that cannot follow some access of it.
    fn may_be_clashed_by(&self, design: &Checked, rule: usize, earlier: usize) -> bool
        requires found { AreFindings design.now self.now }
        requires rule { rule < length design.now.rules }
        requires earlier { earlier < length design.now.rules }
        ensures { result ≡ ((order_of self.now).may_precede earlier rule && may_clash design.now rule earlier) }
    {
        self.may_precede(earlier, rule) && self.may_clash(design, rule, earlier)
    }

    // Whether a rule has an access that cannot follow some access of another.
    fn may_clash(&self, design: &Checked, rule: usize, earlier: usize) -> bool
        requires found { AreFindings design.now self.now }
        requires rule { rule < length design.now.rules }
        requires earlier { earlier < length design.now.rules }
        ensures { result ≡ may_clash design.now rule earlier }
    {
        for register in 0..design.registers.len() {
            if self.may_clash_over(design, rule, earlier, register) {
                return true;
            }
        }
        false
    }

    // So it is with the accesses of a register.
    fn may_clash_over(&self, design: &Checked, rule: usize, earlier: usize, register: usize) -> bool
        requires found { AreFindings design.now self.now }
        requires rule { rule < length design.now.rules }
        requires earlier { earlier < length design.now.rules }
        requires register { register < length design.now.registers }
        ensures { result ≡ has_any (refusals.clashing design.now rule earlier register) }
    {
        some_clash(
            self.made(design, rule, register),
            self.made(design, earlier, register),
        )
    }
}

fn has_any(accesses: &[Access]) -> bool
    ensures { result ≡ has_any accesses.now }
{
    match accesses {
        [] => false,
        [_, ..] => true,
    }
}

// Whether some access cannot follow some other.
fn some_clash(accesses: &[Access], earlier: &[Access]) -> bool
    ensures { result ≡ list_any (λ (a : AccessOf). list_any (λ (e : AccessOf). clashes a e) earlier.now) accesses.now }
{
    accesses.iter().any(|access| cannot_follow(access, earlier))
}

fn cannot_follow(access: &Access, earlier: &[Access]) -> bool
    ensures { result ≡ list_any (λ (e : AccessOf). clashes access.now e) earlier.now }
{
    earlier.iter().any(|other| access.clashes_after(other))
}

// ---- what nothing uses

impl Findings {
    // Notes the registers that no scheduled rule reads or writes.
    fn push_registers(
        &self,
        alloc: Global,
        design: &Checked,
        notes: &mut Sequence<Note>,
    ) -> Result<(), NoMemory>
        requires { AreFindings design.now self.now }
        ensures { OnOk result (notes.new ≡ notes.old ++ flat_map (noted.register_notes design.now) (numbers design.now.registers)) }
    {
        let count = design.registers.len();
        let read = self.used(alloc, design, Use::Read, count)?;
        let written = self.used(alloc, design, Use::Write, count)?;
        for register in 0..count {
            push_register(&read, &written, register, notes)?;
        }
        Ok(())
    }

    // Notes which of the first that many declarations no scheduled rule uses so.
    fn push_unused(
        &self,
        alloc: Global,
        design: &Checked,
        of: Use,
        count: usize,
        notes: &mut Sequence<Note>,
    ) -> Result<(), NoMemory>
        requires { AreFindings design.now self.now }
        ensures { OnOk result (notes.new ≡ notes.old ++ flat_map (noted.unused_note design.now of) (range_with_len 0 count)) }
    {
        let used = self.used(alloc, design, of, count)?;
        for number in 0..count {
            push_if(!is_set(&used, number), Note::Unused { of, number }, notes)?;
        }
        Ok(())
    }
}

// Notes that a register isn't read, and that it isn't written.
fn push_register(
    read: &Sequence<bool>,
    written: &Sequence<bool>,
    register: usize,
    notes: &mut Sequence<Note>,
) -> Result<(), NoMemory>
    ensures { OnOk result (notes.new ≡ notes.old ++ (note_if (not (is_set read.now register)) (note.Unused uses.Read register)
        ++ note_if (not (is_set written.now register)) (note.Unused uses.Write register))) }
{
    let unread = Note::Unused {
        of: Use::Read,
        number: register,
    };
    push_if(!is_set(read, register), unread, notes)?;
    let unwritten = Note::Unused {
        of: Use::Write,
        number: register,
    };
    push_if(!is_set(written, register), unwritten, notes)
}
