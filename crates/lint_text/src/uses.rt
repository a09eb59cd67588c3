//! Lint's text: what the bodies of scheduled rules use.

ghost use Rattle.std.specs.Prelude.{◌≡◌, ◌<◌, ◌==◌, ◌&&◌, ◌||◌, ℕ, IfOk, length};
ghost use Rattle.std.specs.List.{list_any};
ghost use Rattle.lab_lint.specs.Occurrences.{rule_part};
ghost use Rattle.lab_lint.specs.Order.{is_scheduled};
ghost use Rattle.lint_text.specs.Findings.{AreFindings, is_set};
ghost use Rattle.lint_text.specs.Notes.{is_of, is_used};
ghost use Rattle.lint_text.specs.declared.note.Use.TheVariants as uses;
ghost use Rattle.lint_text.specs.inner.Uses.{is_number};

use crate::findings::Findings;
use crate::flags::no_flags;
use crate::note::Use;
use koika_check::Checked;
use kw_bits::{NoMemory, Sequence};
use lab_lint::Occurrence;
use std::alloc::Global;

impl Use {
    // The number of what an occurrence uses, if it is a use of this kind.
    fn number_in(self, occurrence: &Occurrence) -> Option<u32>
        ensures { (number : ℕ) → is_of self number occurrence.now ≡ is_number result number }
    {
        match self {
            Use::Read => read_in(occurrence),
            Use::Write => written_in(occurrence),
            Use::Input => input_in(occurrence),
            Use::Table => table_in(occurrence),
            Use::Host => host_in(occurrence),
        }
    }

    // Marks what an occurrence uses so.
    fn mark(self, occurrence: &Occurrence, marks: &mut Sequence<bool>)
        ensures count { length marks.new ≡ length marks.old }
        ensures marks { (number : ℕ) → number < length marks.old → is_set marks.new number ≡ (is_set marks.old number || is_of self number occurrence.now) }
    {
        if let Some(number) = self.number_in(occurrence) {
            set(marks, number as usize);
        }
    }

    // Marks all that occurrences use so.
    fn mark_all(self, occurrences: &[Occurrence], marks: &mut Sequence<bool>)
        ensures count { length marks.new ≡ length marks.old }
        ensures marks { (number : ℕ) → number < length marks.old → is_set marks.new number ≡ (is_set marks.old number || list_any (is_of self number) occurrences.now) }
    {
        for occurrence in occurrences {
            self.mark(occurrence, marks);
        }
    }
}

// Sets a mark, if there is one of the number.
fn set(marks: &mut Sequence<bool>, place: usize)
    ensures count { length marks.new ≡ length marks.old }
    ensures marks { (number : ℕ) → number < length marks.old → is_set marks.new number ≡ (is_set marks.old number || (place == number)) }
{
    if place < marks.len() {
        marks.set(place, true);
    }
}

// The register that is read.
fn read_in(occurrence: &Occurrence) -> Option<u32>
    ensures { (number : ℕ) → is_of uses.Read number occurrence.now ≡ is_number result number }
{
    match occurrence {
        Occurrence::Access(access) => {
            if access.write {
                None
            } else {
                Some(access.register)
            }
        }
        _ => None,
    }
}

// The register that is written.
fn written_in(occurrence: &Occurrence) -> Option<u32>
    ensures { (number : ℕ) → is_of uses.Write number occurrence.now ≡ is_number result number }
{
    match occurrence {
        Occurrence::Access(access) => {
            if access.write {
                Some(access.register)
            } else {
                None
            }
        }
        _ => None,
    }
}

fn input_in(occurrence: &Occurrence) -> Option<u32>
    ensures { (number : ℕ) → is_of uses.Input number occurrence.now ≡ is_number result number }
{
    match occurrence {
        Occurrence::Input(number) => Some(*number),
        _ => None,
    }
}

fn table_in(occurrence: &Occurrence) -> Option<u32>
    ensures { (number : ℕ) → is_of uses.Table number occurrence.now ≡ is_number result number }
{
    match occurrence {
        Occurrence::Table(number) => Some(*number),
        _ => None,
    }
}

fn host_in(occurrence: &Occurrence) -> Option<u32>
    ensures { (number : ℕ) → is_of uses.Host number occurrence.now ≡ is_number result number }
{
    match occurrence {
        Occurrence::Host(number) => Some(*number),
        _ => None,
    }
}

impl Findings {
    // Of that many declarations those that a scheduled rule's body uses so.
    pub(crate) fn used(
        &self,
        alloc: Global,
        design: &Checked,
        of: Use,
        count: usize,
    ) -> Result<Sequence<bool>, NoMemory>
        requires { AreFindings design.now self.now }
        ensures { IfOk result (λ marks. (number : ℕ) → number < count → is_set marks number ≡ is_used design.now of number) }
    {
        let mut marks = no_flags(alloc, count)?;
        for rule in 0..design.rules.len() {
            self.mark_rule(design, of, rule, &mut marks);
        }
        Ok(marks)
    }

    // Marks what a rule's body uses so, if the rule is scheduled.
    fn mark_rule(&self, design: &Checked, of: Use, rule: usize, marks: &mut Sequence<bool>)
        requires found { AreFindings design.now self.now }
        requires rule { rule < length design.now.rules }
        ensures count { length marks.new ≡ length marks.old }
        ensures marks { (number : ℕ) → number < length marks.old → is_set marks.new number ≡ (is_set marks.old number || (is_scheduled design.now.nodes rule && list_any (is_of of number) (rule_part design.now rule).all)) }
    {
        if self.is_scheduled(design, rule) {
            of.mark_all(self.occurrences.get(rule).as_slice(), marks);
        }
    }
}
