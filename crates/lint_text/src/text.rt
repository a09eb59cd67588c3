//! Lint's text: its parts, one after another.

ghost use Rattle.std.specs.Prelude.{◌≡◌, ◌<◌, IfOk, length};
ghost use Rattle.lint_text.specs.Findings.{AreFindings, is_set, order_of};
ghost use Rattle.lint_text.specs.Notes as noted;
ghost use Rattle.lint_text.specs.Text.{notes_text};

use crate::findings::Findings;
use crate::note::Note;
use crate::places::Places;
use crate::shown::push_notes;
use koika_check::Checked;
use kw_bits::{NoMemory, Text};
use std::alloc::Global;

impl Findings {
    /// The lines of the notes of single rules.
    pub fn rules_text(
        &self,
        alloc: Global,
        design: &Checked,
        places: &Places,
    ) -> Result<Text, NoMemory>
        requires { AreFindings design.now self.now }
        ensures { IfOk result (λ text. text ≡ notes_text design.now places.now (noted.rule_notes (is_set self.now.never) design.now)) }
    {
        let notes = self.rule_notes(alloc, design)?;
        self.text_of(alloc, design, places, notes.as_slice())
    }

    /// The lines of the notes of a rule and the rules that may have fired before it.
    pub fn pairs_text(
        &self,
        alloc: Global,
        design: &Checked,
        places: &Places,
        rule: usize,
    ) -> Result<Text, NoMemory>
        requires found { AreFindings design.now self.now }
        requires rule { rule < length design.now.rules }
        ensures { IfOk result (λ text. text ≡ notes_text design.now places.now (noted.if_scheduled design.now (noted.may_notes (order_of self.now) design.now) rule)) }
    {
        let notes = self.pair_notes(alloc, design, rule)?;
        self.text_of(alloc, design, places, notes.as_slice())
    }

    /// The lines of the notes of assertions, and of what nothing uses.
    pub fn last_text(
        &self,
        alloc: Global,
        design: &Checked,
        places: &Places,
    ) -> Result<Text, NoMemory>
        requires { AreFindings design.now self.now }
        ensures { IfOk result (λ text. text ≡ notes_text design.now places.now (noted.last_notes (order_of self.now) design.now)) }
    {
        let notes = self.last_notes(alloc, design)?;
        self.text_of(alloc, design, places, notes.as_slice())
    }

    // The lines of notes.
    fn text_of(
        &self,
        alloc: Global,
        design: &Checked,
        places: &Places,
        notes: &[Note],
    ) -> Result<Text, NoMemory>
        ensures { IfOk result (λ text. text ≡ notes_text design.now places.now notes.now) }
    {
        let mut text = Text::new(alloc);
        push_notes(&mut text, &design, places, notes)?;
        Ok(text)
    }
}
