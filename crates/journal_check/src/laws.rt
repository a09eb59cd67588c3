//! Journals: laws of their texts.

ghost use Rattle.std.specs.Prelude.{◌≡◌, ◌≤◌, ◌<◌, ◌^◌, ℕ, List, decimal, length, map};
ghost use Rattle.std.specs.List.{AllByRecursion, flat_map};
ghost use Rattle.kw_base.specs.declared.fault.Fault.{Fault as FaultOf};
ghost use Rattle.kw_base.specs.Texts.{lines_of};
ghost use Rattle.stim_report.specs.Report.{hex};
ghost use Rattle.journal_check.specs.Numbers.{number_read, value_read};
ghost use Rattle.journal_check.specs.Fitting.{IsRule, IsSmall, LineFits};
ghost use Rattle.journal_check.specs.Journals.{lines_in};
ghost use Rattle.journal_check.specs.Printing.{ended, journal_text, line_text};
ghost use Rattle.journal_check.specs.Reading.{HasFittingEntries, HasPlainNames, HasShownNames, IsFirstMalformed, IsJournal};
ghost use Rattle.journal_check.specs.declared.journal.Journal.{Journal as JournalOf};
ghost use Rattle.journal_check.specs.declared.line.JournalLine.{JournalLine};
ghost use Rattle.one_rule.specs.Stimulus.{InputVectors};
ghost use Rattle.typed_core.specs.declared.design.Parts.{Parts};

/// Numbers and values are read as they are printed.
pub fn digits_are_read_back()
    ensures number { (n : ℕ) → n < 2 ^ 32 → number_read (decimal n) ≡ n }
    ensures value { (width n : ℕ) → n < 2 ^ width → width ≤ 128 → value_read (hex width n) ≡ n }
{}

/// Lines that fit are told apart by their texts, where no name has a space.
pub fn a_line_is_read_in_one_way()
    ensures { (design : Parts) (stimulus : InputVectors) (workers others : ℕ) (a b : JournalLine) → HasPlainNames design → IsSmall workers → IsSmall others
        → LineFits design stimulus workers a → LineFits design stimulus others b → line_text design a ≡ line_text design b → a ≡ b }
{}

/// What is printed of a journal that was read is the lines that were read, each with a line feed.
pub fn what_was_read_is_printed_back()
    ensures { (design : Parts) (stimulus : InputVectors) (first_line : ℕ) (text : List ℕ) (journal : JournalOf)
        → IsJournal design stimulus first_line text journal → journal_text design journal ≡ flat_map ended (lines_of text) }
{}

/// A text is one journal at most, one that is a journal has no malformed line, and no two faults are those of a first
/// malformed line, where no name has a space.
pub fn a_text_is_one_journal_or_malformed()
    ensures one { (design : Parts) (stimulus : InputVectors) (first_line : ℕ) (text : List ℕ) (a b : JournalOf) → HasPlainNames design
        → IsJournal design stimulus first_line text a → IsJournal design stimulus first_line text b → a ≡ b }
    ensures either { (design : Parts) (stimulus : InputVectors) (first_line : ℕ) (text : List ℕ) (journal : JournalOf) (fault : FaultOf) → HasPlainNames design
        → IsJournal design stimulus first_line text journal → IsFirstMalformed design stimulus first_line text fault → ⊥ }
    ensures first { (design : Parts) (stimulus : InputVectors) (first_line : ℕ) (text : List ℕ) (a b : FaultOf) → HasPlainNames design
        → IsFirstMalformed design stimulus first_line text a → IsFirstMalformed design stimulus first_line text b → a ≡ b }
{}

/// The text of a journal that fits is cut into its lines, where no name has a byte below the space.
pub fn what_is_printed_is_cut_into_lines()
    ensures { (design : Parts) (stimulus : InputVectors) (journal : JournalOf) → HasShownNames design
        → AllByRecursion (LineFits design stimulus journal.workers) (lines_in journal) → lines_of (journal_text design journal) ≡ map (line_text design) (lines_in journal) }
{}

/// The entries of a journal that was read fit, and each has its line; so each attempt is at a rule of the design and has
/// the stimulus's inputs.
pub fn what_was_read_fits()
    ensures batches { (design : Parts) (stimulus : InputVectors) (first_line : ℕ) (text : List ℕ) (journal : JournalOf)
        → IsJournal design stimulus first_line text journal → AllByRecursion (HasFittingEntries design stimulus journal.workers) journal.batches }
    ensures rule { (design : Parts) (rule : ℕ) → IsRule design rule → rule < length design.rules }
{}
