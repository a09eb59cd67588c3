//! The laws of what a text is read as. They are proved, and compute nothing.

ghost use Rattle.std.specs.Prelude.{◌≡◌, ◌⊎◌, ℕ, List};
ghost use Rattle.kw_base.specs.declared.fault.Fault.{Fault};
ghost use Rattle.btor2_text.specs.Reading.{AreLinesOf, IsFirstFaultOf};
ghost use Rattle.btor2_text.specs.declared.line.Line.{Line};

/// Each text has lines or a first fault.
pub fn a_text_has_lines_or_a_fault()
    ensures { (text : List ℕ) → ((lines : List Line) × AreLinesOf text lines) ⊎ ((fault : Fault) × IsFirstFaultOf text fault) }
{}

/// A text has one list of lines at most, one first fault at most, and never both.
pub fn a_text_is_read_in_one_way()
    ensures lines { (text : List ℕ) (a b : List Line) → AreLinesOf text a → AreLinesOf text b → a ≡ b }
    ensures fault { (text : List ℕ) (a b : Fault) → IsFirstFaultOf text a → IsFirstFaultOf text b → a ≡ b }
    ensures never_both { (text : List ℕ) (lines : List Line) (fault : Fault) → AreLinesOf text lines → ¬ IsFirstFaultOf text fault }
{}
