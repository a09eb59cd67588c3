//! Circuits: lines that are accepted, by their type.

ghost use Rattle.std.specs.Prelude.{◌≡◌};
ghost use Rattle.btor2_model.specs.Acceptance.{IsAccepted};

use btor2_text::Lines;
use std::marker::Model;

/// Lines that are accepted, seen by contracts as the list of them.
#[derive(Debug, Drop)]
pub struct Btor {
    lines: Lines,
}

impl Model for Btor {
    ghost use Rattle.std.specs.Prelude.{List};
    ghost use Rattle.btor2_text.specs.declared.line.Line.{Line};
    ghost use Rattle.btor2_model.specs.Acceptance.{IsAccepted};

    ghost Value = { List Line };

    ghost view = { λ b. b.lines };

    ghost invariant = { λ b. IsAccepted b.lines };
}

impl Btor {
    // These lines, which are accepted.
    pub(crate) fn new(lines: Lines) -> Btor
        requires { IsAccepted lines }
        ensures { result ≡ lines }
    {
        Btor { lines }
    }

    /// The lines, in order.
    pub fn lines(&self) -> &Lines
        ensures lines { result.now ≡ self.now }
        ensures accepted { IsAccepted self.now }
    {
        &self.lines
    }
}
