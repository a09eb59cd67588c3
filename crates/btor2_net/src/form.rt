//! Circuits: the lines that one pass over a file looks at.

ghost use Rattle.std.specs.Prelude.{◌≡◌};
ghost use Rattle.btor2_model.specs.Rules.{rule_of};
ghost use Rattle.btor2_net.specs.inner.Wires.{is_form};

use btor2_model::FormRule;
use btor2_text::Line;

/// The lines that one pass over a text looks at.
#[derive(Clone, Copy, Debug, PartialEq, Eq)]
pub(crate) enum Form {
    Input,
    State,
    Init,
    Next,
    Output,
}

impl Form {
    /// Whether a line is one of them.
    pub(crate) fn is_of(self, line: &Line) -> bool
        ensures { result ≡ is_form self (rule_of line.now.keyword) }
    {
        let rule = FormRule::of(line.keyword);
        match self {
            Form::Input => rule.is_input(),
            Form::State => rule.is_state(),
            Form::Init => rule.is_init(),
            Form::Next => rule.is_next(),
            Form::Output => rule.is_output(),
        }
    }
}
