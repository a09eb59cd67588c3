//! Circuits: what an id stands for: its kind, its width, and whether it depends on inputs or states.

ghost use Rattle.std.specs.Prelude.{◌≡◌, Some};
ghost use Rattle.btor2_model.specs.Scope.{width_wanted};

use btor2_text::ArgumentKind;

/// What a line is for later lines.
#[derive(Clone, Copy, Debug, PartialEq, Eq)]
pub enum Role {
    Sort,
    Value,
    /// A value whose `init` and `next` may come.
    State,
    NoValue,
}

/// What an id stands for.
#[derive(Clone, Copy, Debug, PartialEq, Eq)]
pub struct IdMeaning {
    pub role: Role,
    pub width: u32,
    /// Whether its value depends on an input or a state.
    pub depends: bool,
}

impl IdMeaning {
    /// The width, where this is of the kind that is wanted.
    pub(crate) fn width_wanted(self, kind: ArgumentKind) -> Option<u32>
        ensures { result ≡ width_wanted kind (Some self) }
    {
        match (kind, self.role) {
            (ArgumentKind::Sort, Role::Sort) => Some(self.width),
            (ArgumentKind::Sort, _) => None,
            (_, Role::Value | Role::State) => Some(self.width),
            _ => None,
        }
    }
}
