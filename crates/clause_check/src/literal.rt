//! Clauses: literals.

ghost use Rattle.std.specs.Prelude.{◌≡◌};
ghost use Rattle.clause_check.specs.Clauses.{negation};

/// A variable, numbered from 1, or its negation.
#[derive(Clone, Copy, Debug, PartialEq, Eq)]
pub struct Literal {
    pub variable: u32,
    pub is_negated: bool,
}

impl Literal {
    /// The literal of the other value.
    pub fn negated(self) -> Literal
        ensures { result ≡ negation self }
    {
        Literal {
            variable: self.variable,
            is_negated: !self.is_negated,
        }
    }
}
