//! Checker: how large a design is.

ghost use Rattle.std.specs.Prelude.{◌≡◌};
ghost use Rattle.koika_check.specs.Counts.{counts_of};
ghost use Rattle.koika_check.specs.Typing.{IsTypedDesign};

use crate::checked::Checked;

/// How many registers, rules and scheduler nodes a design has, and its weight.
#[derive(Clone, Copy, Debug, PartialEq, Eq)]
pub struct Counts {
    pub registers: u32,
    pub rules: u32,
    pub nodes: u32,
    pub weight: u32,
}

impl Checked {
    /// How large the design is.
    pub fn counts(&self) -> Counts
        requires { IsTypedDesign self.now }
        ensures { result ≡ counts_of self.now }
    {
        Counts {
            registers: self.registers.len() as u32,
            rules: self.rules.len() as u32,
            nodes: self.nodes.len() as u32,
            weight: self.weight,
        }
    }

    /// The numbers of the rules that must not fire, in order of their declarations.
    pub fn asserts(&self) -> &[u32]
        ensures { result.now ≡ self.now.asserts }
    {
        self.asserts.as_slice()
    }
}
