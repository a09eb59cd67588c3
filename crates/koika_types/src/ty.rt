//! Language: the types of the source language.

ghost use Rattle.std.specs.Prelude.{◌↔◌, IsTrue};
ghost use Rattle.koika_types.specs.Types.{SameTy};

/// A type of the source language.
#[derive(Debug, PartialEq, Eq, Drop)]
pub enum Ty {
    /// Bit vectors of this width.
    Bits(u32),
    /// The enum of this number.
    Enum(u32),
    /// The struct of this number.
    Struct(u32),
    /// This many items of a type.
    Array(Box<Ty>, u32),
}

impl Ty {
    /// Whether the types are the same.
    pub fn is_same(&self, other: &Ty) -> bool
        ensures { IsTrue result ↔ SameTy self.now other.now }
    {
        self == other
    }
}
