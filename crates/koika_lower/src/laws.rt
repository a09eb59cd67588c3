//! A law of what designs are lowered to. It is proved, and computes nothing.

ghost use Rattle.koika_lower.specs.TwoLowerings.{LoweringsDoAlike};

/// All designs of the core that one typed design is lowered to differ in the bodies of their rules alone, and these have
/// the same events and outcome at all ports that fit the registers.
pub fn lowerings_do_alike()
    ensures { LoweringsDoAlike }
{}
