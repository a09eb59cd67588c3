//! The laws of claims. Each is proved, and computes nothing.

ghost use Rattle.std.specs.Prelude.{◌≡◌, ◌⊎◌, ℕ, List, Option};
ghost use Rattle.kw_base.specs.declared.fault.Fault.{Fault};
ghost use Rattle.kw_bits.specs.declared.host.HostSpec.{HostSpec};
ghost use Rattle.lab_certify.specs.Claims.{Claim, Claims, HasNoClaim, InvariantPart};

/// A source claims something, or is refused.
pub fn some_claim()
    ensures { (hosts : List HostSpec) (name : Option (List ℕ)) (part : InvariantPart) (source : List ℕ) →
        ((claim : Claim) × Claims hosts name part source claim)
        ⊎ ((fault : Fault) × HasNoClaim hosts name part source fault) }
{}

/// No source both claims something and is refused.
pub fn claimed_or_refused()
    ensures { (hosts : List HostSpec) (name : Option (List ℕ)) (part : InvariantPart) (source : List ℕ) (claim : Claim)
        (fault : Fault) →
        Claims hosts name part source claim → HasNoClaim hosts name part source fault → ⊥ }
{}

/// A source claims one thing at most.
pub fn one_claim()
    ensures { (hosts : List HostSpec) (name : Option (List ℕ)) (part : InvariantPart) (source : List ℕ) (a b : Claim) →
        Claims hosts name part source a → Claims hosts name part source b → a ≡ b }
{}
