//! The law of what a text is cut into. It is proved, and computes nothing.

ghost use Rattle.std.specs.Prelude.{ℕ, ◌⊎◌, List};
ghost use Rattle.kw_base.specs.declared.fault.Fault.{Fault};
ghost use Rattle.koika_syntax.specs.Tokens.{AreTokensOf};
ghost use Rattle.koika_syntax.specs.TokenFaults.{IsFirstTokenFault};
ghost use Rattle.koika_syntax.specs.declared.token.Token.{Token};

/// Each text is cut into tokens or has a first fault.
pub fn tokens_or_fault()
    ensures { (text : List ℕ) → ((tokens : List Token) × AreTokensOf tokens text) ⊎ ((fault : Fault) × IsFirstTokenFault text fault) }
{}
