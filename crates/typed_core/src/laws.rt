//! Core: laws of accesses, evaluation and designs.

// Each law of accesses, of evaluation and of designs is the contract of a function that does nothing.
ghost use Rattle.typed_core.specs.Laws as law;
ghost use Rattle.typed_core.specs.Same.{DoTheSame, SameDesign};
ghost use Rattle.typed_core.specs.declared.design.Parts.{Parts};

/// Which access of a register cannot follow which, by their ports.
pub fn accesses_clash_by_their_ports()
    ensures read_after_write { law.ReadAfterWrite }
    ensures write_after_read { law.WriteAfterRead }
    ensures write_after_write { law.WriteAfterWrite }
    ensures read_after_read { law.ReadAfterRead }
    ensures other_register { law.OtherRegister }
{}

/// Actions keep what the ports keep at which they are evaluated, whatever stops a rule.
pub fn actions_keep_what_ports_keep<S>()
    ensures append { law.ActionsAppend S }
    ensures fit { law.ActionsFit S }
    ensures alone { law.AlonePorts }
{}

/// Equality by value is an equivalence.
pub fn equality_is_an_equivalence()
    ensures reflexive { (d : Parts) → SameDesign d d }
    ensures symmetric { (d e : Parts) → SameDesign d e → SameDesign e d }
    ensures transitive { (d e f : Parts) → SameDesign d e → SameDesign e f → SameDesign d f }
{}

/// Designs that are equal by value do the same, whatever stops a rule.
pub fn equal_designs_do_the_same<S>()
    ensures { (d e : Parts) → SameDesign d e → DoTheSame S d e }
{}
