//! The laws of what the lab answers. Each is proved, and computes nothing.

ghost use Rattle.std.specs.Prelude.{◌≡◌, ◌⊎◌, ℕ, List, None, Option, true};
ghost use Rattle.kw_base.specs.declared.fault.Fault.{Fault};
ghost use Rattle.kw_bits.specs.declared.host.HostSpec.{HostSpec};
ghost use Rattle.aig_blast.specs.Aigs.{AigParts};
ghost use Rattle.koika_check.specs.declared.checked.Checked.{Checked};
ghost use Rattle.one_rule.specs.Stimulus.{InputVectors};
ghost use Rattle.front_end.specs.Program.{IsAnswer};
ghost use Rattle.front_end.specs.Sources.{Spells};
ghost use Rattle.lab_certify.specs.Certificates.{fault_in, obligation_in};
ghost use Rattle.lab_certify.specs.Claims.{Claim, Claims, last_part, third_part};
ghost use Rattle.lab_top.specs.Answer.{Answers, IsLikeAnswer, has_one_text, is_answered, lab};
ghost use Rattle.lab_top.specs.Calls.{takes_spelled};
ghost use Rattle.lab_top.specs.Numbers.{AreFaultNumbers};
ghost use Rattle.lab_top.specs.Words.{command_of};
ghost use Rattle.lab_top.specs.declared.answer.LabAnswer.{LabAnswer};
ghost use Rattle.lab_top.specs.declared.answer.LabAnswer.TheVariants.{Refused};
ghost use Rattle.lab_top.specs.declared.words.Command.{Command};
ghost use Rattle.lab_top.specs.declared.words.Command.TheVariants.{Certify, Obligation};

/// Arguments and a source have one answer at most, where the same host functions are handed in, but for `verilog` and
/// `lint`. Of a claim they have one by each bit-level circuit.
pub fn one_answer()
    ensures { (circuit : AigParts) (hosts : List HostSpec) (words : List (List ℕ)) (source : List ℕ) (a b : LabAnswer) →
        has_one_text (command_of words) ≡ true →
        IsAnswer (lab circuit) hosts words source a → IsAnswer (lab circuit) hosts words source b → a ≡ b }
{}

/// All answers to arguments and a source have one status, and are one if they are refusals.
pub fn one_status()
    ensures { (circuit : AigParts) (hosts : List HostSpec) (words : List (List ℕ)) (source : List ℕ) (a b : LabAnswer) →
        IsAnswer (lab circuit) hosts words source a → IsAnswer (lab circuit) hosts words source b → IsLikeAnswer a b }
{}

/// Arguments and a source have an answer, but for `verilog`, `lint`, `obligation` and `certify`.
pub fn some_answer()
    ensures { (circuit : AigParts) (hosts : List HostSpec) (words : List (List ℕ)) (source : List ℕ) →
        is_answered (command_of words) ≡ true →
        (answer : LabAnswer) × IsAnswer (lab circuit) hosts words source answer }
{}

/// `verilog` or `lint` refuses a source, or the source spells a design and a stimulus for it.
pub fn refused_or_spelled()
    ensures { (circuit : AigParts) (hosts : List HostSpec) (command : Command) (source : List ℕ) →
        takes_spelled command ≡ true →
        ((fault : Fault) × Answers circuit hosts command source (Refused fault))
        ⊎ ((design : Checked) × (stimulus : InputVectors) × Spells hosts source design stimulus) }
{}

/// No source both spells a design with a stimulus and is refused by `verilog` or `lint`.
pub fn never_both()
    ensures { (circuit : AigParts) (hosts : List HostSpec) (command : Command) (source : List ℕ) (design : Checked)
        (stimulus : InputVectors) (fault : Fault) → takes_spelled command ≡ true →
        Spells hosts source design stimulus → Answers circuit hosts command source (Refused fault) → ⊥ }
{}

/// `obligation` refuses no source that claims something, and `certify` none whose refutation of its claim, by this
/// circuit, has no fault.
pub fn claims_are_taken()
    ensures obligations { (circuit : AigParts) (hosts : List HostSpec) (name : Option (List ℕ)) (source : List ℕ)
        (claim : Claim) (fault : Fault) → Claims hosts name (last_part source) source claim →
        Answers circuit hosts (Obligation name) source (Refused fault) → ⊥ }
    ensures certificates { (circuit : AigParts) (hosts : List HostSpec) (name : Option (List ℕ)) (source : List ℕ)
        (claim : Claim) (fault : Fault) → Claims hosts name (third_part source) source claim →
        fault_in source (obligation_in circuit claim) ≡ None →
        Answers circuit hosts (Certify name) source (Refused fault) → ⊥ }
{}

/// The lab's own faults have these numbers.
pub fn numbers()
    ensures { AreFaultNumbers }
{}
