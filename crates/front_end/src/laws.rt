//! The laws of what sources spell and of designs' circuits. Each is proved, and computes nothing.

ghost use Rattle.std.specs.Prelude.{◌≡◌, ℕ, List, map};
ghost use Rattle.aig_blast.specs.Aigs.{AigParts};
ghost use Rattle.aig_blast.specs.AigRun.{first_words};
ghost use Rattle.circuit_eval.specs.Run.{first_states};
ghost use Rattle.circuit_eval.specs.declared.circuit.Wires.{Wires};
ghost use Rattle.kw_bits.specs.declared.host.HostSpec.{HostSpec};
ghost use Rattle.koika_check.specs.Typing.{IsTypedDesign};
ghost use Rattle.koika_check.specs.declared.checked.Checked.{Checked};
ghost use Rattle.koika_check.specs.declared.checked.Register.{Register};
ghost use Rattle.front_end.specs.Aigs.{IsAigOf};
ghost use Rattle.front_end.specs.Circuits.{IsWiredAs};
ghost use Rattle.front_end.specs.Names.{AreDistinct, global_names, names_of};
ghost use Rattle.front_end.specs.Sources.{SpellsDesign};
ghost use Rattle.front_end.specs.Systems.{first_values};

/// No two names that a design declares are equal, whatever they name: also among its inputs, rules and registers, and
/// among its registers.
pub fn names_are_distinct()
    ensures global { (hosts : List HostSpec) (source : List ℕ) (design : Checked) →
        SpellsDesign hosts source design → AreDistinct (global_names design) }
    ensures shown { (hosts : List HostSpec) (source : List ℕ) (design : Checked) →
        SpellsDesign hosts source design → AreDistinct (names_of design) }
    ensures registers { (hosts : List HostSpec) (source : List ℕ) (design : Checked) →
        SpellsDesign hosts source design → AreDistinct (map (λ (r : Register). r.name) design.registers) }
{}

/// The first values of a well typed design's circuits are those of the design's registers.
pub fn circuits_have_the_first_values()
    ensures words { (d : Checked) (c : Wires) → IsTypedDesign d → IsWiredAs d c → first_states c.states ≡ first_values d }
    ensures bits { (d : Checked) (aig : AigParts) → IsTypedDesign d → IsAigOf d aig → first_words aig.latches ≡ first_values d }
{}
