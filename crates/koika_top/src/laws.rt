//! The laws of what the program answers. Each is proved, and computes nothing.

ghost use Rattle.std.specs.Prelude.{◌≡◌, ◌≤◌, ◌⊎◌, All, ℕ, List, true};
ghost use Rattle.kw_bits.specs.Host.{TakesWidth};
ghost use Rattle.kw_bits.specs.declared.host.HostSpec.{HostSpec};
ghost use Rattle.kw_base.specs.declared.fault.Fault.{Fault};
ghost use Rattle.koika_check.specs.BitWeights.{bit_weight};
ghost use Rattle.koika_check.specs.declared.checked.Checked.{Checked};
ghost use Rattle.koika_print.specs.Printed.{printed};
ghost use Rattle.koika_syntax.specs.Grammar.{Derives, tree_leaves};
ghost use Rattle.koika_syntax.specs.Tokens.{AreTokensOf};
ghost use Rattle.koika_syntax.specs.declared.token.Token.{Token};
ghost use Rattle.koika_syntax.specs.declared.tree.Tree.{Tree};
ghost use Rattle.one_rule.specs.Stimulus.{InputVectors};
ghost use Rattle.front_end.specs.declared.answer.Answer.{Answer};
ghost use Rattle.front_end.specs.declared.answer.Answer.TheVariants.{Refused, Written};
ghost use Rattle.koika_top.specs.declared.shown.Shown.{Shown};
ghost use Rattle.koika_top.specs.declared.shown.Shown.TheVariants.{Report};
ghost use Rattle.koika_top.specs.Answer.{IsAnswer, IsLikeAnswer, IsSameAnswer, has_one_text, is_answered};
ghost use Rattle.koika_top.specs.Btorsim.{AnswersBtorsim};
ghost use Rattle.front_end.specs.Aigs.{most_bits};
ghost use Rattle.koika_top.specs.Aiger.{AnswersAiger, AnswersRows, IsConvertedOf};
ghost use Rattle.koika_top.specs.Aigsim.{AnswersAigsim};
ghost use Rattle.koika_top.specs.Compile.{AnswersCompile, IsCompiledOf};
ghost use Rattle.koika_top.specs.Generator.{pipeline};
ghost use Rattle.koika_top.specs.Journal.{AnswersJournal, HasJournal};
ghost use Rattle.koika_top.specs.Numbers.{AreFaultNumbers, AreLimits};
ghost use Rattle.koika_top.specs.Reads.{AnswersPrint};
ghost use Rattle.koika_top.specs.Recheck.{AnswersRecheck, HasPartsOf, IsJournaledOf, IsRefusedBefore, MayHaveJournal, SpellsSame};
ghost use Rattle.koika_top.specs.RoundTrip.{PrintedIsReadAgain};
ghost use Rattle.koika_top.specs.Sim.{AnswersSim};
ghost use Rattle.front_end.specs.Sources.{Spells, design_part};
ghost use Rattle.koika_top.specs.Words.{command_of};

/// Arguments and a source have one answer at most, where the same host functions are handed in, but for `compile`,
/// `aiger` and `sim --journal`.
pub fn one_answer()
    ensures { (hosts : List HostSpec) (words : List (List ℕ)) (source : List ℕ) (a b : Answer) →
        has_one_text (command_of words) ≡ true →
        IsAnswer hosts words source a → IsAnswer hosts words source b → IsSameAnswer a b }
{}

/// All answers to arguments and a source have one status, and one text if they are refusals.
pub fn one_status()
    ensures { (hosts : List HostSpec) (words : List (List ℕ)) (source : List ℕ) (a b : Answer) →
        IsAnswer hosts words source a → IsAnswer hosts words source b → IsLikeAnswer a b }
{}

/// Arguments and a source have an answer, but for `compile`, `aiger`, `sim --journal` and `recheck`.
pub fn some_answer()
    ensures { (hosts : List HostSpec) (words : List (List ℕ)) (source : List ℕ) →
        is_answered (command_of words) ≡ true →
        (answer : Answer) × IsAnswer hosts words source answer }
{}

/// `compile` refuses a source, or the source spells a design and a stimulus for it.
pub fn some_circuit()
    ensures { (hosts : List HostSpec) (source : List ℕ) →
        ((fault : Fault) × AnswersCompile hosts source (Refused fault))
        ⊎ ((design : Checked) × (stimulus : InputVectors) × Spells hosts source design stimulus) }
{}

/// No source both spells a design with a stimulus and is refused by `compile`.
pub fn spelled_or_refused()
    ensures { (hosts : List HostSpec) (source : List ℕ) (design : Checked) (stimulus : InputVectors)
        (fault : Fault) →
        Spells hosts source design stimulus → AnswersCompile hosts source (Refused fault) → ⊥ }
{}

/// `aiger` refuses a source, or the source spells a design with few bits and a stimulus for it.
pub fn some_aig()
    ensures { (hosts : List HostSpec) (source : List ℕ) →
        ((fault : Fault) × AnswersAiger hosts source (Refused fault))
        ⊎ ((design : Checked) × (stimulus : InputVectors) × Spells hosts source design stimulus
        × (bit_weight design ≤ most_bits)) }
{}

/// No source both spells a design with few bits and a stimulus and is refused by `aiger`.
pub fn light_or_refused()
    ensures { (hosts : List HostSpec) (source : List ℕ) (design : Checked) (stimulus : InputVectors)
        (fault : Fault) →
        Spells hosts source design stimulus → bit_weight design ≤ most_bits →
        AnswersAiger hosts source (Refused fault) → ⊥ }
{}

/// `btorsim` answers to what `compile` writes of a source, with the source's stimulus, what `sim` answers to the
/// source. Host functions that are offered take operands of their width, as each `HostFn` does.
pub fn compiled_runs_the_same()
    ensures { (hosts : List HostSpec) (source other : List ℕ) (cycles : ℕ) (shown : Shown) (answer : Answer) →
        All (λ (host : HostSpec). TakesWidth host.kind host.in_width) hosts → IsCompiledOf hosts source other →
        AnswersSim hosts cycles shown source answer → AnswersBtorsim cycles shown other answer }
{}

/// `aigsim` answers to what `aiger` writes of a source, with the source's stimulus, what `sim` answers to the source, but for
/// the lines of violated assertions. Host functions that are offered take operands of their width, as each `HostFn` does.
pub fn converted_runs_the_same()
    ensures { (hosts : List HostSpec) (source other : List ℕ) (cycles : ℕ) (shown : Shown) (answer : Answer) →
        All (λ (host : HostSpec). TakesWidth host.kind host.in_width) hosts → IsConvertedOf hosts source other →
        AnswersRows hosts cycles shown source answer → AnswersAigsim cycles shown other answer }
{}

/// `sim --journal` refuses a source, or the source spells a design and a stimulus and has a journal.
pub fn some_journal()
    ensures { (hosts : List HostSpec) (cycles workers : ℕ) (source : List ℕ) →
        ((fault : Fault) × AnswersJournal hosts cycles workers source (Refused fault))
        ⊎ ((design : Checked) × (stimulus : InputVectors) × HasJournal hosts cycles source design stimulus) }
{}

/// No source both spells a design with a stimulus that has a journal and is refused by `sim --journal`.
pub fn journaled_or_refused()
    ensures { (hosts : List HostSpec) (cycles workers : ℕ) (source : List ℕ) (design : Checked)
        (stimulus : InputVectors) (fault : Fault) →
        HasJournal hosts cycles source design stimulus → AnswersJournal hosts cycles workers source (Refused fault) →
        ⊥ }
{}

/// `recheck` refuses a source before its journal is looked at, or the source spells a design and a stimulus that may have
/// a journal.
pub fn some_recheck()
    ensures { (hosts : List HostSpec) (cycles : ℕ) (source : List ℕ) →
        ((fault : Fault) × IsRefusedBefore hosts cycles source fault)
        ⊎ ((design : Checked) × (stimulus : InputVectors) × MayHaveJournal hosts cycles source design stimulus) }
{}

/// `recheck` answers to what `sim --journal` writes of a source, after whatever spells that source's design and a stimulus
/// with the same inputs in every cycle, what `sim` answers to the source. Host functions that are offered take operands of
/// their width, as each `HostFn` does.
pub fn journaled_runs_the_same()
    ensures { (hosts : List HostSpec) (cycles workers : ℕ) (source other : List ℕ) (answer : Answer) →
        All (λ (host : HostSpec). TakesWidth host.kind host.in_width) hosts → 1 ≤ workers → workers ≤ 8 →
        IsJournaledOf hosts cycles workers source other →
        AnswersSim hosts cycles Report source answer → AnswersRecheck hosts cycles other answer }
{}

/// The text of `gen` is a source without a line `%%`. It lexes and parses, and is its own printed text: `print` writes it
/// again. It is the printed text of each tree that derives its tokens.
pub fn generated_as_printed()
    ensures whole { (stages : ℕ) → stages ≤ 100 → design_part (pipeline stages) ≡ pipeline stages }
    ensures shown { (stages : ℕ) → stages ≤ 100 → AnswersPrint (pipeline stages) (Written (pipeline stages)) }
    ensures each { (stages : ℕ) (tokens : List Token) (tree : Tree) →
        stages ≤ 100 → AreTokensOf tokens (pipeline stages) → Derives (pipeline stages) tree tokens →
        pipeline stages ≡ printed (tree_leaves tree) }
{}

/// What is printed of a tree of the grammar is read again as that tree, up to places.
#[tactic(auto, using(crate::proofs::RoundTrip::printed_is_read_again))]
pub fn a_printed_tree_is_read_again()
    ensures { PrintedIsReadAgain }
{}

/// A source of `recheck` with the design and the stimulus of another source, but for line feeds after the design and empty
/// lines after the stimulus, spells the same design, and a stimulus with the same inputs in every cycle.
pub fn joined_spells_the_same()
    ensures { (hosts : List HostSpec) (source other : List ℕ) (design : Checked) (stimulus : InputVectors)
        (parts : HasPartsOf source other) → Spells hosts source design stimulus →
        SpellsSame hosts other design stimulus parts.empty_lines }
{}

/// Faults and limits have these numbers.
pub fn numbers()
    ensures faults { AreFaultNumbers }
    ensures limits { AreLimits }
{}
