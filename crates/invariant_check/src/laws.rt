//! Obligations: what they are good for.

ghost use Rattle.std.specs.Prelude.{ℕ, List, IsTrue};
ghost use Rattle.clause_check.specs.Clauses.{Clause, Cnf, IsUnsatisfiable};
ghost use Rattle.aig_blast.specs.Aigs.{AigParts, IsAig};
ghost use Rattle.aig_blast.specs.AigRun.{first_words};
ghost use Rattle.invariant_check.specs.Kept.{IsKeptInEveryRun, SaysWhatBreaks, is_true_of};

/// Where an invariant is true of the first values, and no assignment satisfies a formula that says when a step breaks
/// it or makes a claimed output 1, the invariant is true in each row of every run, and no claimed output is 1.
pub fn a_kept_invariant_holds_in_every_run()
    ensures { (a : AigParts) (invariant : List Clause) (claimed : List ℕ) (formula : Cnf) → IsAig a
        → IsTrue (is_true_of invariant (first_words a.latches)) → SaysWhatBreaks a invariant claimed formula
        → IsUnsatisfiable formula.clauses → IsKeptInEveryRun a invariant claimed }
{}
