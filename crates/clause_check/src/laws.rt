//! Refutations: what they are good for.

ghost use Rattle.std.specs.Prelude.{◌≡◌, ℕ, List, None};
ghost use Rattle.clause_check.specs.Clauses.{Cnf, IsUnsatisfiable};
ghost use Rattle.clause_check.specs.Refutations.{fault_of};

/// No assignment satisfies the clauses of a formula that a text refutes.
pub fn a_refuted_formula_is_unsatisfiable()
    ensures { (formula : Cnf) (first_line : ℕ) (text : List ℕ) → fault_of formula first_line text ≡ None → IsUnsatisfiable formula.clauses }
{}
