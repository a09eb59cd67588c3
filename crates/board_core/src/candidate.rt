//! Engines: the candidates for a job, in order.

ghost use Rattle.std.specs.Prelude.{ℕ, ◌<◌, List, length, [], ◌∷◌, ◌++◌, if◌then◌else◌};
ghost use Rattle.board_core.specs.inner.Search.{Finds, HasRule};
ghost use Rattle.typed_core.specs.declared.design.Rule.{Rule};
ghost use Rattle.board_core.specs.declared.candidate.Candidate.{Candidate};

// A pair of a cycle and a scheduler node, by its number and its rule.
#[derive(Clone, Copy)]
pub(crate) struct Candidate {
    pub(crate) cycle: u32,
    pub(crate) node: u32,
    pub(crate) rule: u32,
}

// A search for the candidate of a number: it, or how many are left to go past.
#[derive(Clone, Copy)]
pub(crate) enum Search {
    Found(Candidate),
    Left(u64),
}

impl Search {
    // Goes past a pair, which may be a candidate.
    pub(crate) fn past(self, pair: Candidate, is_candidate: bool) -> Search
        ensures finds { (all : List Candidate) (number : ℕ) → Finds all number self → Finds (all ++ (if is_candidate then pair ∷ [] else [])) number result }
        ensures rule { (rules : List Rule) → HasRule rules self → pair.rule < length rules → HasRule rules result }
    {
        if is_candidate {
            self.past_one(pair)
        } else {
            self
        }
    }

    // Goes past a candidate.
    fn past_one(self, candidate: Candidate) -> Search
        ensures finds { (all : List Candidate) (number : ℕ) → Finds all number self → Finds (all ++ candidate ∷ []) number result }
        ensures rule { (rules : List Rule) → HasRule rules self → candidate.rule < length rules → HasRule rules result }
    {
        match self {
            Search::Found(found) => Search::Found(found),
            Search::Left(left) => {
                if left == 0 {
                    Search::Found(candidate)
                } else {
                    Search::Left(left - 1)
                }
            }
        }
    }
}
