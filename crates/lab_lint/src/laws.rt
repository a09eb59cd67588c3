//! Lint: the laws of its lists. Each is proved, and computes nothing.

ghost use Rattle.lab_lint.specs.Laws.{ClashesAreListed, OthersAreWatched, OwnsAreListed};

/// Each refusal of each trial is in the lists.
pub fn refusals_are_listed()
    ensures own { OwnsAreListed }
    ensures clash { ClashesAreListed }
{}

/// An assertion of a rule that may be neither refused nor untried is looked at in each cycle of each run.
pub fn others_are_watched()
    ensures { OthersAreWatched }
{}
