//! Engines: laws of cycles and runs.

// Each law of cycles and runs is the contract of a function that does nothing.
ghost use Rattle.one_rule.specs.Laws as law;

/// A run has one row for its start and one for each of its cycles.
#[tactic(auto, using(crate::proofs::Runs::rows_are_cycles))]
pub fn a_run_has_a_row_more_than_its_cycles()
    ensures { law.RowsAreCycles }
{}

/// The scheduler's walk through a cycle reaches the end of its path.
#[tactic(auto, using(crate::proofs::Walks::walks_end))]
pub fn a_walk_comes_to_its_end()
    ensures { law.WalksEnd }
{}

/// No rule fires twice in a cycle.
#[tactic(auto, using(crate::proofs::Walks::fires_once))]
pub fn a_rule_fires_once_in_a_cycle()
    ensures { law.FiresOnce }
{}

/// A rule that is on no path from the root of the scheduler doesn't fire.
pub fn a_rule_on_no_path_does_not_fire()
    ensures cycle { law.FiresOnPath }
    ensures run { law.FiresOnPathInRuns }
{}

/// A rule that is visited and doesn't fire aborts, or makes a write that its own events refuse, or has an event
/// that clashes with one of a rule that fired before; a rule that fires does none of these.
pub fn a_rule_fires_unless_it_is_blocked()
    ensures visit { law.VisitFiresUnlessBlocked }
    ensures unless { law.FiresUnlessBlocked }
    ensures never_both { law.FiresUnblocked }
{}

/// Each row of a run has a value of its width for each register and a flag for each rule.
pub fn each_row_of_a_run_fits()
    ensures { law.RunsFit }
{}

/// A stimulus for the inputs of a design gives them values of their widths in every cycle.
pub fn a_stimulus_gives_inputs_that_fit()
    ensures { law.StimuliFit }
{}

/// A run is the run up to a cycle, and then the run from there on its last registers.
pub fn a_run_is_made_in_parts()
    ensures { law.RunsInParts }
{}

/// Systems whose rules do the same alone have equal cycles and runs.
pub fn systems_that_do_the_same_run_alike()
    ensures cycles { law.SameCycles }
    ensures runs { law.SameRuns }
{}

/// Designs that are equal by value have equal cycles and runs.
pub fn equal_designs_run_alike()
    ensures cycles { law.EqualDesignsCycleAlike }
    ensures runs { law.EqualDesignsRunAlike }
{}

/// A cycle made of port runs, in which the log of each rule that fires joins the scheduler log, leaves the row of the
/// cycle in which rules run whole.
pub fn cycles_of_port_runs_are_cycles()
    ensures { law.PortCyclesAreCycles }
{}
