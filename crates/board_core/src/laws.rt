//! Engines: laws of boards and histories.

// Each law of boards is the contract of a function that does nothing.
ghost use Rattle.board_core.specs.Laws as law;

/// Whatever events come, a board is at a plain position, and its rows are the first rows of the run.
pub fn every_list_of_events_keeps_a_plain_position()
    ensures { law.KeepsPlain }
{}

/// A board that is past its last cycle has the rows of the whole run.
pub fn a_board_past_its_end_has_the_run()
    ensures { law.EndsWithRun }
{}

/// A rule that is committed fires where the walk is, and one that is skipped doesn't.
pub fn a_settled_rule_is_told_by_its_firing()
    ensures { law.SettlesByFiring }
{}

/// An attempt that is made on the head's job, submitted and settled with no other event between, is never stale.
pub fn a_head_is_never_stale()
    ensures { law.HeadNeverStale }
{}

/// Up to the last cycle, with no attempt at the head's rule, pick 0 gives the head's job; the attempt that does it is
/// stored, and the next settle commits or skips it.
pub fn a_head_settles_by_its_job()
    ensures first { law.HeadComesFirst }
    ensures settles { law.HeadSettles }
{}

/// An attempt comes late, or ahead, or twice, and never two of these.
pub fn refusals_exclude_one_another()
    ensures { law.RefusalsExclude }
{}

/// Each rule that is committed or skipped and each cycle that is closed lowers what is left to do; nothing raises it.
pub fn a_board_that_goes_on_has_less_left()
    ensures settle { law.GoingOnLowers }
    ensures submit { law.SubmitsKeep }
{}

/// On the board of an opening an attempt that is a trace, for its design and stimulus, may be submitted. So a history
/// is legal exactly where its attempts are traces of rules, on the stimulus's inputs, and its answers the board's.
pub fn a_history_is_legal_by_its_traces_and_answers()
    ensures submits { law.TracesSubmit }
    ensures legal { law.LegalByTraces }
{}

/// A legal history goes on by what the board after it answers, and a front of one is legal.
pub fn a_legal_history_goes_on()
    ensures alike { law.SubmitsAlike }
    ensures more { law.LegalGoesOn }
    ensures front { law.FrontIsLegal }
{}

/// A legal history leaves a board at a plain position.
pub fn a_legal_history_leaves_a_plain_board()
    ensures { law.HistoriesArePlain }
{}
