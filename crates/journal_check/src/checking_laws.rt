//! Journals: laws of good journals and first faults.

// Each law is the contract of a function that does nothing.
ghost use Rattle.journal_check.specs.CheckingLaws as law;
ghost use Rattle.journal_check.specs.Twins as twins;

/// A journal is good or has a fault, and no two faults are its first.
pub fn a_journal_has_one_answer()
    ensures never_both { law.NeverGoodAndFaulty }
    ensures one { law.OneFirstFault }
{}

/// What is read from a text fits as a recheck asks for.
pub fn a_journal_that_was_read_may_be_rechecked()
    ensures { law.ReadJournalsFit }
{}

/// Designs that differ in their rules' bodies alone, and whose rules have the same traces on a stimulus, read, stop,
/// pass and fail the same texts and journals.
pub fn twins_have_the_same_journals()
    ensures read { twins.TwinsReadAlike }
    ensures stop { twins.TwinsStopAlike }
    ensures pass { twins.TwinsPassAlike }
    ensures fail { twins.TwinsFailAlike }
{}
