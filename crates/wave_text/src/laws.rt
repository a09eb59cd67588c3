//! Waves: the laws of dumps. They are proved, and compute nothing.

ghost use Rattle.wave_text.specs.Parts as law;
ghost use Rattle.wave_text.specs.Reading as reading;

/// The head, what is written of the rows, and the ending are the dump of a run.
pub fn a_dump_is_made_in_parts()
    ensures { law.PartsJoin }
{}

/// By the changes of a run's dump each variable has at each time the value that it has in the run, and the clock rises
/// as a cycle begins and falls in its middle.
pub fn a_dump_reads_back()
    ensures variables { reading.ReadsBack }
    ensures clock { reading.ClockReadsBack }
{}
