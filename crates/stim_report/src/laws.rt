//! Reports: the laws of reports in batches. They are proved, and compute nothing.

// Each law of reports is the contract of a function that does nothing.
ghost use Rattle.stim_report.specs.Batches as law;
ghost use Rattle.stim_report.specs.declared.shape.Shape.{Shape};

/// The report of a run that is made in batches is those of its batches, one after the other.
pub fn a_report_is_made_in_parts()
    ensures part { (shape : Shape) → law.PartsJoin shape }
    ensures batches { (shape : Shape) → law.BatchesJoin shape }
{}
