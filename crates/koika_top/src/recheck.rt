//! Journals: a source's journal is rechecked, and the run that it certifies reported.

ghost use Rattle.std.specs.Prelude.{◌≡◌, ◌≤◌, ◌<◌, IfOk, length};
ghost use Rattle.std.specs.Arc.{arc_value};
ghost use Rattle.std.specs.List.{AllByRecursion};
ghost use Rattle.kw_base.specs.Fault.{IfFault};
ghost use Rattle.koika_check.specs.Typing.{IsTypedDesign};
ghost use Rattle.journal_check.specs.Checking.{BatchFits, IsFirstJournalFault, IsGood};
ghost use Rattle.one_rule.specs.Hosts.{host_specs};
ghost use Rattle.one_rule.specs.Stimulus.{inputs_of};
ghost use Rattle.stim_report.specs.Shapes.{RowsFit};
ghost use Rattle.koika_top.specs.Recheck.{IsRefusedBefore, IsUncertified, MayHaveJournal, ShowsChecked};
ghost use Rattle.front_end.specs.Certified.{longest_certified, parts_of};
ghost use Rattle.front_end.specs.Marks.{marks_of};
ghost use Rattle.koika_top.specs.Sim.{text_of_rows};
ghost use Rattle.front_end.specs.Systems.{run_of};
ghost use Rattle.koika_top.specs.declared.shown.Shown.TheVariants as showns;

use crate::journal_run::is_too_heavy;
use crate::shown::Shown;
use crate::teller::Teller;
use crate::watch::watch_of;
use front_end::{
    CertifiedParts, Lowered, certified_parts, fault_of_source, is_too_long_for, spell_parts,
};
use host_fn::HostFn;
use journal_check::{Journal, read_journal, recheck};
use kw_base::{Refusal, fault_number};
use kw_bits::{NoMemory, Text};
use one_rule::{Rows, Stimulus};
use std::alloc::Global;
use std::sync::Arc;
use typed_core::Design;

/// The report of the run that a source's journal certifies, or the source's first fault.
pub(crate) fn recheck_source(
    alloc: Global,
    hosts: &[HostFn],
    cycles: u32,
    source: &[u8],
) -> Result<Text, Refusal>
    requires { length source.now ≤ longest_certified }
    ensures text { IfOk result (ShowsChecked (host_specs hosts.now) cycles source.now) }
    ensures refused { IfFault result (IsUncertified (host_specs hosts.now) cycles source.now) }
{
    let parts = certified_parts(source);
    let lowered = lower_parts(alloc, hosts, cycles, source, parts)?;
    let design: &Design = &lowered.design;
    let stimulus: &Stimulus = &lowered.stimulus;
    let journal = read_journal(
        alloc,
        parts.certificate,
        parts.certificate_line,
        design,
        stimulus,
    )?;
    let rows = certified_rows(alloc, &lowered, journal, cycles)?;
    let text = report_rows(alloc, &lowered, &rows)?;
    Ok(text)
}

// The design and the stimulus that the first two parts spell, lowered, if that many cycles may have a journal.
fn lower_parts(
    alloc: Global,
    hosts: &[HostFn],
    cycles: u32,
    source: &[u8],
    parts: CertifiedParts<'_>,
) -> Result<Lowered, Refusal>
    requires short { length source.now ≤ longest_certified }
    requires design { parts.design.now ≡ (parts_of source.now).design }
    requires stimulus { parts.stimulus.now ≡ (parts_of source.now).stimulus }
    requires stimulus_line { parts.stimulus_line ≡ (parts_of source.now).stimulus_line }
    ensures lowered { IfOk result (λ lowered.
        MayHaveJournal (host_specs hosts.now) cycles source.now lowered.checked (arc_value lowered.stimulus)) }
    ensures typed { IfOk result (λ lowered. IsTypedDesign lowered.checked) }
    ensures refused { IfFault result (IsRefusedBefore (host_specs hosts.now) cycles source.now) }
{
    let spelled = spell_parts(alloc, hosts, source, parts)?;
    if is_too_long_for(cycles as u64, &spelled.design) {
        return Err(Refusal::Fault(fault_of_source(fault_number::RUN_TOO_LONG)));
    }
    if is_too_heavy(cycles, &spelled.design) {
        return Err(Refusal::Fault(fault_of_source(fault_number::JOURNAL_TOO_LONG)));
    }
    let lowered = Lowered::new(alloc, spelled, hosts)?;
    Ok(lowered)
}

// The rows of the run that a journal of the design certifies, or the journal's first fault.
fn certified_rows(
    alloc: Global,
    lowered: &Lowered,
    journal: Journal,
    cycles: u32,
) -> Result<Rows, Refusal>
    requires last { cycles ≤ 16777216 }
    requires fits { AllByRecursion (BatchFits (arc_value lowered.now.design) (arc_value lowered.now.stimulus)) journal.batches }
    ensures good { IfOk result (λ rows. IsGood (arc_value lowered.now.design) (arc_value lowered.now.stimulus) cycles journal) }
    ensures run { IfOk result (λ rows. rows ≡ run_of lowered.now.checked (inputs_of (arc_value lowered.now.stimulus)) cycles) }
    ensures fit { IfOk result (RowsFit lowered.now.shape) }
    ensures fault { IfFault result (IsFirstJournalFault (arc_value lowered.now.design) (arc_value lowered.now.stimulus) cycles journal) }
{
    let core: &Design = &lowered.design;
    let inputs: &Stimulus = &lowered.stimulus;
    core.recall();
    inputs.recall();
    let design = Arc::try_clone(&lowered.design)?;
    let externs = Arc::try_clone(&lowered.externs)?;
    let stimulus = Arc::try_clone(&lowered.stimulus)?;
    recheck(alloc, design, externs, stimulus, journal, cycles)
}

// The report of rows of the design, and after it which marked rules fired.
fn report_rows(alloc: Global, lowered: &Lowered, rows: &Rows) -> Result<Text, NoMemory>
    requires typed { IsTypedDesign lowered.now.checked }
    requires some { 0 < length rows.now }
    requires fit { RowsFit lowered.now.shape rows.now }
    ensures { IfOk result (λ text. text ≡ text_of_rows showns.Report lowered.now.shape (marks_of lowered.now.checked) rows.now) }
{
    let watch = watch_of(alloc, &lowered.checked)?;
    let mut teller = Teller::new(alloc, &lowered.shape, Shown::Report, watch)?;
    let mut text = teller.take(alloc, &lowered.shape, rows, 0)?;
    let ending = teller.ending(alloc)?;
    text.extend_from_slice(ending.as_slice())?;
    Ok(text)
}
