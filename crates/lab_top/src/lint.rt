//! Commands: what is noted of a design before its first run.

ghost use Rattle.std.specs.Prelude.{◌<◌, ◌≤◌, IfOk, length};
ghost use Rattle.std.specs.Arc.{arc_value};
ghost use Rattle.kw_base.specs.Fault.{IfFault};
ghost use Rattle.typed_core.specs.Valid.{IsValid};
ghost use Rattle.one_rule.specs.Hosts.{host_specs};
ghost use Rattle.front_end.specs.Sources.{IsUnspelled, Spells, longest_source};
ghost use Rattle.front_end.specs.Streams.{stream};
ghost use Rattle.front_end.specs.Told.{Told};
ghost use Rattle.lint_text.specs.Findings.{AreFindings, order_of};
ghost use Rattle.lab_top.specs.inner.Lint.{AreNoted, NeverFire, lint_text, pairs_of, pairs_to};

use front_end::{Lowered, Untold, circuit_of, read_source, read_tree, write_text};
use host_fn::HostFn;
use kw_base::Refusal;
use kw_bits::{NoMemory, Sequence};
use kw_io::Sink;
use lint_text::{Findings, Places, never_one, places_in};
use std::alloc::Global;
use stim_report::source_parts;
use typed_core::Design;

/// A design, where its names are, and what is found of it.
#[derive(Drop)]
pub(crate) struct LintRun {
    pub(crate) lowered: Lowered,
    pub(crate) places: Places,
    pub(crate) findings: Findings,
}

impl LintRun {
    /// The design that a source spells and what is found of it, or the fault with which the source is refused.
    pub(crate) fn read(alloc: Global, hosts: &[HostFn], source: &[u8]) -> Result<LintRun, Refusal>
        requires { length source.now ≤ longest_source }
        ensures spelled { IfOk result (λ run.
            Spells (host_specs hosts.now) source.now run.lowered.checked (arc_value run.lowered.stimulus)) }
        ensures valid { IfOk result (λ run. IsValid (arc_value run.lowered.design)) }
        ensures noted { IfOk result (λ run. AreNoted source.now run.lowered.checked run.places run.findings) }
        ensures refused { IfFault result (IsUnspelled (host_specs hosts.now) source.now) }
    {
        let spelled = read_source(alloc, hosts, source)?;
        let parts = source_parts(source);
        let tree = read_tree(alloc, source, parts.design)?;
        let places = places_in(alloc, parts.design, &tree)?;
        let lowered = Lowered::new(alloc, spelled, hosts)?;
        let design: &Design = &lowered.design;
        design.recall();
        let never = never_fire(alloc, &lowered)?;
        let findings = Findings::new(alloc, &lowered.checked, never)?;
        Ok(LintRun {
            lowered,
            places,
            findings,
        })
    }

    /// Writes the lines of all notes, those of pairs of rules rule by rule.
    pub(crate) fn write<K: Sink>(&self, alloc: Global, sink: &mut K) -> Result<(), Untold>
        requires { AreFindings self.now.lowered.checked self.now.findings }
        ensures { Told (lint_text self.now.lowered.checked self.now.places self.now.findings)
            (stream K.written K.faults sink.old sink.new) result }
    {
        let design = &self.lowered.checked;
        let rules = self.findings.rules_text(alloc, design, &self.places)?;
        write_text(sink, rules.as_slice())?;
        self.write_pairs(alloc, sink)?;
        let last = self.findings.last_text(alloc, design, &self.places)?;
        write_text(sink, last.as_slice())
    }

    // Writes the lines of pairs of rules, those of each rule when they were made.
    fn write_pairs<K: Sink>(&self, alloc: Global, sink: &mut K) -> Result<(), Untold>
        requires { AreFindings self.now.lowered.checked self.now.findings }
        ensures { Told (pairs_to self.now.lowered.checked self.now.places (order_of self.now.findings)
            (length self.now.lowered.checked.rules)) (stream K.written K.faults sink.old sink.new) result }
    {
        for rule in 0..self.lowered.checked.rules.len() {
            self.write_part(alloc, rule, sink)?;
        }
        Ok(())
    }

    // Writes those of one rule.
    fn write_part<K: Sink>(&self, alloc: Global, rule: usize, sink: &mut K) -> Result<(), Untold>
        requires found { AreFindings self.now.lowered.checked self.now.findings }
        requires rule { rule < length self.now.lowered.checked.rules }
        ensures { Told (pairs_of self.now.lowered.checked self.now.places (order_of self.now.findings) rule)
            (stream K.written K.faults sink.old sink.new) result }
    {
        let design = &self.lowered.checked;
        let text = self.findings.pairs_text(alloc, design, &self.places, rule)?;
        write_text(sink, text.as_slice())
    }
}

// Marks rules that never fire: those that the design's circuit shows to.
fn never_fire(alloc: Global, lowered: &Lowered) -> Result<Sequence<bool>, NoMemory>
    ensures { IfOk result (NeverFire lowered.now.checked) }
{
    let circuit = circuit_of(alloc, lowered)?;
    let marks = never_one(alloc, &circuit)?;
    Ok(marks)
}
