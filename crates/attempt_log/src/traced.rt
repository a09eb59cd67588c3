//! Engines: attempts, which are traces by their type.

ghost use Rattle.std.specs.Prelude.{◌≡◌, ◌<◌, ◌↔◌, IfOk, IfSome, IsSome, length};
ghost use Rattle.std.specs.Arc.{arc_value};
ghost use Rattle.typed_core.specs.Fits.{EventsFit};
ghost use Rattle.typed_core.specs.Valid.{externs_of};
ghost use Rattle.typed_core.specs.Widths.{HaveWidths, input_widths, register_widths};
ghost use Rattle.one_rule.specs.Externs.{kept};
ghost use Rattle.attempt_log.specs.Attempt.{IsAttempt};
ghost use Rattle.attempt_log.specs.Sources.{AreSources};
ghost use Rattle.attempt_log.specs.Trace.{IsTrace};

use crate::retrace::is_trace;
use crate::sources::sources_of;
use kw_bits::NoMemory;
use one_rule::{Externs, Inputs};
use std::alloc::Global;
use std::marker::Model;
use std::sync::Arc;
use typed_core::{Alone, Design, Events, Outcome};

/// What a rule gave in a cycle on some registers. It is a trace of the rule, whoever made it.
#[derive(Drop)]
pub struct Attempt {
    pub(crate) design: Arc<Design>,
    pub(crate) cycle: u32,
    pub(crate) rule: u32,
    pub(crate) inputs: Inputs,
    pub(crate) run: Alone,
    // Where its reads got their values.
    pub(crate) sources: Vec<usize>,
}

impl Model for Attempt {
    ghost use Rattle.std.specs.Arc.{arc_value};
    ghost use Rattle.std.specs.Coded.{codes};
    ghost use Rattle.typed_core.specs.contracts.action.Action as action;
    ghost use Rattle.attempt_log.specs.Attempt.{Attempted};
    ghost use Rattle.attempt_log.specs.Sources.{KeepsAttempt};

    ghost Value = { Attempted };

    ghost coded = { Prim.hlevel (codes, action.the_row.coded) };

    ghost view = { λ a. record { design = arc_value a.design; cycle = a.cycle; rule = a.rule; inputs = a.inputs; run = a.run } };

    ghost invariant = { λ a. KeepsAttempt (record { design = arc_value a.design; cycle = a.cycle; rule = a.rule; inputs = a.inputs; run = a.run }) a.sources.items };
}

impl Attempt {
    /// The attempt of these events and this outcome, if they are a trace of the rule.
    pub fn of_trace(
        alloc: Global,
        design: Arc<Design>,
        externs: &Externs,
        cycle: u32,
        rule: u32,
        inputs: Inputs,
        events: Events,
        outcome: Outcome,
    ) -> Result<Option<Attempt>, NoMemory>
        requires externs { kept externs.now ≡ externs_of (arc_value design) }
        requires rule { rule < length (arc_value design).rules }
        requires inputs { HaveWidths (input_widths (arc_value design)) inputs }
        ensures some { IfOk result (λ made. IsSome made ↔ IsTrace (arc_value design) rule inputs (record { events = events; outcome = outcome })) }
        ensures attempt { IfOk result (λ made. IfSome made (λ a. a ≡ record {
          design = arc_value design;
          cycle = cycle;
          rule = rule;
          inputs = inputs;
          run = record { events = events; outcome = outcome };
        })) }
    {
        let run = Alone { events, outcome };
        if is_trace(alloc, &design, externs, rule, &inputs, &run)? {
            let sources = sources_of(alloc, &design, &run.events)?;
            Ok(Some(Attempt {
                design,
                cycle,
                rule,
                inputs,
                run,
                sources,
            }))
        } else {
            Ok(None)
        }
    }

    /// What each attempt is by its type: a trace of a rule that its design has. It does nothing, and is called for its
    /// contract.
    pub fn recall(&self)
        ensures { IsAttempt self.now }
    {
        let _ = &self.design;
    }

    /// The design that its rule is of.
    pub fn design(&self) -> &Design
        ensures { result.now ≡ self.now.design }
    {
        &self.design
    }

    /// The cycle that it is for.
    pub fn cycle(&self) -> u32
        ensures { result ≡ self.now.cycle }
    {
        self.cycle
    }

    /// The number of its rule.
    pub fn rule(&self) -> u32
        ensures rule { result ≡ self.now.rule }
        ensures within { result < length self.now.design.rules }
    {
        self.rule
    }

    /// The inputs that it was made on.
    pub fn inputs(&self) -> &Inputs
        ensures inputs { result.now ≡ self.now.inputs }
        ensures fit { HaveWidths (input_widths self.now.design) result.now }
    {
        &self.inputs
    }

    /// What it read and wrote, in order: with its outcome, a trace of its rule.
    pub fn events(&self) -> &Events
        ensures events { result.now ≡ self.now.run.events }
        ensures trace { IsTrace self.now.design self.now.rule self.now.inputs self.now.run }
        ensures fit { EventsFit (register_widths self.now.design) result.now }
    {
        &self.run.events
    }

    // Where the reads among its events got their values.
    pub(crate) fn sources(&self) -> &[usize]
        ensures { AreSources self.now.run.events result.now }
    {
        &self.sources
    }

    /// How its rule ended.
    pub fn outcome(&self) -> &Outcome
        ensures { result.now ≡ self.now.run.outcome }
    {
        &self.run.outcome
    }
}
