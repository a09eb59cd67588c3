//! Circuits: what the lines so far declare, and the conditions on the next line.

ghost use Rattle.std.specs.Prelude.{◌≡◌, ◌≤◌, is_some, IfOk, IfErr, IfSome, OnOk, None, Some, option_map, slice_get, unwrap_or};
ghost use Rattle.std.specs.BTreeSet as set;
ghost use Rattle.std.specs.List.{list_all, list_any};
ghost use Rattle.std.specs.Ordering.{nat_cmp};
ghost use Rattle.kw_base.specs.Fault.{IfFault};
ghost use Rattle.btor2_text.specs.Forms.{kinds_of};
ghost use Rattle.btor2_model.specs.Acceptance as acceptance;
ghost use Rattle.btor2_model.specs.inner.Known.{scope_of, AreNarrow};
ghost use Rattle.btor2_model.specs.Rules.{rule_of};
ghost use Rattle.btor2_model.specs.Scope as scope;
ghost use Rattle.btor2_model.specs.declared.meaning.IdMeaning.{IdMeaning as MeaningOf};
ghost use Rattle.btor2_model.specs.declared.meaning.Role.TheVariants as roles;

use crate::arguments::{digits_at, id_at};
use crate::meaning::{IdMeaning, Role};
use crate::numeral::value_below;
use crate::refusal::refusal_at;
use crate::rule::{FormRule, Measures};
use crate::table::Table;
use btor2_text::{Argument, ArgumentKind, Keyword, Line};
use kw_base::{Refusal, fault_number};
use kw_bits::NoMemory;
use std::alloc::Global;
use std::collections::BTreeSet;

/// What the lines so far declare.
#[derive(Drop)]
pub(crate) struct Known {
    meanings: Table<IdMeaning>,
    initialized: BTreeSet<u64>,
    continued: BTreeSet<u64>,
}

impl Known {
    /// Nothing yet, with places for this many low ids.
    pub(crate) fn new(alloc: Global, places: usize) -> Result<Known, NoMemory>
        ensures { IfOk result (λ known. scope_of known ≡ scope.no_lines) }
    {
        Ok(Known {
            meanings: Table::new(alloc, places)?,
            initialized: BTreeSet::new(alloc),
            continued: BTreeSet::new(alloc),
        })
    }

    /// Takes the next line, if it meets all conditions after the others; otherwise the fault of the first that it
    /// doesn't meet.
    pub(crate) fn add(&mut self, line: &Line) -> Result<(), Refusal>
        requires { AreNarrow (scope_of self.old) }
        ensures accepted { OnOk result (acceptance.line_fault (scope_of self.old) line.now ≡ None) }
        ensures declared { OnOk result (scope_of self.new ≡ scope.behind (scope_of self.old) line.now) }
        ensures narrow { OnOk result (AreNarrow (scope_of self.new)) }
        ensures fault { IfFault result (λ fault. option_map (acceptance.fault_in line.now) (acceptance.line_fault (scope_of self.old) line.now) ≡ Some fault) }
    {
        match self.check(line) {
            Ok(meaning) => Ok(self.declare(line, meaning)?),
            Err(number) => Err(refusal_at(number, line)),
        }
    }

    /// Whether a line is a state without a `next`.
    pub(crate) fn lacks_next(&self, line: &Line) -> bool
        ensures { result ≡ acceptance.lacks_next (scope_of self.now) line.now }
    {
        FormRule::of(line.keyword).is_state() && !self.continued.contains(&line.id)
    }

    // What a line stands for, or the number of the first condition that it doesn't meet.
    fn check(&self, line: &Line) -> Result<IdMeaning, u32>
        requires { AreNarrow (scope_of self.now) }
        ensures accepted { OnOk result (acceptance.line_fault (scope_of self.now) line.now ≡ None) }
        ensures meaning { IfOk result (λ meaning. meaning ≡ scope.meaning_of (scope_of self.now) line.now) }
        ensures narrow { IfOk result (λ meaning. meaning.role ≡ roles.Sort → meaning.width ≤ 128) }
        ensures fault { IfErr result (λ number. acceptance.line_fault (scope_of self.now) line.now ≡ Some number) }
    {
        let arguments = line.arguments.as_slice();
        let rule = FormRule::of(line.keyword);
        if self.meaning(line.id).is_some() {
            return Err(fault_number::REPEATED_ID);
        }
        if !self.are_known(arguments) {
            return Err(fault_number::UNDEFINED_ID);
        }
        let Some(measures) = self.agreeing(line.keyword, rule, arguments) else {
            return Err(fault_number::WRONG_SORT);
        };
        if !rule.bounds_fit(measures) {
            return Err(fault_number::SORT_OUT_OF_RANGE);
        }
        if !self.sets_first(rule, arguments) {
            return Err(fault_number::REPEATED_INIT_OR_NEXT);
        }
        if !self.numeral_fits(rule, arguments) {
            return Err(fault_number::CONSTANT_TOO_GREAT);
        }
        if !self.init_is_fixed(rule, arguments) {
            return Err(fault_number::INIT_NOT_CONSTANT);
        }
        Ok(IdMeaning {
            role: rule.role(),
            width: rule.width(measures),
            depends: rule.is_input() || rule.is_state() || self.one_depends(arguments),
        })
    }

    // The widths and numbers of a line, if they belong together as its form asks.
    fn agreeing(&self, keyword: Keyword, rule: FormRule, arguments: &[Argument]) -> Option<Measures>
        requires { rule ≡ rule_of keyword }
        ensures some { IfSome result (λ m. scope.measures (scope_of self.now) (kinds_of keyword) arguments.now ≡ Some m) }
        ensures agrees { is_some result ≡ acceptance.agree (scope_of self.now) keyword arguments.now }
    {
        let measures = self.measures(keyword, arguments)?;
        if self.names_state(rule, arguments) && rule.widths_agree(measures) {
            Some(measures)
        } else {
            None
        }
    }

    // Takes what a line stands for, and the state that it sets.
    fn declare(&mut self, line: &Line, meaning: IdMeaning) -> Result<(), NoMemory>
        requires { meaning ≡ scope.meaning_of (scope_of self.old) line.now }
        ensures { OnOk result (scope_of self.new ≡ scope.behind (scope_of self.old) line.now) }
    {
        let rule = FormRule::of(line.keyword);
        let state = id_at(line.arguments.as_slice(), 1);
        mark(&mut self.initialized, rule.is_init(), state)?;
        mark(&mut self.continued, rule.is_next(), state)?;
        self.meanings.insert(line.id, meaning)
    }

    // What an id stands for.
    fn meaning(&self, id: u64) -> Option<IdMeaning>
        ensures { result ≡ (scope_of self.now).meanings id }
    {
        self.meanings.get(id)
    }

    // The width or the number that an argument at a place stands for; 0 where there is none.
    fn measure(&self, kinds: &[ArgumentKind], arguments: &[Argument], place: usize) -> Option<u32>
        ensures { result ≡ scope.measure (scope_of self.now) (slice_get kinds.now place) (slice_get arguments.now place) }
    {
        match (kinds.get(place), arguments.get(place)) {
            (Some(kind), Some(Argument::Id(id))) => self.meaning(*id)?.width_wanted(*kind),
            (Some(ArgumentKind::Number), Some(Argument::Number(number))) => Some(*number),
            _ => Some(0),
        }
    }

    // The widths and numbers of a line, where sorts and values are where they are wanted.
    fn measures(&self, keyword: Keyword, arguments: &[Argument]) -> Option<Measures>
        ensures { result ≡ scope.measures (scope_of self.now) (kinds_of keyword) arguments.now }
    {
        let kinds = keyword.kinds();
        Some(Measures {
            first: self.measure(kinds, arguments, 0)?,
            second: self.measure(kinds, arguments, 1)?,
            third: self.measure(kinds, arguments, 2)?,
            fourth: self.measure(kinds, arguments, 3)?,
        })
    }

    // Whether an argument names no id, or one of an earlier line.
    fn is_known(&self, argument: &Argument) -> bool
        ensures { result ≡ acceptance.is_known (scope_of self.now) argument.now }
    {
        match argument {
            Argument::Id(id) => self.meaning(*id).is_some(),
            _ => true,
        }
    }

    // Whether all ids that a line names are on earlier lines.
    fn are_known(&self, arguments: &[Argument]) -> bool
        ensures { result ≡ list_all (acceptance.is_known (scope_of self.now)) arguments.now }
    {
        for argument in arguments {
            if !self.is_known(argument) {
                return false;
            }
        }
        true
    }

    // Whether an id stands for what depends on an input or a state.
    fn depends(&self, id: u64) -> bool
        ensures { result ≡ scope.meaning_depends ((scope_of self.now).meanings id) }
    {
        match self.meaning(id) {
            Some(meaning) => meaning.depends,
            None => false,
        }
    }

    // Whether an argument names such an id.
    fn argument_depends(&self, argument: &Argument) -> bool
        ensures { result ≡ scope.argument_depends (scope_of self.now) argument.now }
    {
        match argument {
            Argument::Id(id) => self.depends(*id),
            _ => false,
        }
    }

    // Whether one of a line's arguments does.
    fn one_depends(&self, arguments: &[Argument]) -> bool
        ensures { result ≡ list_any (scope.argument_depends (scope_of self.now)) arguments.now }
    {
        for argument in arguments {
            if self.argument_depends(argument) {
                return true;
            }
        }
        false
    }

    // Whether an id stands for a state.
    fn is_state(&self, id: u64) -> bool
        ensures { result ≡ acceptance.stands_for_state ((scope_of self.now).meanings id) }
    {
        match self.meaning(id) {
            Some(meaning) => matches!(meaning.role, Role::State),
            None => false,
        }
    }

    // Whether an `init` and a `next` name a state.
    fn names_state(&self, rule: FormRule, arguments: &[Argument]) -> bool
        ensures { result ≡ acceptance.names_state rule (scope_of self.now) arguments.now }
    {
        match rule {
            FormRule::Init | FormRule::Next => self.is_state(id_at(arguments, 1)),
            _ => true,
        }
    }

    // Whether the state of an `init` or a `next` has none so far.
    fn sets_first(&self, rule: FormRule, arguments: &[Argument]) -> bool
        ensures { result ≡ acceptance.sets_first rule (scope_of self.now) arguments.now }
    {
        match rule {
            FormRule::Init => !self.initialized.contains(&id_at(arguments, 1)),
            FormRule::Next => !self.continued.contains(&id_at(arguments, 1)),
            _ => true,
        }
    }

    // Whether the value of an `init` depends on no input and no state.
    fn init_is_fixed(&self, rule: FormRule, arguments: &[Argument]) -> bool
        ensures { result ≡ acceptance.init_is_fixed rule (scope_of self.now) arguments.now }
    {
        match rule {
            FormRule::Init => !self.depends(id_at(arguments, 2)),
            _ => true,
        }
    }

    /// The width of what an id stands for, or 0.
    pub(crate) fn width(&self, id: u64) -> u32
        ensures { result ≡ unwrap_or (option_map (λ (meaning : MeaningOf). meaning.width) ((scope_of self.now).meanings id)) 0 }
    {
        match self.meaning(id) {
            Some(meaning) => meaning.width,
            None => 0,
        }
    }

    /// The width of the sort that an id names, or 0.
    pub(crate) fn sort_width(&self, id: u64) -> u32
        requires { AreNarrow (scope_of self.now) }
        ensures width { result ≡ scope.sort_width_in (scope_of self.now) id }
        ensures narrow { result ≤ 128 }
    {
        match self.meaning(id) {
            Some(meaning) => meaning.width_wanted(ArgumentKind::Sort).unwrap_or(0),
            None => 0,
        }
    }

    // Whether the numeral of a constant is below 2 to its width.
    fn numeral_fits(&self, rule: FormRule, arguments: &[Argument]) -> bool
        requires { AreNarrow (scope_of self.now) }
        ensures { result ≡ acceptance.numeral_fits rule (scope_of self.now) arguments.now }
    {
        match rule {
            FormRule::Numeral(base) => {
                let width = self.sort_width(id_at(arguments, 0));
                value_below(digits_at(arguments, 1), base, width).is_some()
            }
            _ => true,
        }
    }
}

// Takes a state among others, where it is set now.
fn mark(states: &mut BTreeSet<u64>, now: bool, state: u64) -> Result<(), NoMemory>
    ensures { OnOk result (set.contains nat_cmp states.new ≡ scope.set_now now (set.contains nat_cmp states.old) state) }
{
    if now {
        states.insert(state)?;
    }
    Ok(())
}
