//! Checker: the scheduler.

ghost use Rattle.std.specs.Prelude.{◌≡◌, ◌++◌, ◌∷◌, [], ◌+◌, ◌<◌, ◌&&◌, nat_eq, List, length, IfOk, OnOk};
ghost use Rattle.std.specs.Option.{option_map};
ghost use Rattle.koika_check.specs.inner.Checking.{IsChecker};
ghost use Rattle.koika_check.specs.inner.Outcomes.{Answers};
ghost use Rattle.koika_check.specs.inner.Paths.{IsAt, is_end, next_at};
ghost use Rattle.koika_check.specs.Schedule as nodes;
ghost use Rattle.koika_check.specs.inner.Schedule as inner_nodes;
ghost use Rattle.typed_core.specs.declared.design.Node.{Node as SpecNode};

use crate::checker::Checker;
use crate::path::Path;
use crate::stop::{Stop, stop_at};
use crate::things::Kind;
use koika_syntax::{Choice, Name, Scheduler};
use kw_base::fault_number;
use kw_bits::{Boxed, NoMemory, Sequence};
use typed_core::{Next, Node};

// The nodes as far as they are made, and the path to the next one.
#[derive(Drop)]
struct Nodes {
    made: Sequence<Node>,
    path: Path,
}

/// The nodes of a scheduler.
pub(crate) fn nodes_of(checker: &Checker, of: &Scheduler) -> Result<Sequence<Node>, Stop>
    requires { IsChecker checker.now }
    ensures { Answers (λ nodes found. nodes ≡ found) (nodes.scheduler_nodes of.now checker.now.design [] 0) result }
{
    let mut nodes = Nodes {
        made: Sequence::new(checker.alloc),
        path: Path::new(checker.alloc, checker.design.rules.len())?,
    };
    nodes.scheduler(checker, of)?;
    Ok(nodes.made)
}

impl Nodes {
    // Makes the nodes of a scheduler after the path.
    #[cycle(scheduler)]
    fn scheduler(&mut self, checker: &Checker, of: &Scheduler) -> Result<(), Stop>
        requires checker { IsChecker checker.now }
        requires at { IsAt checker.now self.old }
        ensures kept { OnOk result (IsAt checker.now self.new) }
        ensures path { OnOk result (self.new.path.rules ≡ self.old.path.rules) }
        ensures tells { Answers (λ _ found. self.new.made ≡ self.old.made ++ found) (nodes.scheduler_nodes of.now checker.now.design self.old.path.rules (length self.old.made)) result }
    {
        let before = self.path.len();
        self.names(checker, of.rules.as_slice())?;
        push_row(
            &mut self.made,
            &self.path.rules()[before..],
            of.last.is_none(),
        )?;
        self.last(checker, &of.last)?;
        self.path.leave(before);
        Ok(())
    }

    // Makes the nodes of what is at the end of a scheduler.
    #[cycle(scheduler)]
    fn last(&mut self, checker: &Checker, of: &Option<Boxed<Choice>>) -> Result<(), Stop>
        requires checker { IsChecker checker.now }
        requires at { IsAt checker.now self.old }
        ensures kept { OnOk result (IsAt checker.now self.new) }
        ensures path { OnOk result (self.new.path.rules ≡ self.old.path.rules) }
        ensures tells { Answers (λ _ found. self.new.made ≡ self.old.made ++ found) (nodes.at_the_end (option_map inner_nodes.choice_nodes of.now) checker.now.design self.old.path.rules (length self.old.made)) result }
    {
        match of {
            None => Ok(()),
            Some(choice) => self.choice(checker, choice.get()),
        }
    }

    // Makes the nodes of a choice after the path.
    #[cycle(scheduler)]
    fn choice(&mut self, checker: &Checker, of: &Choice) -> Result<(), Stop>
        requires checker { IsChecker checker.now }
        requires at { IsAt checker.now self.old }
        ensures kept { OnOk result (IsAt checker.now self.new) }
        ensures path { OnOk result (self.new.path.rules ≡ self.old.path.rules) }
        ensures tells { Answers (λ _ found. self.new.made ≡ self.old.made ++ found) (inner_nodes.choice_nodes of.now checker.now.design self.old.path.rules (length self.old.made)) result }
    {
        let before = self.path.len();
        let rule = self.tried(checker, &of.rule)?;
        let number = self.made.len();
        self.made.push(Node {
            rule,
            yes: Next::End,
            no: Next::End,
        })?;
        let first = self.made.len();
        self.scheduler(checker, &of.then)?;
        let middle = self.made.len();
        self.scheduler(checker, &of.otherwise)?;
        let yes = next(first, first < middle)?;
        let no = next(middle, middle < self.made.len())?;
        self.made.set(number, Node { rule, yes, no });
        self.path.leave(before);
        Ok(())
    }

    // Puts rules on the path, one after another.
    fn names(&mut self, checker: &Checker, names: &[Name]) -> Result<(), Stop>
        requires checker { IsChecker checker.now }
        requires at { IsAt checker.now self.old }
        ensures kept { OnOk result (IsAt checker.now self.new) }
        ensures made { OnOk result (self.new.made ≡ self.old.made) }
        ensures count { OnOk result (length self.new.path.rules ≡ length self.old.path.rules + length names.now) }
        ensures tells { Answers (λ _ behind. self.new.path.rules ≡ behind) (nodes.path_behind checker.now.design names.now self.old.path.rules) result }
    {
        for name in names {
            self.tried(checker, name)?;
        }
        Ok(())
    }

    // The rule of this name, which is put on the path.
    fn tried(&mut self, checker: &Checker, name: &Name) -> Result<u32, Stop>
        requires checker { IsChecker checker.now }
        requires at { IsAt checker.now self.old }
        ensures kept { OnOk result (IsAt checker.now self.new) }
        ensures made { OnOk result (self.new.made ≡ self.old.made) }
        ensures path { IfOk result (λ rule. self.new.path.rules ≡ self.old.path.rules ++ rule ∷ []) }
        ensures tells { Answers (λ rule found. rule ≡ found) (nodes.tried checker.now.design self.old.path.rules name.now) result }
    {
        let rule = checker.number_named(Kind::Rule, name)?;
        if self.path.has(rule) {
            return Err(stop_at(fault_number::RULE_TWICE_ON_A_PATH, name.place));
        }
        self.path.push(rule)?;
        Ok(rule)
    }
}

// Adds the nodes of rules one after another. Nothing is after them where they are last.
fn push_row(made: &mut Sequence<Node>, rules: &[u32], is_last: bool) -> Result<(), NoMemory>
    ensures made { OnOk result ((behind : List SpecNode) → is_end behind ≡ is_last → made.new ++ behind ≡ made.old ++ nodes.in_a_row (length made.old) rules.now behind) }
    ensures count { OnOk result (length made.new ≡ length made.old + length rules.now) }
{
    for index in 0..rules.len() {
        let is_end = is_end_of(is_last, index, rules.len());
        let number = made.len();
        if number > u32::MAX as usize {
            return Err(NoMemory);
        }
        let next = next(number + 1, !is_end)?;
        made.push(Node {
            rule: rules[index],
            yes: next,
            no: next,
        })?;
    }
    Ok(())
}

// Whether nothing is after a rule at this index of that many, where nothing is after the last.
fn is_end_of(is_last: bool, index: usize, count: usize) -> bool
    requires { index < count }
    ensures { result ≡ (is_last && nat_eq (index + 1) count) }
{
    is_last && index + 1 == count
}

// The node of this number, if it is there. Numbers run out as memory does.
fn next(number: usize, is_there: bool) -> Result<Next, NoMemory>
    ensures { IfOk result (λ next. next ≡ next_at is_there number) }
{
    if !is_there {
        return Ok(Next::End);
    }
    if number > u32::MAX as usize {
        return Err(NoMemory);
    }
    Ok(Next::Node(number as u32))
}
