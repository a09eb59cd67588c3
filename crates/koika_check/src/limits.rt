//! Checker: limits of designs.

ghost use Rattle.std.specs.Prelude.{◌≡◌, ◌++◌, List, ℕ, slice_get};
ghost use Rattle.std.specs.List.{flat_map};
ghost use Rattle.std.specs.Option.{option_map, option_to_list};
ghost use Rattle.koika_check.specs.Capped.{capped};
ghost use Rattle.koika_check.specs.Checks as checks;
ghost use Rattle.koika_check.specs.inner.Checks as inner_checks;
ghost use Rattle.koika_check.specs.Outcomes as outcomes;
ghost use Rattle.koika_check.specs.inner.Places.{or_further, place_of_kind};
ghost use Rattle.koika_check.specs.Sizes.{Size};

use crate::measure::{MAX_DEPTH, MAX_WEIGHT, Measure};
use crate::stop::{Wrong, unless};
use koika_syntax::{Choice, Declaration, Name, Scheduler, Tree};
use kw_base::fault_number;
use kw_bits::Boxed;
use typed_core::limits::{MAX_INPUTS, MAX_NODES, MAX_REGISTERS, MAX_RULES};

/// What is declared at most that many times.
#[derive(Clone, Copy)]
pub(crate) enum Kind {
    Register,
    Rule,
    Input,
}

/// What is wrong with a tree of a design of this measure, by the limits.
pub(crate) fn limits(tree: &Tree, measure: Measure) -> Option<Wrong>
    ensures { (size : Size) → measure ≡ capped size → result ≡ checks.limits tree.now size }
{
    earlier(counts_within(tree), size_within(tree.schedule, measure))
}

// What is wrong with the numbers of registers, rules, inputs and nodes.
fn counts_within(tree: &Tree) -> Option<Wrong>
    ensures { result ≡ checks.counts_within tree.now }
{
    let declarations = tree.declarations.as_slice();
    let registers = surplus(
        fault_number::TOO_MANY_REGISTERS,
        nth_of_kind(declarations, Kind::Register, MAX_REGISTERS),
    );
    let rules = surplus(
        fault_number::TOO_MANY_RULES,
        nth_of_kind(declarations, Kind::Rule, MAX_RULES),
    );
    let inputs = surplus(
        fault_number::TOO_MANY_INPUTS,
        nth_of_kind(declarations, Kind::Input, MAX_INPUTS),
    );
    let nodes = surplus(
        fault_number::TOO_MANY_NODES,
        nth_node(&tree.scheduler, MAX_NODES),
    );
    earlier(registers, earlier(rules, earlier(inputs, nodes)))
}

// What is wrong with the weight and the depth.
fn size_within(schedule: u32, measure: Measure) -> Option<Wrong>
    ensures { (size : Size) → measure ≡ capped size → result ≡ checks.size_within schedule size }
{
    earlier(
        unless(
            measure.weight <= MAX_WEIGHT,
            fault_number::TOO_HEAVY,
            schedule,
        ),
        unless(measure.depth <= MAX_DEPTH, fault_number::TOO_DEEP, schedule),
    )
}

// The first of two faults.
fn earlier(first: Option<Wrong>, second: Option<Wrong>) -> Option<Wrong>
    ensures { result ≡ outcomes.earlier first second }
{
    match first {
        Some(wrong) => Some(wrong),
        None => second,
    }
}

// The fault at the place of the first thing too many, if there is one.
fn surplus(number: u32, place: Option<u32>) -> Option<Wrong>
    ensures { result ≡ checks.surplus number place }
{
    match place {
        Some(place) => Some(Wrong::new(number, place)),
        None => None,
    }
}

// Where the name of a declaration of this kind stands, after that many others.
fn nth_of_kind(declarations: &[Declaration], kind: Kind, count: usize) -> Option<u32>
    ensures { result ≡ slice_get (flat_map (place_of_kind kind) declarations.now) count }
{
    let mut left = count;
    for declaration in declarations {
        if let Some(place) = place_of_kind(declaration, kind) {
            if left == 0 {
                return Some(place);
            }
            left -= 1;
        }
    }
    None
}

// Where the name of a declaration stands, if it is of this kind.
fn place_of_kind(of: &Declaration, kind: Kind) -> Option<u32>
    ensures { option_to_list result ≡ place_of_kind kind of.now }
{
    match (kind, of) {
        (Kind::Register, Declaration::Register { name, .. }) => Some(name.place),
        (Kind::Rule, Declaration::Rule { name, .. }) => Some(name.place),
        (Kind::Input, Declaration::Input { name, .. }) => Some(name.place),
        _ => None,
    }
}

// Where the name of a rule is in a scheduler, after that many others.
fn nth_node(of: &Scheduler, count: usize) -> Option<u32>
    ensures { result ≡ slice_get (checks.scheduler_places of.now) count }
{
    let mut left = count;
    in_scheduler(of, &mut left)
}

// The same, or how many names are left to be found after it.
#[cycle(places)]
fn in_scheduler(of: &Scheduler, left: &mut usize) -> Option<u32>
    ensures { (behind : List ℕ) → slice_get (checks.scheduler_places of.now ++ behind) left.old ≡ or_further result behind left.new }
{
    match in_row(of.rules.as_slice(), left) {
        Some(place) => Some(place),
        None => in_last(&of.last, left),
    }
}

#[cycle(places)]
fn in_last(of: &Option<Boxed<Choice>>, left: &mut usize) -> Option<u32>
    ensures { (behind : List ℕ) → slice_get (checks.places_if (option_map inner_checks.choice_places of.now) ++ behind) left.old ≡ or_further result behind left.new }
{
    match of {
        None => None,
        Some(choice) => in_choice(choice.get(), left),
    }
}

#[cycle(places)]
fn in_choice(of: &Choice, left: &mut usize) -> Option<u32>
    ensures { (behind : List ℕ) → slice_get (inner_checks.choice_places of.now ++ behind) left.old ≡ or_further result behind left.new }
{
    if *left == 0 {
        return Some(of.rule.place);
    }
    *left -= 1;
    match in_scheduler(&of.then, left) {
        Some(place) => Some(place),
        None => in_scheduler(&of.otherwise, left),
    }
}

fn in_row(names: &[Name], left: &mut usize) -> Option<u32>
    ensures { (behind : List ℕ) → slice_get (checks.places_of names.now ++ behind) left.old ≡ or_further result behind left.new }
{
    if *left < names.len() {
        return Some(names[*left].place);
    }
    *left -= names.len();
    None
}
