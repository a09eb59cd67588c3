//! Circuits: the run of a net that is laid out.

ghost use Rattle.std.specs.Prelude.{◌≡◌, ◌+◌, ◌<◌, ◌≤◌, ℕ, List, length, IfNone, IfSome};
ghost use Rattle.kw_bits.specs.BitVector.{BitVector};
ghost use Rattle.kw_bits.specs.Laws.{HasWidth};
ghost use Rattle.net_graph.specs.Laws.{Feeds};
ghost use Rattle.net_graph.specs.Nets.{IsNet, width_at, widths_of};
ghost use Rattle.net_graph.specs.Values.{node_value, value_at, values_of};
ghost use Rattle.circuit_eval.specs.Programs.{HasRoom, IsLaidOut, IsNarrow, Makes, word_at};
ghost use Rattle.circuit_eval.specs.inner.Programs.{Keeps, KeepsAt, MakesNoWord};

use crate::program::Step;
use crate::state_words::StateWords;
use crate::words::{
    add, and, at_most, below, concat, differ, equal, ite, mul, not, or, slice, sub, xor,
};
use kw_bits::Bits;
use net_graph::{Net, NetId, NetOp, value_of};

// The inputs of a step, and the states that it begins with.
#[derive(Clone, Copy)]
struct Sources<'s> {
    inputs: &'s [Bits],
    states: &'s StateWords,
}

/// Runs a net that is laid out: makes the words of its nodes, and the values of wide ones, in order, each once.
pub(crate) fn run_steps(
    net: &Net,
    steps: &[Step],
    inputs: &[Bits],
    states: &StateWords,
    words: &mut [u64],
    wides: &mut [Bits],
)
    requires laid_out { IsLaidOut net.now steps.now }
    requires room { HasRoom net.now words.old wides.old }
    requires feeds { Feeds (record { inputs = inputs.now; states = states.now }) net.now }
    ensures keeps { Keeps net.now words.new wides.new (values_of (record { inputs = inputs.now; states = states.now }) net.now) (length net.now) }
    ensures words { length words.new ≡ length words.old }
    ensures wides { length wides.new ≡ length wides.old }
{
    let sources = Sources { inputs, states };
    for (id, step) in steps.iter().enumerate() {
        match word_of(net, id, step, sources, words, wides) {
            Some(word) => words[id] = word,
            None => make_other(net, id, step, sources, words, wides),
        }
    }
}

// The word of a node by its step, where that makes one.
#[inline(always)]
fn word_of(
    net: &Net,
    id: usize,
    step: &Step,
    sources: Sources,
    words: &[u64],
    wides: &[Bits],
) -> Option<u64>
    requires net { IsNet net.now }
    requires node { id < length net.now }
    requires makes { Makes net.now id step.now }
    requires words { length words.now ≡ length net.now }
    requires feeds { Feeds (record { inputs = sources.inputs.now; states = sources.states.now }) net.now }
    requires keeps { Keeps net.now words.now wides.now (values_of (record { inputs = sources.inputs.now; states = sources.states.now }) net.now) id }
    ensures word { IfSome result (λ word. IsNarrow net.now id × (word ≡ (node_value (record { inputs = sources.entry.inputs.now; states = sources.entry.states.now }) net.now id).number)) }
    ensures none { IfNone result (MakesNoWord step.now) }
{
    match *step {
        Step::Constant(word) => Some(word),
        Step::TakeInput(number) => Some(sources.inputs[number as usize].number() as u64),
        Step::TakeState(number) => Some(sources.states.word(number as usize)),
        Step::Copy(a) => Some(at(words, a)),
        Step::Invert(a, mask) => Some(not(at(words, a), mask)),
        Step::Both(a, b) => Some(and(at(words, a), at(words, b))),
        Step::Either(a, b) => Some(or(at(words, a), at(words, b))),
        Step::OneOf(a, b) => Some(xor(at(words, a), at(words, b))),
        Step::Sum(a, b, mask) => Some(add(at(words, a), at(words, b), mask)),
        Step::Difference(a, b, mask) => Some(sub(at(words, a), at(words, b), mask)),
        Step::Product(a, b, mask) => Some(mul(at(words, a), at(words, b), mask)),
        Step::Equal(a, b) => Some(equal(at(words, a), at(words, b))),
        Step::Unequal(a, b) => Some(differ(at(words, a), at(words, b))),
        Step::Below(a, b) => Some(below(at(words, a), at(words, b))),
        Step::AtMost(a, b) => Some(at_most(at(words, a), at(words, b))),
        Step::Join(a, b, shift) => Some(concat(at(words, a), at(words, b), shift)),
        Step::Cut(a, lower, mask) => Some(slice(at(words, a), lower, mask)),
        Step::Choose(condition, a, b) => Some(ite(
            at(words, condition),
            at(words, a),
            at(words, b),
        )),
        Step::Wide(..) | Step::Other => None,
    }
}

// The word of a node.
#[inline(always)]
fn at(words: &[u64], id: NetId) -> u64
    requires { id < length words.now }
    ensures { result ≡ word_at words.now id }
{
    words[id as usize]
}

// Makes the value of a node by its operator.
fn make_other(
    net: &Net,
    id: usize,
    step: &Step,
    sources: Sources,
    words: &mut [u64],
    wides: &mut [Bits],
)
    requires net { IsNet net.now }
    requires node { id < length net.now }
    requires makes { Makes net.now id step.now }
    requires room { HasRoom net.now words.old wides.old }
    requires feeds { Feeds (record { inputs = sources.inputs.now; states = sources.states.now }) net.now }
    requires keeps { Keeps net.now words.old wides.old (values_of (record { inputs = sources.inputs.now; states = sources.states.now }) net.now) id }
    ensures keeps { Keeps net.now words.new wides.new (values_of (record { inputs = sources.entry.inputs.now; states = sources.entry.states.now }) net.now) (id + 1) }
    ensures words { length words.new ≡ length words.old }
    ensures wides { length wides.new ≡ length wides.old }
{
    let value = value_by_step(net, id, step, sources, words, wides);
    if net.width(id as NetId) <= 64 {
        words[id] = value.number() as u64;
    } else {
        wides[id] = value;
    }
}

// The value of a node: wide operands are lent as they are kept, others are copied.
#[inline(always)]
fn value_by_step(
    net: &Net,
    id: usize,
    step: &Step,
    sources: Sources,
    words: &[u64],
    wides: &[Bits],
) -> Bits
    requires net { IsNet net.now }
    requires node { id < length net.now }
    requires makes { Makes net.now id step.now }
    requires room { HasRoom net.now words.now wides.now }
    requires feeds { Feeds (record { inputs = sources.inputs.now; states = sources.states.now }) net.now }
    requires keeps { Keeps net.now words.now wides.now (values_of (record { inputs = sources.inputs.now; states = sources.states.now }) net.now) id }
    ensures { result ≡ node_value (record { inputs = sources.entry.inputs.now; states = sources.entry.states.now }) net.now id }
{
    match *step {
        Step::Wide(operator, a, b) => {
            value_of(&NetOp::Two(operator, a, b), sources.inputs, &[], wides)
        }
        _ => value_by_operator(net, id, sources, words, wides),
    }
}

// The value of a node by its operator.
fn value_by_operator(net: &Net, id: usize, sources: Sources, words: &[u64], wides: &[Bits]) -> Bits
    requires node { id < length net.now }
    requires room { HasRoom net.now words.now wides.now }
    requires feeds { Feeds (record { inputs = sources.inputs.now; states = sources.states.now }) net.now }
    requires keeps { Keeps net.now words.now wides.now (values_of (record { inputs = sources.inputs.now; states = sources.states.now }) net.now) id }
    ensures { result ≡ node_value (record { inputs = sources.entry.inputs.now; states = sources.entry.states.now }) net.now id }
{
    let op = net.ops()[id];
    match op {
        NetOp::Const(value) => value,
        NetOp::Input(number, _) => sources.inputs[number as usize],
        NetOp::State(number, _) => sources.states.value(number as usize),
        NetOp::One(operator, a) => {
            let operands = [node(net, a, words, wides)];
            value_of(&NetOp::One(operator, 0), sources.inputs, &[], &operands)
        }
        NetOp::Two(operator, a, b) => {
            let operands = [node(net, a, words, wides), node(net, b, words, wides)];
            value_of(&NetOp::Two(operator, 0, 1), sources.inputs, &[], &operands)
        }
        NetOp::Slice(a, upper, lower) => node(net, a, words, wides).slice(upper, lower),
        NetOp::Uext(a, added) => {
            let operands = [node(net, a, words, wides)];
            value_of(&NetOp::Uext(0, added), sources.inputs, &[], &operands)
        }
        NetOp::Sext(a, added) => {
            let operands = [node(net, a, words, wides)];
            value_of(&NetOp::Sext(0, added), sources.inputs, &[], &operands)
        }
        NetOp::Ite(condition, a, b) => {
            if at(words, condition) == 1 {
                node(net, a, words, wides)
            } else {
                node(net, b, words, wides)
            }
        }
    }
}

/// The value of a node, from what is kept.
pub(crate) fn node(net: &Net, id: NetId, words: &[u64], wides: &[Bits]) -> Bits
    requires node { id < length net.now }
    requires room { HasRoom net.now words.now wides.now }
    requires kept { (values : List BitVector) × KeepsAt net.now words.now wides.now values id }
    ensures { (values : List BitVector) → KeepsAt net.now words.now wides.now values id → result ≡ value_at values id }
{
    let width = net.width(id);
    if width > 64 {
        return wides[id as usize];
    }
    match Bits::new(width, words[id as usize] as u128) {
        Some(value) => value,
        None => unreachable!(),
    }
}
