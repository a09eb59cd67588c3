//! The nodes of a net as words of literals.

ghost use Rattle.std.specs.Prelude.{◌≡◌, ◌+◌, ◌<◌, ◌≤◌, ◌∷◌, [], length, IfOk, if◌then◌else◌};
ghost use Rattle.net_graph.specs.Nets.{Stands};
ghost use Rattle.net_graph.specs.Operators.{ite_value, one_at, one_value, sext_value, TakesTwo, two_value, uext_value};
ghost use Rattle.net_graph.specs.Values.{AllRead, op_value, Reads, values_of};
ghost use Rattle.kw_bits.specs.Operators as op;
ghost use Rattle.aig_blast.specs.Graphs.{IsLit};
ghost use Rattle.aig_blast.specs.inner.Nodes.{AreWords, IsWord, lengths, MakesNodes, sources_of, words_bits};
ghost use Rattle.aig_blast.specs.Words.{bits, MakesBits};

use crate::arithmetic::{add, mul, neg, sub};
use crate::bitwise::Pair;
use crate::gate::{Lit, not};
use crate::graph::Graph;
use crate::operators::{concat, ite, pairwise, reduced, sext, slice, slte, turned, uext, ulte};
use crate::parts::constant;
use crate::shifts::{sll, sra, srl};
use crate::sources::Word;
use crate::tests_of_words::{equal, slt, ult};
use kw_bits::{Bits, NoMemory, Sequence};
use net_graph::{Net, NetOne, NetOp, NetTwo};
use std::alloc::Global;

/// The words of a net's nodes, in order, over those of inputs and states.
pub(crate) fn node_words(
    graph: &mut Graph,
    alloc: Global,
    net: &Net,
    inputs: &[Word],
    states: &[Word],
) -> Result<Sequence<Word>, NoMemory>
    requires inputs { AreWords graph.old inputs.now }
    requires states { AreWords graph.old states.now }
    requires reads { AllRead (lengths inputs.now) (lengths states.now) net.now }
    ensures { IfOk result (λ words. MakesNodes graph.old graph.new inputs.now states.now words (λ s. values_of s net.now)) }
{
    let mut words: Sequence<Word> = Sequence::new(alloc);
    for op in net.ops() {
        let word = node_word(graph, alloc, op, inputs, states, words.as_slice())?;
        words.push(Sequence::from_vec(word))?;
    }
    Ok(words)
}

// The word of an operator over nodes of these words.
fn node_word(
    graph: &mut Graph,
    alloc: Global,
    op: &NetOp,
    inputs: &[Word],
    states: &[Word],
    before: &[Word],
) -> Result<Vec<Lit>, NoMemory>
    requires inputs { AreWords graph.old inputs.now }
    requires states { AreWords graph.old states.now }
    requires before { AreWords graph.old before.now }
    requires stands { Stands (lengths before.now) op.now }
    requires reads { Reads (lengths inputs.now) (lengths states.now) op.now }
    ensures { IfOk result (λ r. MakesBits graph.old graph.new r.items (λ i. op_value (sources_of i graph.old inputs.now states.now) (words_bits i graph.old before.now) op.now)) }
{
    match *op {
        NetOp::Const(value) => constant(alloc, value),
        NetOp::Input(number, _) => copied(alloc, inputs[number as usize].as_slice()),
        NetOp::State(number, _) => copied(alloc, states[number as usize].as_slice()),
        NetOp::One(operator, a) => one(graph, alloc, operator, before[a as usize].as_slice()),
        NetOp::Two(operator, a, b) => {
            let (a, b) = (before[a as usize].as_slice(), before[b as usize].as_slice());
            two(graph, alloc, operator, a, b)
        }
        NetOp::Slice(a, upper, lower) => {
            let a = before[a as usize].as_slice();
            slice(alloc, a, upper as usize, lower as usize)
        }
        NetOp::Uext(a, added) => {
            let word = uext(alloc, before[a as usize].as_slice(), added as usize)?;
            Ok(word)
        }
        NetOp::Sext(a, added) => {
            let word = sext(alloc, before[a as usize].as_slice(), added as usize)?;
            Ok(word)
        }
        NetOp::Ite(condition, a, b) => {
            let (a, b) = (before[a as usize].as_slice(), before[b as usize].as_slice());
            let word = ite(graph, alloc, before[condition as usize].as_slice()[0], a, b)?;
            Ok(word)
        }
    }
}

// A copy of a word.
fn copied(alloc: Global, a: &[Lit]) -> Result<Vec<Lit>, NoMemory>
    ensures { IfOk result (λ r. r.items ≡ a.now) }
{
    Ok(Vec::from_slice(alloc, a)?)
}

// A word of one bit.
fn flag(alloc: Global, lit: Lit) -> Result<Vec<Lit>, NoMemory>
    ensures { IfOk result (λ r. r.items ≡ lit ∷ []) }
{
    Ok(Vec::from_slice(alloc, &[lit])?)
}

// The number 1 at a width.
fn one_of(width: u32) -> Bits
    requires some { 1 ≤ width }
    requires most { width ≤ 128 }
    ensures { result ≡ one_at width }
{
    Bits::new(width, 1).unwrap()
}

// The word of an operator on one word.
#[tactic(auto, unfolding(net_graph::specs::Operators::one_value))]
fn one(graph: &mut Graph, alloc: Global, operator: NetOne, a: &[Lit]) -> Result<Vec<Lit>, NoMemory>
    requires { IsWord graph.old a.now }
    ensures { IfOk result (λ r. MakesBits graph.old graph.new r.items (λ i. one_value operator (bits i graph.old a.now))) }
{
    match operator {
        NetOne::Not => turned(alloc, a),
        NetOne::Neg => neg(graph, alloc, a),
        NetOne::Inc => {
            let one = constant(alloc, one_of(a.len() as u32))?;
            let made = add(graph, alloc, a, &one)?;
            Ok(made)
        }
        NetOne::Dec => {
            let one = constant(alloc, one_of(a.len() as u32))?;
            let made = sub(graph, alloc, a, &one)?;
            Ok(made)
        }
        NetOne::RedAnd => {
            let lit = reduced(graph, Pair::And, a)?;
            flag(alloc, lit)
        }
        NetOne::RedOr => {
            let lit = reduced(graph, Pair::Or, a)?;
            flag(alloc, lit)
        }
        NetOne::RedXor => {
            let lit = reduced(graph, Pair::Xor, a)?;
            flag(alloc, lit)
        }
    }
}

// The word of an operator on two words.
#[tactic(auto, unfolding(net_graph::specs::Operators::two_value, net_graph::specs::Operators::TakesTwo))]
fn two(
    graph: &mut Graph,
    alloc: Global,
    operator: NetTwo,
    a: &[Lit],
    b: &[Lit],
) -> Result<Vec<Lit>, NoMemory>
    requires takes { TakesTwo operator (length a.now) (length b.now) }
    requires a { IsWord graph.old a.now }
    requires b { IsWord graph.old b.now }
    ensures { IfOk result (λ r. MakesBits graph.old graph.new r.items (λ i. two_value operator (bits i graph.old a.now) (bits i graph.old b.now))) }
{
    match operator {
        NetTwo::And => pairwise(graph, alloc, Pair::And, a, b),
        NetTwo::Or => pairwise(graph, alloc, Pair::Or, a, b),
        NetTwo::Xor => pairwise(graph, alloc, Pair::Xor, a, b),
        NetTwo::Nand => {
            let made = pairwise(graph, alloc, Pair::And, a, b)?;
            turned(alloc, &made)
        }
        NetTwo::Nor => {
            let made = pairwise(graph, alloc, Pair::Or, a, b)?;
            turned(alloc, &made)
        }
        NetTwo::Xnor => {
            let made = pairwise(graph, alloc, Pair::Xor, a, b)?;
            turned(alloc, &made)
        }
        NetTwo::Add => add(graph, alloc, a, b),
        NetTwo::Sub => sub(graph, alloc, a, b),
        NetTwo::Mul => mul(graph, alloc, a, b),
        NetTwo::Sll => sll(graph, alloc, a, b),
        NetTwo::Srl => srl(graph, alloc, a, b),
        NetTwo::Sra => sra(graph, alloc, a, b),
        NetTwo::Implies => {
            let opposite = turned(alloc, a)?;
            let made = pairwise(graph, alloc, Pair::Or, &opposite, b)?;
            Ok(made)
        }
        NetTwo::Concat => concat(alloc, a, b),
        NetTwo::Neq => {
            let lit = equal(graph, a, b)?;
            let same = flag(alloc, lit)?;
            turned(alloc, &same)
        }
        NetTwo::EqBits | NetTwo::Iff => {
            let lit = equal(graph, a, b)?;
            flag(alloc, lit)
        }
        NetTwo::Ult => {
            let lit = ult(graph, alloc, a, b)?;
            flag(alloc, lit)
        }
        NetTwo::Ulte => {
            let lit = ulte(graph, alloc, a, b)?;
            flag(alloc, lit)
        }
        NetTwo::Ugt => {
            let lit = ult(graph, alloc, b, a)?;
            flag(alloc, lit)
        }
        NetTwo::Ugte => {
            let lit = ulte(graph, alloc, b, a)?;
            flag(alloc, lit)
        }
        NetTwo::Slt => {
            let lit = slt(graph, alloc, a, b)?;
            flag(alloc, lit)
        }
        NetTwo::Slte => {
            let lit = slte(graph, alloc, a, b)?;
            flag(alloc, lit)
        }
        NetTwo::Sgt => {
            let lit = slt(graph, alloc, b, a)?;
            flag(alloc, lit)
        }
        NetTwo::Sgte => {
            let lit = slte(graph, alloc, b, a)?;
            flag(alloc, lit)
        }
    }
}
