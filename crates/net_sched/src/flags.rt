//! Circuits: lists of wires of one bit.

// Lists of wires of one bit.
ghost use Rattle.std.specs.Prelude.{◌≡◌, ◌<◌, ◌==◌, ◌&&◌, ◌||◌, ℕ, List, IfOk, length, replicate};
ghost use Rattle.kw_bits.specs.BitVector.{BitVector};
ghost use Rattle.net_graph.specs.Values.{Sources};
ghost use Rattle.typed_core.specs.Continuations.{is_at};
ghost use Rattle.net_action.specs.Gates.{Grows};
ghost use Rattle.net_action.specs.Wires.{AreValues, HasWire, is_up};
ghost use Rattle.net_sched.specs.inner.Cycles.{AreFlags, IsWithin, nth};

use kw_bits::{NoMemory, Sequence};
use net_action::either;
use net_graph::{Net, NetId};
use std::alloc::Global;
use typed_core::Next;

/// The wire of this number.
pub(crate) fn nth(wires: &Sequence<NetId>, number: usize) -> NetId
    requires { number < length wires.now }
    ensures { result ≡ nth wires.now number }
{
    *wires.get(number)
}

/// That many wires, all the same.
pub(crate) fn filled(alloc: Global, wire: NetId, count: usize) -> Result<Sequence<NetId>, NoMemory>
    ensures { IfOk result (λ wires. wires ≡ replicate count wire) }
{
    let mut wires = Sequence::new(alloc);
    for _ in 0..count {
        wires.push(wire)?;
    }
    Ok(wires)
}

/// Sets a flag where the wire is 1.
pub(crate) fn mark(
    net: &mut Net,
    flags: &mut Sequence<NetId>,
    place: usize,
    is_set: NetId,
) -> Result<(), NoMemory>
    requires place { place < length flags.old }
    requires flags { AreFlags net.old (length flags.old) flags.old }
    requires is_set { HasWire net.old is_set 1 }
    ensures grows { (inputs : List ℕ) → Grows inputs net.old net.new }
    ensures flags { IfOk result (λ done. AreFlags net.new (length flags.old) flags.new) }
    ensures up { IfOk result (λ done. (s : Sources) (values : List BitVector) → AreValues s net.new values
        → (number : ℕ) → number < length flags.old → is_up values (nth flags.new number) ≡ (is_up values (nth flags.old number) || ((number == place) && is_up values is_set))) }
{
    let flag = either(net, nth(flags, place), is_set)?;
    flags.set(place, flag);
    Ok(())
}

/// Leads the walk to a node, or to the end, where the wire is 1.
pub(crate) fn lead(
    net: &mut Net,
    visited: &mut Sequence<NetId>,
    next: Next,
    goes: NetId,
) -> Result<(), NoMemory>
    requires next { IsWithin (length visited.old) next }
    requires visited { AreFlags net.old (length visited.old) visited.old }
    requires goes { HasWire net.old goes 1 }
    ensures grows { (inputs : List ℕ) → Grows inputs net.old net.new }
    ensures flags { IfOk result (λ done. AreFlags net.new (length visited.old) visited.new) }
    ensures up { IfOk result (λ done. (s : Sources) (values : List BitVector) → AreValues s net.new values
        → (number : ℕ) → number < length visited.old → is_up values (nth visited.new number) ≡ (is_up values (nth visited.old number) || (is_at number next && is_up values goes))) }
{
    match next {
        Next::Node(to) => mark(net, visited, to as usize, goes),
        Next::End => Ok(()),
    }
}
