//! Circuits: gates of one bit, and choices.

// Gates: operators on single bits, and the choice between two wires of one width.
ghost use Rattle.std.specs.Prelude.{◌≡◌, ◌&&◌, ◌||◌, ℕ, List, IfOk, Some, not, slice_get, if◌then◌else◌};
ghost use Rattle.net_graph.specs.Nets.{Stands, op_width, widths_of};
ghost use Rattle.net_graph.specs.Values.{Reads, value_at};
ghost use Rattle.net_action.specs.Gates.{Grows, HasValue, IsUp};
ghost use Rattle.net_action.specs.Wires.{HasWire, is_up};

use kw_bits::{Bits, NoMemory};
use net_graph::{Net, NetId, NetOne, NetOp, NetTwo};

// The wire of an operator.
pub(crate) fn added(net: &mut Net, op: NetOp) -> Result<NetId, NoMemory>
    requires { Stands (widths_of net.old) op }
    ensures grows { (inputs : List ℕ) → ((states : List ℕ) → Reads inputs states op) → Grows inputs net.old net.new }
    ensures wire { IfOk result (λ id. HasWire net.new id (op_width (widths_of net.new) op)) }
    ensures at { IfOk result (λ id. slice_get net.new id ≡ Some op) }
{
    let id = net.add(op)?;
    Ok(id)
}

// The wire of an operator that reads nothing from outside.
pub(crate) fn gate(net: &mut Net, op: NetOp) -> Result<NetId, NoMemory>
    requires stands { Stands (widths_of net.old) op }
    requires inner { (inputs states : List ℕ) → Reads inputs states op }
    ensures grows { (inputs : List ℕ) → Grows inputs net.old net.new }
    ensures wire { IfOk result (λ id. HasWire net.new id (op_width (widths_of net.new) op)) }
    ensures at { IfOk result (λ id. slice_get net.new id ≡ Some op) }
{
    let id = added(net, op)?;
    Ok(id)
}

/// A wire that has this value.
pub fn constant(net: &mut Net, value: Bits) -> Result<NetId, NoMemory>
    ensures grows { (inputs : List ℕ) → Grows inputs net.old net.new }
    ensures wire { IfOk result (λ id. HasWire net.new id value.width) }
    ensures value { IfOk result (HasValue net.new (λ values. value)) }
{
    let id = gate(net, NetOp::Const(value))?;
    Ok(id)
}

/// A wire that is 1 where both of these are.
pub fn both(net: &mut Net, a: NetId, b: NetId) -> Result<NetId, NoMemory>
    requires a { HasWire net.old a 1 }
    requires b { HasWire net.old b 1 }
    ensures grows { (inputs : List ℕ) → Grows inputs net.old net.new }
    ensures wire { IfOk result (λ id. HasWire net.new id 1) }
    ensures up { IfOk result (IsUp net.new (λ values. is_up values a && is_up values b)) }
{
    let id = gate(net, NetOp::Two(NetTwo::And, a, b))?;
    Ok(id)
}

/// A wire that is 1 where one of these is.
pub fn either(net: &mut Net, a: NetId, b: NetId) -> Result<NetId, NoMemory>
    requires a { HasWire net.old a 1 }
    requires b { HasWire net.old b 1 }
    ensures grows { (inputs : List ℕ) → Grows inputs net.old net.new }
    ensures wire { IfOk result (λ id. HasWire net.new id 1) }
    ensures up { IfOk result (IsUp net.new (λ values. is_up values a || is_up values b)) }
{
    let id = gate(net, NetOp::Two(NetTwo::Or, a, b))?;
    Ok(id)
}

/// A wire that is 1 where this one is 0.
pub fn opposite(net: &mut Net, a: NetId) -> Result<NetId, NoMemory>
    requires { HasWire net.old a 1 }
    ensures grows { (inputs : List ℕ) → Grows inputs net.old net.new }
    ensures wire { IfOk result (λ id. HasWire net.new id 1) }
    ensures up { IfOk result (IsUp net.new (λ values. not (is_up values a))) }
{
    let id = gate(net, NetOp::One(NetOne::Not, a))?;
    Ok(id)
}

/// A wire that has the first's value where the condition is 1, else the second's.
pub fn choice(
    net: &mut Net,
    condition: NetId,
    first: NetId,
    second: NetId,
) -> Result<NetId, NoMemory>
    requires condition { HasWire net.old condition 1 }
    requires one_width { (width : ℕ) × HasWire net.old first width × HasWire net.old second width }
    ensures grows { (inputs : List ℕ) → Grows inputs net.old net.new }
    ensures wire { IfOk result (λ id. (width : ℕ) → HasWire net.old first width → HasWire net.new id width) }
    ensures value { IfOk result (HasValue net.new (λ values. if is_up values condition then value_at values first else value_at values second)) }
{
    let id = gate(net, NetOp::Ite(condition, first, second))?;
    Ok(id)
}

/// A wire that is 1 where the first is and the second isn't.
pub fn both_not(net: &mut Net, a: NetId, b: NetId) -> Result<NetId, NoMemory>
    requires a { HasWire net.old a 1 }
    requires b { HasWire net.old b 1 }
    ensures grows { (inputs : List ℕ) → Grows inputs net.old net.new }
    ensures wire { IfOk result (λ id. HasWire net.new id 1) }
    ensures up { IfOk result (IsUp net.new (λ values. is_up values a && not (is_up values b))) }
{
    let not_b = opposite(net, b)?;
    let wire = both(net, a, not_b)?;
    Ok(wire)
}
