//! Circuits: the widths of operators over nodes of known widths, and whether they may be there.

ghost use Rattle.std.specs.Prelude.{◌≡◌, ◌<◌, ◌↔◌, IsTrue, length};
ghost use Rattle.net_graph.specs.Nets.{HoldsBits, op_width, Stands};
ghost use Rattle.net_graph.specs.Operators.{one_width, two_width, TakesTwo};

use crate::node::{NetId, NetOne, NetOp, NetTwo};

// The width of an operator.
pub(crate) fn width_of(op: &NetOp, widths: &[u32]) -> u32
    requires { Stands widths.now op.now }
    ensures width { result ≡ op_width widths.now op.now }
    ensures constant { HoldsBits op.now }
{
    match *op {
        NetOp::Const(value) => value.width(),
        NetOp::Input(_, width) | NetOp::State(_, width) => width,
        NetOp::One(operator, a) => one_width(operator, widths[a as usize]),
        NetOp::Two(operator, a, b) => two_width(operator, widths[a as usize], widths[b as usize]),
        NetOp::Slice(_, upper, lower) => upper - lower + 1,
        NetOp::Uext(a, added) | NetOp::Sext(a, added) => widths[a as usize] + added,
        NetOp::Ite(_, a, _) => widths[a as usize],
    }
}

#[tactic(auto, unfolding(crate::specs::Operators::one_width))]
fn one_width(operator: NetOne, a: u32) -> u32
    ensures { result ≡ one_width operator a }
{
    match operator {
        NetOne::Not | NetOne::Neg | NetOne::Inc | NetOne::Dec => a,
        NetOne::RedAnd | NetOne::RedOr | NetOne::RedXor => 1,
    }
}

#[tactic(auto, unfolding(crate::specs::Operators::two_width, crate::specs::Operators::TakesTwo))]
fn two_width(operator: NetTwo, a: u32, b: u32) -> u32
    requires { TakesTwo operator a b }
    ensures { result ≡ two_width operator a b }
{
    match operator {
        NetTwo::Concat => a + b,
        NetTwo::And
        | NetTwo::Or
        | NetTwo::Xor
        | NetTwo::Nand
        | NetTwo::Nor
        | NetTwo::Xnor
        | NetTwo::Add
        | NetTwo::Sub
        | NetTwo::Mul
        | NetTwo::Sll
        | NetTwo::Srl
        | NetTwo::Sra => a,
        _ => 1,
    }
}

// Whether an operator may come after nodes of these widths.
pub(crate) fn stands(op: &NetOp, widths: &[u32]) -> bool
    ensures { IsTrue result ↔ Stands widths.now op.now }
{
    match *op {
        NetOp::Const(_) => true,
        NetOp::Input(_, width) | NetOp::State(_, width) => 1 <= width && width <= 128,
        NetOp::One(_, a) => is_node(a, widths),
        NetOp::Two(operator, a, b) => {
            is_node(a, widths)
                && is_node(b, widths)
                && takes_two(operator, widths[a as usize], widths[b as usize])
        }
        NetOp::Slice(a, upper, lower) => {
            is_node(a, widths) && lower <= upper && upper < widths[a as usize]
        }
        NetOp::Uext(a, added) | NetOp::Sext(a, added) => {
            is_node(a, widths) && widths[a as usize] as u64 + added as u64 <= 128
        }
        NetOp::Ite(condition, a, b) => {
            is_node(condition, widths)
                && is_node(a, widths)
                && is_node(b, widths)
                && widths[condition as usize] == 1
                && widths[a as usize] == widths[b as usize]
        }
    }
}

fn is_node(id: NetId, widths: &[u32]) -> bool
    ensures { IsTrue result ↔ (id < length widths.now) }
{
    (id as usize) < widths.len()
}

#[tactic(auto, unfolding(crate::specs::Operators::TakesTwo))]
fn takes_two(operator: NetTwo, a: u32, b: u32) -> bool
    ensures { IsTrue result ↔ TakesTwo operator a b }
{
    match operator {
        NetTwo::Iff | NetTwo::Implies => a == 1 && b == 1,
        NetTwo::Concat => a as u64 + b as u64 <= 128,
        _ => a == b,
    }
}
