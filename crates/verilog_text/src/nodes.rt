//! Verilog: a node of a circuit as an operand or as the expression of a wire.

ghost use Rattle.std.specs.Prelude.{◌≡◌, ◌+◌, ◌<◌, ◌≤◌, length};
ghost use Rattle.kw_bits.specs.BitVector.{IsBitVector};
ghost use Rattle.net_graph.specs.Nets.{Stands, width_at, widths_of};
ghost use Rattle.verilog_text.specs.inner.Making as making;

use crate::module::{Form, Infix, Operand, Prefix};
use kw_bits::Bits;
use net_graph::{Net, NetId, NetOne, NetOp, NetTwo};

/// What a node is: an operand that is there already, or the expression of a wire.
#[derive(Clone, Copy)]
pub(crate) enum Piece {
    Same(Operand),
    Made(Form),
}

/// A node over nodes that are these operands.
#[tactic(auto, unfolding(crate::specs::inner::Making::piece_of))]
pub(crate) fn piece_of(net: &Net, operands: &[Operand], op: &NetOp) -> Piece
    requires stands { Stands (widths_of net.now) op.now }
    requires constants { making.ConstantsFit (widths_of net.now) operands.now }
    ensures { result ≡ making.piece_of (widths_of net.now) operands.now op.now }
{
    match *op {
        NetOp::Const(value) => Piece::Same(Operand::Constant(value)),
        NetOp::Input(number, _) => Piece::Same(Operand::Input(number)),
        NetOp::State(number, _) => Piece::Same(Operand::Register(number)),
        NetOp::One(operator, a) => {
            Piece::Made(one_form(operator, net.width(a), operand_at(operands, a)))
        }
        NetOp::Two(operator, a, b) => Piece::Made(two_form(
            operator,
            operand_at(operands, a),
            operand_at(operands, b),
        )),
        NetOp::Slice(a, upper, lower) => {
            slice_of(operand_at(operands, a), net.width(a), upper, lower)
        }
        NetOp::Uext(a, added) => zext_of(operand_at(operands, a), added),
        NetOp::Sext(a, added) => sext_of(operand_at(operands, a), net.width(a), added),
        NetOp::Ite(condition, a, b) => Piece::Made(Form::Choice(
            operand_at(operands, condition),
            operand_at(operands, a),
            operand_at(operands, b),
        )),
    }
}

/// The operand of a node.
pub(crate) fn operand_at(operands: &[Operand], id: NetId) -> Operand
    ensures { result ≡ making.operand_at operands.now id }
{
    operands
        .get(id as usize)
        .copied()
        .unwrap_or(Operand::Wire(0))
}

// The expression of an operator on one node of this width.
#[tactic(auto, unfolding(crate::specs::inner::Making::one_form))]
fn one_form(operator: NetOne, width: u32, a: Operand) -> Form
    requires some { 1 ≤ width }
    requires most { width ≤ 128 }
    ensures { result ≡ making.one_form operator width a }
{
    match operator {
        NetOne::Not => Form::One(Prefix::Not, a),
        NetOne::Neg => Form::One(Prefix::Neg, a),
        NetOne::Inc => Form::Two(Infix::Add, a, one_at(width)),
        NetOne::Dec => Form::Two(Infix::Sub, a, one_at(width)),
        NetOne::RedAnd => Form::One(Prefix::RedAnd, a),
        NetOne::RedOr => Form::One(Prefix::RedOr, a),
        NetOne::RedXor => Form::One(Prefix::RedXor, a),
    }
}

// The number 1 at a width.
fn one_at(width: u32) -> Operand
    requires some { 1 ≤ width }
    requires most { width ≤ 128 }
    ensures { result ≡ Operand.Constant (record { width = width; number = 1 }) }
{
    Operand::Constant(Bits::new(width, 1).unwrap())
}

// The expression of an operator on two nodes.
#[tactic(auto, unfolding(crate::specs::inner::Making::two_form))]
fn two_form(operator: NetTwo, a: Operand, b: Operand) -> Form
    ensures { result ≡ making.two_form operator a b }
{
    match operator {
        NetTwo::And => Form::Two(Infix::And, a, b),
        NetTwo::Or => Form::Two(Infix::Or, a, b),
        NetTwo::Xor => Form::Two(Infix::Xor, a, b),
        NetTwo::Nand => Form::Two(Infix::Nand, a, b),
        NetTwo::Nor => Form::Two(Infix::Nor, a, b),
        NetTwo::Xnor => Form::Two(Infix::Xnor, a, b),
        NetTwo::Add => Form::Two(Infix::Add, a, b),
        NetTwo::Sub => Form::Two(Infix::Sub, a, b),
        NetTwo::Mul => Form::Two(Infix::Mul, a, b),
        NetTwo::Sll => Form::Two(Infix::ShiftLeft, a, amount(b)),
        NetTwo::Srl => Form::Two(Infix::ShiftRight, a, amount(b)),
        NetTwo::Sra => Form::Two(Infix::ShiftSigned, a, amount(b)),
        NetTwo::EqBits => Form::Two(Infix::Equal, a, b),
        NetTwo::Neq => Form::Two(Infix::Unequal, a, b),
        NetTwo::Ult => Form::Two(Infix::Below, a, b),
        NetTwo::Ulte => Form::Two(Infix::AtMost, a, b),
        NetTwo::Ugt => Form::Two(Infix::Below, b, a),
        NetTwo::Ugte => Form::Two(Infix::AtMost, b, a),
        NetTwo::Slt => Form::Two(Infix::SignedBelow, a, b),
        NetTwo::Slte => Form::Two(Infix::SignedAtMost, a, b),
        NetTwo::Sgt => Form::Two(Infix::SignedBelow, b, a),
        NetTwo::Sgte => Form::Two(Infix::SignedAtMost, b, a),
        NetTwo::Iff => Form::Two(Infix::Equal, a, b),
        // On one bit an implication is an order.
        NetTwo::Implies => Form::Two(Infix::AtMost, a, b),
        NetTwo::Concat => Form::Two(Infix::Join, a, b),
    }
}

// An amount of a shift. Tools refuse constants of more than 32 bits there.
fn amount(operand: Operand) -> Operand
    ensures { result ≡ making.amount operand }
{
    match operand {
        Operand::Constant(value) => Operand::Constant(at_most_width(value)),
        _ => operand,
    }
}

// A number that is above its width becomes the width.
fn at_most_width(value: Bits) -> Bits
    ensures width { result.width ≡ value.width }
    ensures number { result.number ≡ making.least value }
{
    let width = value.width();
    Bits::new(width, value.number().min(width as u128)).unwrap()
}

// Some bits of an operand of this width: itself, where they are all.
fn slice_of(operand: Operand, width: u32, upper: u32, lower: u32) -> Piece
    requires order { lower ≤ upper }
    requires within { upper < width }
    requires constant { making.FitsConstant operand width }
    ensures { result ≡ making.slice_of operand width upper lower }
{
    if upper - lower + 1 == width {
        return Piece::Same(operand);
    }
    match operand {
        Operand::Constant(value) => Piece::Same(Operand::Constant(value.slice(upper, lower))),
        _ => Piece::Made(Form::Slice(operand, upper, lower)),
    }
}

// An operand with that many zeros above.
fn zext_of(operand: Operand, added: u32) -> Piece
    requires { added ≤ 128 }
    ensures { result ≡ making.zext_of operand added }
{
    if added == 0 {
        return Piece::Same(operand);
    }
    let zeros = Operand::Constant(Bits::zero(added));
    Piece::Made(Form::Two(Infix::Join, zeros, operand))
}

// An operand of this width with that many copies of its highest bit above.
fn sext_of(operand: Operand, width: u32, added: u32) -> Piece
    requires some { 1 ≤ width }
    requires most { width + added ≤ 128 }
    requires constant { making.FitsConstant operand width }
    ensures { result ≡ making.sext_of operand width added }
{
    if added == 0 {
        return Piece::Same(operand);
    }
    match operand {
        Operand::Constant(value) => { Piece::Same(Operand::Constant(value.sext(width + added))) }
        _ => Piece::Made(Form::Extension(operand, width - 1, added)),
    }
}
