//! Checker: names, members, reads and writes.

ghost use Rattle.std.specs.Prelude.{◌≡◌, ◌∷◌, ◌<◌, [], length};
ghost use Rattle.koika_check.specs.inner.Checking.{IsChecker, IsPart, Stands, Takes, TypedAs, arrays_of, scope_of, typing_of};
ghost use Rattle.koika_check.specs.Constructs as types;
ghost use Rattle.koika_check.specs.Outcomes.{Gives};
ghost use Rattle.koika_check.specs.inner.Outcomes.{Tells};
ghost use Rattle.koika_check.specs.inner.Shapes.{part_of};
ghost use Rattle.koika_check.specs.declared.checker.Checker.{Checker as Checking};
ghost use Rattle.koika_check.specs.declared.typed.Typed.TheVariants as made;

use crate::agreement::{Part, agrees, wrong_type};
use crate::checker::{Checker, Typing};
use crate::constants::literal_part;
use crate::names::unknown;
use crate::operators::{compared, width_of_bits};
use crate::shapes::Shape;
use crate::stop::{Stop, refuse, unless};
use crate::suffixes::Selected;
use crate::things::{Kind, number_if};
use crate::typed::{Operation, Typed};
use crate::types::NamedType;
use koika_syntax::{
    Extension, Literal, Name, Number, Prefix, SignedComparison, Suffix, UpdatedPart as WrittenPart,
};
use koika_types::Value;
use kw_base::fault_number;
use kw_bits::{Bits, Failure, Sequence};
use std::alloc::Global;

impl Checker {
    /// A local, or an input.
    pub(crate) fn named(&self, name: &Name) -> Result<Typing, Stop>
        requires { IsChecker self.now }
        ensures { Tells (TypedAs self.now) (types.named (scope_of self.now) name.now) result }
    {
        if let Some(local) = self.locals.named(name.text.as_slice()) {
            return Ok(at(name.place, Some(local.shape), Typed::Local(local.index)));
        }
        match number_if(Kind::Input, self.things.named(name.text.as_slice())) {
            Some(number) => Ok(at(
                name.place,
                Some(self.inputs[number as usize]),
                Typed::Input(number),
            )),
            None => Err(unknown(name)),
        }
    }

    /// A member of an enum.
    pub(crate) fn member_typing(&self, of: &Name, member: &Name) -> Result<Typing, Stop>
        requires { IsChecker self.now }
        ensures { Tells (TypedAs self.now) (types.member_in self.now.design of.now member.now) result }
    {
        let known = self.member(of, member)?;
        Ok(Typing {
            part: known.part,
            typed: Typed::Constant(known.value),
        })
    }

    /// A read at a port.
    pub(crate) fn read(&self, place: u32, port: u32, register: &Name) -> Result<Typing, Stop>
        requires { IsChecker self.now }
        ensures { Tells (TypedAs self.now) (types.read_in self.now.design place port register.now) result }
    {
        let register = self.number_named(Kind::Register, register)?;
        let of = Some(self.registers[register as usize]);
        let operation = Operation::Read { port, register };
        Ok(at(
            place,
            of,
            Typed::Apply(operation, Sequence::new(self.alloc)),
        ))
    }

    /// Prefix operators in front of an operand.
    pub(crate) fn unary(&self, prefixes: &[Prefix], inner: Typing) -> Result<Typing, Stop>
        requires checker { IsChecker self.now }
        requires part { IsPart self.now inner.part }
        ensures { Tells (TypedAs self.now) (types.unary prefixes.now (typing_of self.now inner)) result }
    {
        width_of_bits(inner.part)?;
        let place = place_of_prefixes(prefixes, inner.part.place);
        let mut operators = Sequence::new(self.alloc);
        for prefix in prefixes {
            operators.push(prefix.operator)?;
        }
        apply_one(
            self.alloc,
            place,
            inner.part.of,
            Operation::Unary(operators),
            inner.typed,
        )
    }

    /// Suffixes after a value.
    pub(crate) fn postfix(&self, suffixes: &[Suffix], primary: Typing) -> Result<Typing, Stop>
        requires checker { IsChecker self.now }
        requires part { IsPart self.now primary.part }
        ensures { Tells (TypedAs self.now) (types.postfix self.now.design suffixes.now (typing_of self.now primary)) result }
    {
        let mut whole = primary.part;
        let mut selections = Sequence::new(self.alloc);
        for suffix in suffixes {
            let selected = self.selected(whole, suffix)?;
            whole = Part {
                of: Some(selected.of),
                place: whole.place,
            };
            selections.push(selected.selection)?;
        }
        apply_one(
            self.alloc,
            whole.place,
            whole.of,
            Operation::Select(selections),
            primary.typed,
        )
    }

    /// A comparison of signed numbers.
    pub(crate) fn comparison(
        &self,
        place: u32,
        comparison: SignedComparison,
        left: Typing,
        right: Typing,
    ) -> Result<Typing, Stop>
        requires checker { IsChecker self.now }
        requires left { IsPart self.now left.part }
        requires right { IsPart self.now right.part }
        ensures { Tells (TypedAs self.now) (types.comparison place comparison (typing_of self.now left) (typing_of self.now right)) result }
    {
        let of = compared(left.part, right.part)?;
        apply_two(
            self.alloc,
            place,
            Some(of),
            Operation::Compare(comparison),
            left.typed,
            right.typed,
        )
    }

    /// More bits above.
    pub(crate) fn extended(
        &self,
        place: u32,
        extension: Extension,
        width: Number,
        inner: Typing,
    ) -> Result<Typing, Stop>
        requires checker { IsChecker self.now }
        requires part { IsPart self.now inner.part }
        ensures { Tells (TypedAs self.now) (types.extended place extension width (typing_of self.now inner)) result }
    {
        let from = width_of_bits(inner.part)?;
        let width_fits = from <= width.value && width.value <= Bits::MAX_WIDTH;
        refuse(unless(width_fits, fault_number::WRONG_WIDTH, width.place))?;
        let width = width.value;
        let operation = Operation::Extend { extension, width };
        apply_one(
            self.alloc,
            place,
            Some(Shape::Bits(width)),
            operation,
            inner.typed,
        )
    }

    /// The bits of a value.
    pub(crate) fn packed(&self, place: u32, inner: Typing) -> Result<Typing, Stop>
        requires checker { IsChecker self.now }
        requires part { IsPart self.now inner.part }
        ensures { Tells (TypedAs self.now) (types.packed self.now.design place (typing_of self.now inner)) result }
    {
        match inner.part.of {
            None => Err(Failure::Why(wrong_type(inner.part))),
            Some(shape) => {
                let bits = Some(Shape::Bits(self.width(shape)));
                apply_one(self.alloc, place, bits, Operation::Pack, inner.typed)
            }
        }
    }

    /// The value of a type that has these bits.
    pub(crate) fn unpacked(&self, place: u32, to: NamedType, inner: Typing) -> Result<Typing, Stop>
        requires checker { IsChecker self.now }
        requires to { Stands self.now to.shape to.of }
        requires part { IsPart self.now inner.part }
        ensures { Tells (TypedAs self.now) (types.unpacked self.now.design place to.of (typing_of self.now inner)) result }
    {
        let bits = Shape::Bits(self.width(to.shape));
        refuse(agrees(Some(bits), inner.part))?;
        apply_one(
            self.alloc,
            place,
            Some(to.shape),
            Operation::Unpack(to.of),
            inner.typed,
        )
    }

    /// A value with a part replaced by another.
    pub(crate) fn updated(
        &self,
        place: u32,
        part: &WrittenPart,
        old: Typing,
        new: Typing,
    ) -> Result<Typing, Stop>
        requires checker { IsChecker self.now }
        requires old { IsPart self.now old.part }
        requires new { IsPart self.now new.part }
        ensures { Tells (TypedAs self.now) (types.updated self.now.design place part.now (typing_of self.now old) (typing_of self.now new)) result }
    {
        let selected = self.replaced(part, old.part, new.part)?;
        let operation = Operation::Update(selected.selection);
        apply_two(
            self.alloc,
            place,
            old.part.of,
            operation,
            old.typed,
            new.typed,
        )
    }

    // The part of a value that is replaced.
    fn replaced(&self, part: &WrittenPart, old: Part, new: Part) -> Result<Selected, Stop>
        requires checker { IsChecker self.now }
        requires old { IsPart self.now old }
        requires new { IsPart self.now new }
        ensures { Tells (Takes self.now) (types.replaced self.now.design part.now (part_of (arrays_of self.now) old) (part_of (arrays_of self.now) new)) result }
    {
        match part {
            WrittenPart::Field(name) => self.new_field(old, name, new),
            WrittenPart::Index(index) => self.new_item(old, *index, new),
        }
    }

    /// A write at a port of the register of this number.
    pub(crate) fn written(
        &self,
        place: u32,
        port: u32,
        register: u32,
        new: Typing,
    ) -> Result<Typing, Stop>
        requires checker { IsChecker self.now }
        requires declared { register < length self.now.design.registers }
        requires part { IsPart self.now new.part }
        ensures { Tells (TypedAs self.now) (types.written self.now.design place port register (typing_of self.now new)) result }
    {
        let of = Some(self.registers[register as usize]);
        refuse(agrees(of, new.part))?;
        let operation = Operation::Write { port, register };
        apply_one(self.alloc, place, None, operation, new.typed)
    }
}

/// The end of a rule.
pub(crate) fn abort_at(alloc: Global, place: u32) -> Typing
    ensures { (c : Checking) → TypedAs c result (types.abort_at place) }
{
    at(
        place,
        None,
        Typed::Apply(Operation::Abort, Sequence::new(alloc)),
    )
}

/// A literal.
pub(crate) fn literal(literal: Literal) -> Typing
    ensures { (c : Checking) → TypedAs c result (types.literal literal) }
{
    let value = Value::Number(literal.bits);
    Typing {
        part: literal_part(literal),
        typed: Typed::Constant(value),
    }
}

/// An expression of this type whose first token is at this place.
pub(crate) fn at(place: u32, of: Option<Shape>, typed: Typed) -> Typing
    ensures { result ≡ record { part = record { of = of; place = place }; typed = typed } }
{
    Typing {
        part: Part { of, place },
        typed,
    }
}

// An operation on one operand.
fn apply_one(
    alloc: Global,
    place: u32,
    of: Option<Shape>,
    operation: Operation,
    operand: Typed,
) -> Result<Typing, Stop>
    ensures { Tells (λ y x. y ≡ x) (Gives (record { part = record { of = of; place = place }; typed = made.Apply operation (operand ∷ []) })) result }
{
    let mut operands = Sequence::new(alloc);
    operands.push(operand)?;
    Ok(at(place, of, Typed::Apply(operation, operands)))
}

// An operation on two operands.
fn apply_two(
    alloc: Global,
    place: u32,
    of: Option<Shape>,
    operation: Operation,
    first: Typed,
    second: Typed,
) -> Result<Typing, Stop>
    ensures { Tells (λ y x. y ≡ x) (Gives (record { part = record { of = of; place = place }; typed = made.Apply operation (first ∷ second ∷ []) })) result }
{
    let mut operands = Sequence::new(alloc);
    operands.push(first)?;
    operands.push(second)?;
    Ok(at(place, of, Typed::Apply(operation, operands)))
}

// Where prefix operators in front of an operand begin.
fn place_of_prefixes(prefixes: &[Prefix], operand: u32) -> u32
    ensures { result ≡ types.place_of_prefixes prefixes.now operand }
{
    match prefixes.first() {
        Some(prefix) => prefix.place,
        None => operand,
    }
}
