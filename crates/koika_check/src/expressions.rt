//! Checker: expressions and blocks.

ghost use Rattle.std.specs.Prelude.{◌≡◌, ◌∷◌, ◌++◌, ◌<◌, [], All, List, OnOk, Some, length, map};
ghost use Rattle.std.specs.Option.{option_map};
ghost use Rattle.kw_base.specs.declared.fault_number.TheConstants.{UNKNOWN_NAME};
ghost use Rattle.koika_check.specs.inner.Checking.{AreTyped, Checks, IsChecker, IsPart, IsReady, IsTyping, TypedAs, scope_of, typing_of};
ghost use Rattle.koika_check.specs.Constructs as types;
ghost use Rattle.koika_check.specs.Expressions.{block_in};
ghost use Rattle.koika_check.specs.inner.Expressions.{arm_in, expression_in, field_value_in, operand_in, statement_in};
ghost use Rattle.koika_check.specs.Expressions as expressions;
ghost use Rattle.koika_check.specs.Outcomes.{Gives, ◌>>=◌ as ◌▹◌, found, in_turn, one_by_one, where_all, wrong};
ghost use Rattle.koika_check.specs.inner.Outcomes.{Tells};
ghost use Rattle.koika_check.specs.Scopes as scopes;
ghost use Rattle.koika_check.specs.inner.Shapes.{AreArrays, IsShapeIf, part_of, type_if};
ghost use Rattle.koika_check.specs.inner.TypedParts.{AreArms, AreSteps, AreTypedFields, In, IsLast, IsStep, bound_step};
ghost use Rattle.koika_check.specs.Types as kinds;
ghost use Rattle.koika_check.specs.Kinds.{number_named};
ghost use Rattle.koika_check.specs.declared.things.Kind.TheVariants as kind;
ghost use Rattle.koika_check.specs.declared.agreement.Part.{Part as Counted};
ghost use Rattle.koika_check.specs.declared.typed.Typed.TheVariants as made;
ghost use Rattle.koika_check.specs.declared.typed.ValueType.{ValueType};

use crate::agreement::{Part, all_agree, wrong_type};
use crate::checker::{Checker, Typing, Typings};
use crate::composites::{Given, type_of_first};
use crate::constructs::{abort_at, at, literal};
use crate::operators::joined;
use crate::shapes::Shape;
use crate::stop::{Stop, least, refuse};
use crate::things::Kind;
use crate::typed::{BlockStep, Operation, Typed};
use koika_syntax::{
    Arm, Block, Expression, Extension, FieldValue, Name, Number, Operand, Prefix, SignedComparison,
    Statement, Suffix, TypeExpression, UpdatedPart as WrittenPart,
};
use kw_bits::{Boxed, Failure, NoMemory, Sequence};

/// The fields of a struct that are well typed, in order.
#[derive(Drop)]
pub(crate) struct TypedFields {
    pub given: Sequence<Given>,
    pub typed: Sequence<Typed>,
}

/// Arms that are well typed, in order, and the place of the first.
#[derive(Drop)]
pub(crate) struct Arms {
    pub place: Option<u32>,
    pub conditions: Typings,
    pub bodies: Typings,
}

impl Checker {
    /// The type of an expression, and the expression with its names resolved.
    #[cycle(expression)]
    pub(crate) fn expression(&mut self, of: &Expression) -> Result<Typing, Stop>
        requires { IsReady self.old }
        ensures { Checks (IsTyping (scope_of self.old)) self.old (expression_in of.now (scope_of self.old)) self.new result }
    {
        match of {
            Expression::Literal(value) => Ok(literal(*value)),
            Expression::Name(name) => self.named(name),
            Expression::Member { of, member } => self.member_typing(of, member),
            Expression::Chain { first, rest } => {
                let first = self.expression(first.get())?;
                self.chain(rest.as_slice(), first)
            }
            Expression::If { arms, otherwise } => {
                let arms = self.arms(arms.as_slice())?;
                self.choice(otherwise, arms)
            }
            Expression::Call { called, arguments } => self.called_with(
                called,
                arguments.as_slice(),
            ),
            Expression::Struct { of, fields, close } => self.structure(
                of,
                fields.as_slice(),
                *close,
            ),
            Expression::Array { place, elements } => self.array(*place, elements.as_slice()),
            Expression::Block(block) => self.block(block),
            Expression::Write {
                place,
                port,
                register,
                value,
            } => self.write(*place, *port, register, value.get()),
            Expression::Unary { prefixes, operand } => self.prefixed(
                prefixes.as_slice(),
                operand.get(),
            ),
            Expression::Postfix { primary, suffixes } => self.suffixed(
                primary.get(),
                suffixes.as_slice(),
            ),
            Expression::Parentheses { place, inside } => self.parenthesized(*place, inside.get()),
            Expression::Read {
                place,
                port,
                register,
            } => self.read(*place, *port, register),
            Expression::Abort { place } => Ok(abort_at(self.alloc, *place)),
            Expression::Pack { place, value } => self.pack(*place, value.get()),
            Expression::Unpack { place, to, value } => self.unpack(value.get(), *place, to),
            Expression::Extend {
                place,
                extension,
                value,
                width,
            } => self.extend(*place, *extension, *width, value.get()),
            Expression::Compare {
                place,
                comparison,
                left,
                right,
            } => {
                let left = self.expression(left.get())?;
                self.compare(right.get(), *place, *comparison, left)
            }
            Expression::Update {
                place,
                whole,
                part,
                value,
            } => {
                let whole = self.expression(whole.get())?;
                self.update(value.get(), *place, part, whole)
            }
        }
    }

    // Prefix operators in front of this operand.
    #[cycle(expression)]
    fn prefixed(&mut self, prefixes: &[Prefix], operand: &Expression) -> Result<Typing, Stop>
        requires { IsReady self.old }
        ensures { Checks (IsTyping (scope_of self.old)) self.old (expression_in operand.now (scope_of self.old) ▹ types.unary prefixes.now) self.new result }
    {
        let operand = self.expression(operand)?;
        self.unary(prefixes, operand)
    }

    // Suffixes after this value.
    #[cycle(expression)]
    fn suffixed(&mut self, primary: &Expression, suffixes: &[Suffix]) -> Result<Typing, Stop>
        requires { IsReady self.old }
        ensures { Checks (IsTyping (scope_of self.old)) self.old (expression_in primary.now (scope_of self.old) ▹ types.postfix self.old.design suffixes.now) self.new result }
    {
        let primary = self.expression(primary)?;
        self.postfix(suffixes, primary)
    }

    // The same value, which begins at its bracket.
    #[cycle(expression)]
    fn parenthesized(&mut self, place: u32, inside: &Expression) -> Result<Typing, Stop>
        requires { IsReady self.old }
        ensures { Checks (IsTyping (scope_of self.old)) self.old (expression_in inside.now (scope_of self.old) ▹ λ inner. Gives (types.typing inner.part.of place inner.typed)) self.new result }
    {
        let inside = self.expression(inside)?;
        Ok(at(place, inside.part.of, inside.typed))
    }

    // The bits of this value.
    #[cycle(expression)]
    fn pack(&mut self, place: u32, value: &Expression) -> Result<Typing, Stop>
        requires { IsReady self.old }
        ensures { Checks (IsTyping (scope_of self.old)) self.old (expression_in value.now (scope_of self.old) ▹ types.packed self.old.design place) self.new result }
    {
        let value = self.expression(value)?;
        self.packed(place, value)
    }

    // The value of a type, which is looked up first, that has these bits.
    #[cycle(expression)]
    fn unpack(
        &mut self,
        value: &Expression,
        place: u32,
        to: &TypeExpression,
    ) -> Result<Typing, Stop>
        requires { IsReady self.old }
        ensures { Checks (IsTyping (scope_of self.old)) self.old (kinds.type_of self.old.design to.now ▹ λ of. expression_in value.now (scope_of self.old) ▹ types.unpacked self.old.design place of) self.new result }
    {
        let to = self.named_type(to)?;
        let value = self.expression(value)?;
        self.unpacked(place, to, value)
    }

    // This value with more bits.
    #[cycle(expression)]
    fn extend(
        &mut self,
        place: u32,
        extension: Extension,
        width: Number,
        value: &Expression,
    ) -> Result<Typing, Stop>
        requires { IsReady self.old }
        ensures { Checks (IsTyping (scope_of self.old)) self.old (expression_in value.now (scope_of self.old) ▹ types.extended place extension width) self.new result }
    {
        let value = self.expression(value)?;
        self.extended(place, extension, width, value)
    }

    // A comparison of a left operand with this right one.
    #[cycle(expression)]
    fn compare(
        &mut self,
        right: &Expression,
        place: u32,
        comparison: SignedComparison,
        left: Typing,
    ) -> Result<Typing, Stop>
        requires checker { IsReady self.old }
        requires left { IsPart self.old left.part }
        ensures { Checks (IsTyping (scope_of self.old)) self.old (expression_in right.now (scope_of self.old) ▹ types.comparison place comparison (typing_of self.old left)) self.new result }
    {
        let right = self.expression(right)?;
        self.comparison(place, comparison, left, right)
    }

    // A value with a part replaced by this one.
    #[cycle(expression)]
    fn update(
        &mut self,
        value: &Expression,
        place: u32,
        part: &WrittenPart,
        whole: Typing,
    ) -> Result<Typing, Stop>
        requires checker { IsReady self.old }
        requires whole { IsPart self.old whole.part }
        ensures { Checks (IsTyping (scope_of self.old)) self.old (expression_in value.now (scope_of self.old) ▹ types.updated self.old.design place part.now (typing_of self.old whole)) self.new result }
    {
        let value = self.expression(value)?;
        self.updated(place, part, whole, value)
    }

    // Expressions in order.
    #[cycle(expression)]
    fn values(&mut self, values: &[Expression]) -> Result<Typings, Stop>
        requires { IsReady self.old }
        ensures { Checks (In AreTyped (scope_of self.old)) self.old (in_turn (λ e. expression_in e (scope_of self.old)) values.now) self.new result }
    {
        let mut parts = Sequence::new(self.alloc);
        let mut typed = Sequence::new(self.alloc);
        for value in values {
            let one = self.expression(value)?;
            parts.push(one.part)?;
            typed.push(one.typed)?;
        }
        Ok(Typings { parts, typed })
    }

    // What is called is looked up before the arguments.
    #[cycle(expression)]
    fn called_with(&mut self, name: &Name, arguments: &[Expression]) -> Result<Typing, Stop>
        requires { IsReady self.old }
        ensures { Checks (IsTyping (scope_of self.old)) self.old (scopes.called self.old.design name.now ▹ λ c. in_turn (λ e. expression_in e (scope_of self.old)) arguments.now ▹ types.call name.now c) self.new result }
    {
        let called = self.called(name)?;
        let values = self.values(arguments)?;
        self.call(name, called, values)
    }

    // An array of these values.
    #[cycle(expression)]
    fn array(&mut self, place: u32, elements: &[Expression]) -> Result<Typing, Stop>
        requires { IsReady self.old }
        ensures { Checks (IsTyping (scope_of self.old)) self.old (in_turn (λ e. expression_in e (scope_of self.old)) elements.now ▹ types.array_in self.old.design place) self.new result }
    {
        let values = self.values(elements)?;
        let part = self.array_of(place, values.parts.as_slice())?;
        Ok(at(
            part.place,
            part.of,
            Typed::Apply(Operation::Array, values.typed),
        ))
    }

    // The register is looked up before the value.
    #[cycle(expression)]
    fn write(
        &mut self,
        place: u32,
        port: u32,
        register: &Name,
        value: &Expression,
    ) -> Result<Typing, Stop>
        requires { IsReady self.old }
        ensures { Checks (IsTyping (scope_of self.old)) self.old (scopes.register self.old.design register.now ▹ λ number. expression_in value.now (scope_of self.old) ▹ types.written self.old.design place port number) self.new result }
    {
        let register = self.number_named(Kind::Register, register)?;
        let value = self.expression(value)?;
        self.written(place, port, register, value)
    }

    // Operands after the first, operator by operator.
    #[cycle(expression)]
    fn chain(&mut self, rest: &[Operand], first: Typing) -> Result<Typing, Stop>
        requires checker { IsReady self.old }
        requires first { IsPart self.old first.part }
        ensures { Checks (IsTyping (scope_of self.old)) self.old (expressions.chain_in (scope_of self.old) (map operand_in rest.now) (typing_of self.old first)) self.new result }
    {
        let width = self.width_if(first.part.of);
        let mut left = first.part;
        let mut operators = Sequence::new(self.alloc);
        let mut operands = Sequence::new(self.alloc);
        operands.push(first.typed)?;
        for operand in rest {
            let right = self.expression(&operand.operand)?;
            let of = joined(operand.operator, left, right.part)?;
            left = Part {
                of: Some(of),
                place: left.place,
            };
            operators.push(operand.operator)?;
            operands.push(right.typed)?;
        }
        let typed = Typed::Apply(Operation::Chain { operators, width }, operands);
        Ok(at(left.place, left.of, typed))
    }

    // A struct of these fields, in front of this closing bracket.
    #[cycle(expression)]
    fn structure(&mut self, of: &Name, fields: &[FieldValue], close: u32) -> Result<Typing, Stop>
        requires { IsReady self.old }
        ensures { Checks (IsTyping (scope_of self.old)) self.old (found (number_named kind.Struct self.old.design of.now.text) (wrong UNKNOWN_NAME of.now.place) ▹ λ number.
            in_turn (λ f. field_value_in f (scope_of self.old)) fields.now ▹ types.struct_in self.old.design number of.now.place close) self.new result }
    {
        let number = self.number_named(Kind::Struct, of)?;
        let fields = self.fields(number, fields)?;
        let part = self.struct_of(number, of.place, fields.given.as_slice(), close)?;
        Ok(at(
            part.place,
            part.of,
            Typed::Apply(Operation::Struct(number), fields.typed),
        ))
    }

    // The fields of a struct in order.
    #[cycle(expression)]
    fn fields(&mut self, number: u32, fields: &[FieldValue]) -> Result<TypedFields, Stop>
        requires checker { IsReady self.old }
        requires declared { number < length self.old.design.structs }
        ensures { Checks (In (AreTypedFields number) (scope_of self.old)) self.old (in_turn (λ f. field_value_in f (scope_of self.old)) fields.now) self.new result }
    {
        let mut given = Sequence::new(self.alloc);
        let mut typed = Sequence::new(self.alloc);
        for index in 0..fields.len() {
            let field = &fields[index];
            let value = self.expression(&field.value)?;
            given.push(self.given(number, &field.name, index, value.part)?)?;
            typed.push(value.typed)?;
        }
        Ok(TypedFields { given, typed })
    }

    // An `if` of these arms, and of the block after `else`, if there is one.
    #[cycle(expression)]
    fn choice(&mut self, otherwise: &Option<Block>, arms: Arms) -> Result<Typing, Stop>
        requires { IsReady self.old }
        ensures { (xs : List types.ArmTyping) → AreArms self.old arms xs
            → Checks (IsTyping (scope_of self.old)) self.old (expressions.otherwise_in (scope_of self.old) (option_map block_in otherwise.now) ▹ types.conditional xs) self.new result }
    {
        let last = self.otherwise(otherwise)?;
        self.conditional(arms, last)
    }

    // The arms of an `if` in order.
    #[cycle(expression)]
    fn arms(&mut self, arms: &[Arm]) -> Result<Arms, Stop>
        requires { IsReady self.old }
        ensures { Checks (In AreArms (scope_of self.old)) self.old (in_turn (λ a. arm_in a (scope_of self.old)) arms.now) self.new result }
    {
        let mut place = None;
        let mut conditions = self.nothing();
        let mut bodies = self.nothing();
        for arm in arms {
            push(&mut conditions, self.expression(&arm.condition)?)?;
            push(&mut bodies, self.block(&arm.body)?)?;
            place = place.or(Some(arm.place));
        }
        Ok(Arms {
            place,
            conditions,
            bodies,
        })
    }

    // The block after `else`, if there is one.
    #[cycle(expression)]
    fn otherwise(&mut self, otherwise: &Option<Block>) -> Result<Option<Typing>, Stop>
        requires { IsReady self.old }
        ensures { Checks (In IsLast (scope_of self.old)) self.old (expressions.otherwise_in (scope_of self.old) (option_map block_in otherwise.now)) self.new result }
    {
        match otherwise {
            None => Ok(None),
            Some(last) => Ok(Some(self.block(last)?)),
        }
    }

    /// A block, whose locals are unbound after it.
    #[cycle(expression)]
    pub(crate) fn block(&mut self, block: &Block) -> Result<Typing, Stop>
        requires { IsReady self.old }
        ensures { Checks (IsTyping (scope_of self.old)) self.old (block_in block.now (scope_of self.old)) self.new result }
    {
        let bound = self.locals.bound();
        let steps = self.steps(block.statements.as_slice())?;
        let typing = self.closed(block.place, &block.value, steps)?;
        self.locals.leave(bound);
        Ok(typing)
    }

    // Statements in order, each where those before it are bound.
    #[cycle(expression)]
    fn steps(&mut self, statements: &[Statement]) -> Result<Sequence<BlockStep>, Stop>
        requires { IsReady self.old }
        ensures { Checks (AreSteps (scope_of self.old)) self.old (one_by_one (λ s. expressions.run (statement_in s)) statements.now (record { steps = []; behind = scope_of self.old })) self.new result }
    {
        let mut steps = Sequence::new(self.alloc);
        for statement in statements {
            steps.push(self.statement(statement)?)?;
        }
        Ok(steps)
    }

    // The block of these steps, and of its last expression, if there is one.
    #[cycle(expression)]
    fn closed(
        &mut self,
        place: u32,
        value: &Option<Boxed<Expression>>,
        mut steps: Sequence<BlockStep>,
    ) -> Result<Typing, Stop>
        requires { IsReady self.old }
        ensures { Checks (IsTyping (scope_of self.old)) self.old (expressions.close place (option_map expression_in value.now) (record { steps = steps; behind = scope_of self.old })) self.new result }
    {
        match value {
            None => Ok(at(place, None, Typed::Block(steps))),
            Some(last) => {
                let last = self.expression(last.get())?;
                steps.push(BlockStep::Give(last.typed))?;
                Ok(at(place, last.part.of, Typed::Block(steps)))
            }
        }
    }

    // A statement, and what it binds.
    #[cycle(expression)]
    fn statement(&mut self, statement: &Statement) -> Result<BlockStep, Stop>
        requires { IsReady self.old }
        ensures { Checks (IsStep (scope_of self.old)) self.old (statement_in statement.now (scope_of self.old)) self.new result }
    {
        match statement {
            Statement::Let { name, value } => {
                let value = self.expression(value)?;
                self.bound(name, value)
            }
            Statement::Do(value) => Ok(BlockStep::Do(self.expression(value)?.typed)),
        }
    }

    // Binds a name to a value.
    fn bound(&mut self, name: &Name, value: Typing) -> Result<BlockStep, Stop>
        requires checker { IsReady self.old }
        requires part { IsPart self.old value.part }
        ensures { Checks (IsStep (scope_of self.old)) self.old (bound_step name.now (scope_of self.old) (typing_of self.old value)) self.new result }
    {
        match value.part.of {
            None => Err(Failure::Why(wrong_type(value.part))),
            Some(shape) => {
                self.locals.bind(name.text.as_slice(), shape)?;
                Ok(BlockStep::Let(value.typed))
            }
        }
    }

    // An `if` of these arms, and of the body after `else`, if there is one.
    fn conditional(&self, arms: Arms, last: Option<Typing>) -> Result<Typing, Stop>
        requires { IsChecker self.now }
        ensures { (xs : List types.ArmTyping) (ys : List types.Typing) → AreArms self.now arms xs → IsLast self.now last ys → Tells (TypedAs self.now) (types.conditional xs ys) result }
    {
        let Arms {
            place,
            conditions,
            mut bodies,
        } = arms;
        match last {
            None => decided(place.unwrap_or(0), None, conditions, bodies),
            Some(last) => {
                let place = place.unwrap_or(last.part.place);
                push(&mut bodies, last)?;
                let of = type_of_first(bodies.parts.as_slice());
                decided(place, of, conditions, bodies)
            }
        }
    }

    // No expressions.
    fn nothing(&self) -> Typings
        ensures { result ≡ record { parts = []; typed = [] } }
    {
        Typings {
            parts: Sequence::new(self.alloc),
            typed: Sequence::new(self.alloc),
        }
    }
}

// Adds an expression.
fn push(typings: &mut Typings, typing: Typing) -> Result<(), NoMemory>
    ensures { OnOk result (typings.new ≡ record { parts = typings.old.parts ++ typing.part ∷ []; typed = typings.old.typed ++ typing.typed ∷ [] }) }
{
    typings.parts.push(typing.part)?;
    typings.typed.push(typing.typed)?;
    Ok(())
}

// An `if` of these conditions and bodies, all of this type.
fn decided(
    place: u32,
    of: Option<Shape>,
    conditions: Typings,
    bodies: Typings,
) -> Result<Typing, Stop>
    ensures { (arrays : List ValueType) → AreArrays arrays → IsShapeIf arrays of → All (λ (p : Counted). IsShapeIf arrays p.of) conditions.parts → All (λ (p : Counted). IsShapeIf arrays p.of) bodies.parts
        → Tells (λ y x. y ≡ x) (where_all (kinds.each (kinds.agrees (Some (kinds.bits 1))) (map (part_of arrays) conditions.parts) ∷ kinds.each (kinds.agrees (type_if arrays of)) (map (part_of arrays) bodies.parts) ∷ [])
        (record { part = record { of = of; place = place }; typed = made.If conditions.typed bodies.typed })) result }
{
    refuse(least(
        all_agree(Some(Shape::Bits(1)), conditions.parts.as_slice()),
        all_agree(of, bodies.parts.as_slice()),
    ))?;
    let typed = Typed::If {
        conditions: conditions.typed,
        bodies: bodies.typed,
    };
    Ok(at(place, of, typed))
}
