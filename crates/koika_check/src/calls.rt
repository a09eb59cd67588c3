//! Checker: calls.

ghost use Rattle.std.specs.Prelude.{◌≡◌, ◌<◌, All, List, Some, length, map, nat_eq, replicate, slice_get, IfOk};
ghost use Rattle.kw_base.specs.declared.fault_number.TheConstants.{WRONG_ARGUMENT_COUNT};
ghost use Rattle.koika_check.specs.inner.Checking.{AreTyped, IsCalled, IsChecker, TypedAs};
ghost use Rattle.koika_check.specs.Constructs as types;
ghost use Rattle.koika_check.specs.Outcomes.{holds, wrong};
ghost use Rattle.koika_check.specs.inner.Outcomes.{Tells};
ghost use Rattle.koika_check.specs.Scopes as scopes;
ghost use Rattle.koika_check.specs.inner.Shapes.{AreArrays, IsShape, IsShapeIf, part_of, type_of_shape};
ghost use Rattle.koika_check.specs.declared.agreement.Part.{Part as Counted};
ghost use Rattle.koika_check.specs.declared.typed.ValueType.{ValueType};

use crate::agreement::{Part, agrees};
use crate::checker::{Checker, Typing, Typings};
use crate::constructs::at;
use crate::names::unknown;
use crate::shapes::Shape;
use crate::stop::{Stop, Wrong, least, refuse, unless};
use crate::things::{Kind, number_if};
use crate::typed::{Operation, Typed};
use koika_syntax::Name;
use kw_base::fault_number;
use kw_bits::{NoMemory, Sequence};
use std::alloc::Global;

/// What a call does, the types that its arguments are to have, and that of what it gives.
#[derive(Drop)]
pub(crate) struct Called {
    pub operation: Operation,
    pub parameters: Sequence<Shape>,
    pub gives: Option<Shape>,
}

impl Checker {
    /// A call of this with these arguments.
    pub(crate) fn call(&self, name: &Name, called: Called, values: Typings) -> Result<Typing, Stop>
        requires checker { IsChecker self.now }
        ensures { (x : scopes.Called) (xs : List types.Typing) → IsCalled self.now called x → AreTyped self.now values xs → Tells (TypedAs self.now) (types.call name.now x xs) result }
    {
        let parameters = called.parameters.as_slice();
        let arguments = values.parts.as_slice();
        let as_many = has_as_many(name, parameters, arguments);
        refuse(least(as_many, arguments_agree(parameters, arguments)))?;
        Ok(at(
            name.place,
            called.gives,
            Typed::Apply(called.operation, values.typed),
        ))
    }

    /// What this name calls.
    pub(crate) fn called(&self, name: &Name) -> Result<Called, Stop>
        requires { IsChecker self.now }
        ensures { Tells (IsCalled self.now) (scopes.called self.now.design name.now) result }
    {
        let thing = self.things.named(name.text.as_slice());
        if let Some(number) = number_if(Kind::Function, thing) {
            return Ok(self.called_function(number)?);
        }
        if let Some(number) = number_if(Kind::Table, thing) {
            return Ok(self.called_table(number)?);
        }
        match number_if(Kind::Host, thing) {
            Some(number) => Ok(self.called_host(number)?),
            None => Err(unknown(name)),
        }
    }

    // What a call of the function of this number is.
    fn called_function(&self, number: u32) -> Result<Called, NoMemory>
        requires checker { IsChecker self.now }
        requires declared { number < length self.now.design.functions }
        ensures { IfOk result (λ called. (x : scopes.Called) × (scopes.called_function (Some number) (slice_get self.now.design.functions number) ≡ Some x) × IsCalled self.now called x) }
    {
        let signature = &self.functions[number as usize];
        Ok(Called {
            operation: Operation::Call(number),
            parameters: Sequence::from_slice(self.alloc, signature.parameters.as_slice())?,
            gives: signature.result,
        })
    }

    // What a call of the table of this number is.
    fn called_table(&self, number: u32) -> Result<Called, NoMemory>
        requires checker { IsChecker self.now }
        requires declared { number < length self.now.design.tables }
        ensures { IfOk result (λ called. (x : scopes.Called) × (scopes.called_table (Some number) (slice_get self.now.design.tables number) ≡ Some x) × IsCalled self.now called x) }
    {
        let table = &self.design.tables[number as usize].spec;
        let mut parameters = Sequence::new(self.alloc);
        parameters.push(Shape::Bits(table.in_width))?;
        Ok(Called {
            operation: Operation::Table(number),
            parameters,
            gives: Some(Shape::Bits(table.out_width)),
        })
    }

    // What a call of the host function of this number is.
    fn called_host(&self, number: u32) -> Result<Called, NoMemory>
        requires checker { IsChecker self.now }
        requires declared { number < length self.now.design.hosts }
        ensures { IfOk result (λ called. (x : scopes.Called) × (scopes.called_host (Some number) (slice_get self.now.design.hosts number) ≡ Some x) × IsCalled self.now called x) }
    {
        let host = self.design.hosts[number as usize].spec;
        let arity = host.kind.arity();
        let parameters = repeated(self.alloc, Shape::Bits(host.in_width / arity), arity)?;
        Ok(Called {
            operation: Operation::Host(number),
            parameters,
            gives: Some(Shape::Bits(host.kind.out_width(host.in_width))),
        })
    }
}

// The same type that many times.
fn repeated(alloc: Global, of: Shape, count: u32) -> Result<Sequence<Shape>, NoMemory>
    ensures { IfOk result (λ shapes. shapes ≡ replicate count of) }
{
    let mut shapes = Sequence::new(alloc);
    for _ in 0..count {
        shapes.push(of)?;
    }
    Ok(shapes)
}

// What is wrong with how many arguments there are.
fn has_as_many(name: &Name, parameters: &[Shape], arguments: &[Part]) -> Option<Wrong>
    ensures { result ≡ holds (nat_eq (length arguments.now) (length parameters.now)) (wrong WRONG_ARGUMENT_COUNT name.now.place) }
{
    unless(
        arguments.len() == parameters.len(),
        fault_number::WRONG_ARGUMENT_COUNT,
        name.place,
    )
}

// What is wrong with the first argument that isn't of its parameter's type.
fn arguments_agree(parameters: &[Shape], arguments: &[Part]) -> Option<Wrong>
    ensures { (arrays : List ValueType) → AreArrays arrays → All (IsShape (length arrays)) parameters.now → All (λ (p : Counted). IsShapeIf arrays p.of) arguments.now
        → result ≡ types.arguments_agree (map (type_of_shape arrays) parameters.now) (map (part_of arrays) arguments.now) }
{
    for index in 0..parameters.len().min(arguments.len()) {
        let wrong = agrees(Some(parameters[index]), arguments[index]);
        if wrong.is_some() {
            return wrong;
        }
    }
    None
}
