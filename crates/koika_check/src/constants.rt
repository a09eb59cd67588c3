//! Checker: constants.

ghost use Rattle.std.specs.Prelude.{◌≡◌, ◌<◌, length};
ghost use Rattle.koika_check.specs.inner.Checking.{AreKnown, AreKnownFields, Checks, IsChecker, IsKnown, IsMember, IsReady, StandsFor, scope_of};
ghost use Rattle.koika_check.specs.Composites as types;
ghost use Rattle.koika_check.specs.Constants.{constant_of, struct_known};
ghost use Rattle.koika_check.specs.inner.Constants.{constant_field_of};
ghost use Rattle.koika_check.specs.Outcomes.{◌>>=◌ as ◌▹◌, found, in_turn, wrong};
ghost use Rattle.koika_check.specs.inner.Outcomes.{Tells};
ghost use Rattle.koika_check.specs.Types.{bits, part};
ghost use Rattle.koika_check.specs.Kinds.{number_named};
ghost use Rattle.koika_check.specs.declared.things.Kind.TheVariants as kind;
ghost use Rattle.kw_base.specs.declared.fault_number.TheConstants.{UNKNOWN_NAME, WRONG_FIELD};
ghost use Rattle.std.specs.Prelude.{Some};
ghost use Rattle.koika_check.specs.declared.checker.Checker.{Checker as Checking};

use crate::agreement::Part;
use crate::checker::{Checker, Known};
use crate::composites::Given;
use crate::shapes::Shape;
use crate::stop::{Stop, stop_at};
use crate::things::{Kind, Thing};
use koika_syntax::{Constant, ConstantField, Literal, Name};
use koika_types::Value;
use kw_base::fault_number;
use kw_bits::{Bits, Sequence};

/// Constants that are well typed, in order.
#[derive(Drop)]
pub(crate) struct Knowns {
    pub parts: Sequence<Part>,
    pub values: Sequence<Value>,
}

/// Fields of constants that are well typed, in order.
#[derive(Drop)]
pub(crate) struct KnownFields {
    pub given: Sequence<Given>,
    pub values: Sequence<Value>,
}

impl Checker {
    /// The value of a constant and its type.
    #[cycle(constant)]
    pub(crate) fn constant(&mut self, of: &Constant) -> Result<Known, Stop>
        requires { IsReady self.old }
        ensures { Checks (IsKnown (scope_of self.old)) self.old (constant_of of.now self.old.design) self.new result }
    {
        match of {
            Constant::Literal(literal) => Ok(Known {
                part: literal_part(*literal),
                value: Value::Number(literal.bits),
            }),
            Constant::Member { of, member } => self.member(of, member),
            Constant::Struct { of, fields, close } => {
                self.constant_struct(of, fields.as_slice(), *close)
            }
            Constant::Array { place, elements } => {
                let known = self.constants(elements.as_slice())?;
                Ok(Known {
                    part: self.array_of(*place, known.parts.as_slice())?,
                    value: Value::Items(known.values),
                })
            }
        }
    }

    // A struct of these fields, in front of this closing bracket.
    #[cycle(constant)]
    fn constant_struct(
        &mut self,
        of: &Name,
        fields: &[ConstantField],
        close: u32,
    ) -> Result<Known, Stop>
        requires { IsReady self.old }
        ensures { Checks (IsKnown (scope_of self.old)) self.old (found (number_named kind.Struct self.old.design of.now.text) (wrong UNKNOWN_NAME of.now.place) ▹ λ number.
            in_turn (λ f. constant_field_of f self.old.design) fields.now ▹ struct_known self.old.design number of.now.place close) self.new result }
    {
        let number = self.number_named(Kind::Struct, of)?;
        let fields = self.constant_fields(number, fields)?;
        let given = fields.given.as_slice();
        Ok(Known {
            part: self.struct_of(number, of.place, given, close)?,
            value: Value::Fields(number, fields.values),
        })
    }

    // Constants in order.
    #[cycle(constant)]
    fn constants(&mut self, elements: &[Constant]) -> Result<Knowns, Stop>
        requires { IsReady self.old }
        ensures { Checks (AreKnown (scope_of self.old)) self.old (in_turn (λ e. constant_of e self.old.design) elements.now) self.new result }
    {
        let mut parts = Sequence::new(self.alloc);
        let mut values = Sequence::new(self.alloc);
        for element in elements {
            let known = self.constant(element)?;
            parts.push(known.part)?;
            values.push(known.value)?;
        }
        Ok(Knowns { parts, values })
    }

    // The fields of a struct in order.
    #[cycle(constant)]
    fn constant_fields(
        &mut self,
        number: u32,
        fields: &[ConstantField],
    ) -> Result<KnownFields, Stop>
        requires checker { IsReady self.old }
        requires declared { number < length self.old.design.structs }
        ensures { Checks (AreKnownFields (scope_of self.old) number) self.old (in_turn (λ f. constant_field_of f self.old.design) fields.now) self.new result }
    {
        let mut given = Sequence::new(self.alloc);
        let mut values = Sequence::new(self.alloc);
        for index in 0..fields.len() {
            let field = &fields[index];
            let known = self.constant(&field.value)?;
            given.push(self.given(number, &field.name, index, known.part)?)?;
            values.push(known.value)?;
        }
        Ok(KnownFields { given, values })
    }

    /// The member of an enum.
    pub(crate) fn member(&self, of: &Name, member: &Name) -> Result<Known, Stop>
        requires { IsChecker self.now }
        ensures { Tells (IsMember self.now of.now.place) (types.member self.now.design of.now member.now) result }
    {
        let number = self.number_named(Kind::Enum, of)?;
        Ok(Known {
            part: Part {
                of: Some(Shape::Enum(number)),
                place: of.place,
            },
            value: Value::Member(number, self.bits_of_member(number, member)?),
        })
    }

    // The bits of a member.
    fn bits_of_member(&self, of: u32, member: &Name) -> Result<Bits, Stop>
        requires checker { IsChecker self.now }
        requires declared { of < length self.now.design.enums }
        ensures { Tells (λ bits of. bits ≡ of) (found (types.member_named (types.members_of self.now.design of) member.now.text) (wrong WRONG_FIELD member.now.place)) result }
    {
        let name = member.text.as_slice();
        match self.parts.find(
            self.alloc,
            Thing {
                kind: Kind::Enum,
                number: of,
            },
            name,
        )? {
            Some(position) => Ok(self.design.enums[of as usize].members[position as usize].bits),
            None => Err(stop_at(fault_number::WRONG_FIELD, member.place)),
        }
    }
}

/// What a literal is as a part.
pub(crate) fn literal_part(literal: Literal) -> Part
    ensures { (c : Checking) → StandsFor c result (part (Some (bits literal.bits.width)) literal.place) }
{
    Part {
        of: Some(Shape::Bits(literal.bits.width())),
        place: literal.place,
    }
}
