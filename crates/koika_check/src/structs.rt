//! Checker: structs.

ghost use Rattle.std.specs.Prelude.{◌≡◌, ◌≤◌, ◌++◌, ◌∷◌, [], ℕ, List, length, None, OnOk};
ghost use Rattle.koika_check.specs.inner.Checking.{IsChecker};
ghost use Rattle.koika_check.specs.Declarations as declarations;
ghost use Rattle.koika_check.specs.inner.Listed.{AreFields, GrowsInParts, Keeps, Lists};
ghost use Rattle.koika_check.specs.Outcomes.{one_by_one};
ghost use Rattle.koika_check.specs.inner.Outcomes.{Answers};
ghost use Rattle.koika_check.specs.inner.Settled.{IsSettled};
ghost use Rattle.koika_check.specs.inner.Things.{position_of, thing};
ghost use Rattle.koika_check.specs.declared.things.Kind.TheVariants as kind;

use crate::additions::next_number;
use crate::checked::{CheckedField, Struct};
use crate::checker::Checker;
use crate::enums::add_part;
use crate::shapes::Shape;
use crate::stop::Stop;
use crate::things::{Kind, Thing};
use koika_syntax::{Field as WrittenField, Name};
use kw_bits::{Bits, Sequence, Text};

/// The fields of a struct that is being read: with their types by shapes, and their width together, which is 129 where it
/// is more than 128.
#[derive(Drop)]
pub(crate) struct Fields {
    pub fields: Sequence<CheckedField>,
    pub shapes: Sequence<Shape>,
    pub width: u32,
}

impl Checker {
    /// `struct`.
    pub(crate) fn structure_type(
        &mut self,
        name: &Name,
        fields: &[WrittenField],
    ) -> Result<(), Stop>
        requires { IsSettled self.old }
        ensures kept { OnOk result (IsSettled self.new) }
        ensures hosts { OnOk result (self.new.hosts ≡ self.old.hosts) }
        ensures answers { Answers (λ _ x. self.new.design ≡ record self.old.design { structs = self.old.design.structs ++ x ∷ [] }) (declarations.struct_with self.old.design name.now fields.now) result }
    {
        self.is_new(name)?;
        let number = next_number(self.design.structs.len())?;
        let kept = self.all_fields(number, fields)?;
        let text = Text::from_slice(self.alloc, name.text.as_slice())?;
        let declared = Struct {
            name: text,
            fields: kept.fields,
            width: kept.width,
        };
        self.design.structs.push(declared)?;
        self.fields.push(kept.shapes)?;
        self.things.declare(
            name.text.as_slice(),
            Thing {
                kind: Kind::Struct,
                number,
            },
        )?;
        Ok(())
    }

    // The fields of the struct of this number, which has none before.
    fn all_fields(&mut self, number: u32, fields: &[WrittenField]) -> Result<Fields, Stop>
        requires checker { IsChecker self.old }
        requires new { length self.old.design.structs ≤ number }
        requires none { (name : List ℕ) → position_of self.old.parts (thing kind.Struct number) name ≡ None }
        ensures kept { OnOk result (IsChecker self.new) }
        ensures grows { OnOk result (GrowsInParts self.old self.new) }
        ensures locals { OnOk result (self.new.locals ≡ self.old.locals) }
        ensures keeps { OnOk result (Keeps self.old.parts self.new.parts (thing kind.Struct number)) }
        ensures answers { Answers (λ kept found. (kept.fields ≡ found) × AreFields self.new kept × Lists self.new.parts (thing kind.Struct number) (declarations.names_of_fields kept.fields)) (one_by_one (declarations.add_field self.old.design) fields.now []) result }
    {
        let mut kept = Fields {
            fields: Sequence::new(self.alloc),
            shapes: Sequence::new(self.alloc),
            width: 0,
        };
        for field in fields {
            self.next_field(number, field, &mut kept)?;
        }
        Ok(kept)
    }

    // Adds the next field.
    fn next_field(
        &mut self,
        number: u32,
        field: &WrittenField,
        kept: &mut Fields,
    ) -> Result<(), Stop>
        requires checker { IsChecker self.old }
        requires new { length self.old.design.structs ≤ number }
        requires fields { AreFields self.old kept.old }
        requires lists { Lists self.old.parts (thing kind.Struct number) (declarations.names_of_fields kept.old.fields) }
        ensures kept { OnOk result (IsChecker self.new) }
        ensures grows { OnOk result (GrowsInParts self.old self.new) }
        ensures locals { OnOk result (self.new.locals ≡ self.old.locals) }
        ensures keeps { OnOk result (Keeps self.old.parts self.new.parts (thing kind.Struct number)) }
        ensures fields { OnOk result (AreFields self.new kept.new) }
        ensures lists { OnOk result (Lists self.new.parts (thing kind.Struct number) (declarations.names_of_fields kept.new.fields)) }
        ensures answers { Answers (λ _ found. kept.new.fields ≡ found) (declarations.add_field self.old.design field.now kept.old.fields) result }
    {
        add_part(
            self.alloc,
            &mut self.parts,
            Thing {
                kind: Kind::Struct,
                number,
            },
            &field.name,
            kept.fields.len(),
        )?;
        let of = self.named_type(&field.of)?;
        let width = self.width(of.shape);
        kept.width = kept.width.saturating_add(width).min(Bits::MAX_WIDTH + 1);
        let text = Text::from_slice(self.alloc, field.name.text.as_slice())?;
        kept.fields.push(CheckedField {
            name: text,
            of: of.of,
        })?;
        kept.shapes.push(of.shape)?;
        Ok(())
    }
}
