//! Checker: enums.

ghost use Rattle.std.specs.Prelude.{◌≡◌, ◌++◌, ◌∷◌, [], ℕ, List, length, map, None, OnOk};
ghost use Rattle.koika_syntax.specs.declared.tree.EnumMember.{EnumMember as Written};
ghost use Rattle.koika_check.specs.Declarations as declarations;
ghost use Rattle.koika_check.specs.inner.Listed.{Keeps, Lists};
ghost use Rattle.koika_check.specs.Outcomes.{one_by_one};
ghost use Rattle.koika_check.specs.inner.Outcomes.{Answers};
ghost use Rattle.koika_check.specs.inner.Settled.{IsSettled};
ghost use Rattle.koika_check.specs.inner.Things.{AreParts, position_of, thing};
ghost use Rattle.koika_check.specs.Types as types;
ghost use Rattle.koika_check.specs.declared.things.Kind.TheVariants as kind;

use crate::additions::next_number;
use crate::checker::Checker;
use crate::declarations::{has_width, repeated};
use crate::parts::Parts;
use crate::stop::{Stop, Wrong, least, refuse, unless};
use crate::things::{Kind, Thing};
use crate::types::is_width;
use koika_syntax::{EnumMember as WrittenMember, Name, Width};
use koika_types::{EnumDecl, Member};
use kw_base::fault_number;
use kw_bits::{Sequence, Text};
use std::alloc::Global;

impl Checker {
    /// `enum`.
    pub(crate) fn enumeration(
        &mut self,
        name: &Name,
        width: Width,
        members: &[WrittenMember],
    ) -> Result<(), Stop>
        requires { IsSettled self.old }
        ensures kept { OnOk result (IsSettled self.new) }
        ensures hosts { OnOk result (self.new.hosts ≡ self.old.hosts) }
        ensures answers { Answers (λ _ x. self.new.design ≡ record self.old.design { enums = self.old.design.enums ++ x ∷ [] }) (declarations.enum_with self.old.design name.now width members.now) result }
    {
        self.is_new(name)?;
        let number = next_number(self.design.enums.len())?;
        let kept = members_of(self.alloc, &mut self.parts, number, members)?;
        let bits = width.number.value;
        let in_range = unless(is_width(bits), fault_number::WRONG_WIDTH, width.place);
        refuse(least(in_range, members_have_width(members, bits)))?;
        let text = Text::from_slice(self.alloc, name.text.as_slice())?;
        let declared = EnumDecl {
            name: text,
            width: bits,
            members: kept,
        };
        self.design.enums.push(declared)?;
        self.things.declare(
            name.text.as_slice(),
            Thing {
                kind: Kind::Enum,
                number,
            },
        )?;
        Ok(())
    }
}

// The members of the enum of this number, which has none before.
fn members_of(
    alloc: Global,
    parts: &mut Parts,
    number: u32,
    members: &[WrittenMember],
) -> Result<Sequence<Member>, Stop>
    requires parts { AreParts parts.old }
    requires none { (name : List ℕ) → position_of parts.old (thing kind.Enum number) name ≡ None }
    ensures kept { OnOk result (AreParts parts.new) }
    ensures keeps { OnOk result (Keeps parts.old parts.new (thing kind.Enum number)) }
    ensures answers { Answers (λ kept found. (kept ≡ found) × Lists parts.new (thing kind.Enum number) (declarations.names_of_members found)) (one_by_one declarations.add_member members.now []) result }
{
    let mut kept = Sequence::new(alloc);
    for index in 0..members.len() {
        let member = &members[index];
        add_part(
            alloc,
            parts,
            Thing {
                kind: Kind::Enum,
                number,
            },
            &member.name,
            index,
        )?;
        let text = Text::from_slice(alloc, member.name.text.as_slice())?;
        kept.push(Member {
            name: text,
            bits: member.value.bits,
        })?;
    }
    Ok(kept)
}

/// Adds the next part of a declaration, after that many, under a name that none of them has.
pub(crate) fn add_part(
    alloc: Global,
    parts: &mut Parts,
    of: Thing,
    name: &Name,
    position: usize,
) -> Result<(), Stop>
    requires { AreParts parts.old }
    ensures kept { OnOk result (AreParts parts.new) }
    ensures keeps { OnOk result (Keeps parts.old parts.new of) }
    ensures answers { (names : List (List ℕ)) → Lists parts.old of names → length names ≡ position
        → Answers (λ _ text. (text ≡ name.now.text) × Lists parts.new of (names ++ name.now.text ∷ [])) (declarations.other_name names name.now) result }
{
    let position = next_number(position)?;
    if parts.add(alloc, of, name.text.as_slice(), position)? {
        Ok(())
    } else {
        Err(repeated(name))
    }
}

// What is wrong with the first member whose literal isn't of this width.
fn members_have_width(members: &[WrittenMember], width: u32) -> Option<Wrong>
    ensures { result ≡ types.each (declarations.has_width width) (map (λ (m : Written). m.value) members.now) }
{
    for member in members {
        let wrong = has_width(member.value, width);
        if wrong.is_some() {
            return wrong;
        }
    }
    None
}
