//! Lint: which accesses rules make, and which of them may be refused.

ghost use Rattle.std.specs.Prelude.{◌≡◌, ◌&&◌, ◌++◌, ◌∷◌, [], IfOk, OnOk, cond};
ghost use Rattle.std.specs.List.{filter, list_any};
ghost use Rattle.typed_core.specs.Clash.{clashes};
ghost use Rattle.typed_core.specs.declared.access.Access.{Access as AccessOf};
ghost use Rattle.lab_lint.specs.Occurrences.{rule_part};
ghost use Rattle.lab_lint.specs.Refusals.{accesses_of, is_access, is_refused_in};

use crate::meeting::is_refused;
use crate::occurrence::Occurrence;
use koika_check::Checked;
use kw_bits::{NoMemory, Sequence};
use std::alloc::Global;
use typed_core::Access;

/// The accesses of a register that are among occurrences: reads before writes, lower ports before higher ones.
pub fn made_accesses(
    alloc: Global,
    all: &[Occurrence],
    register: u32,
) -> Result<Sequence<Access>, NoMemory>
    ensures { IfOk result (λ made. made ≡ filter (λ (a : AccessOf). list_any (is_access a) all.now) (accesses_of register)) }
{
    let accesses = accesses_of(register);
    among(alloc, &accesses, all)
}

// Of these accesses those that are among occurrences.
fn among(
    alloc: Global,
    accesses: &[Access],
    all: &[Occurrence],
) -> Result<Sequence<Access>, NoMemory>
    ensures { IfOk result (λ made. made ≡ filter (λ (a : AccessOf). list_any (is_access a) all.now) accesses.now) }
{
    let mut some = Sequence::new(alloc);
    for access in accesses {
        push_if(occurs(all, *access), *access, &mut some)?;
    }
    Ok(some)
}

// Adds an access, if it is so.
fn push_if(is_so: bool, access: Access, some: &mut Sequence<Access>) -> Result<(), NoMemory>
    ensures { OnOk result (some.new ≡ some.old ++ cond is_so (access ∷ []) []) }
{
    if is_so { some.push(access) } else { Ok(()) }
}

// The accesses of a register that there are.
fn accesses_of(register: u32) -> [Access; 8]
    ensures { result ≡ accesses_of register }
{
    [
        access(false, 0, register),
        access(false, 1, register),
        access(false, 2, register),
        access(false, 3, register),
        access(true, 0, register),
        access(true, 1, register),
        access(true, 2, register),
        access(true, 3, register),
    ]
}

fn access(write: bool, port: u32, register: u32) -> Access
    ensures { result ≡ record { write = write; port = port; register = register } }
{
    Access {
        write,
        port,
        register,
    }
}

// Whether the access is among occurrences.
fn occurs(all: &[Occurrence], access: Access) -> bool
    ensures { result ≡ list_any (is_access access) all.now }
{
    all.iter().any(|occurrence| is_access(access, occurrence))
}

fn is_access(access: Access, occurrence: &Occurrence) -> bool
    ensures { result ≡ is_access access occurrence.now }
{
    match occurrence {
        Occurrence::Access(other) => access == *other,
        _ => false,
    }
}

/// Of the accesses that a rule makes, the writes that its own accesses may refuse.
pub fn own_writes(
    alloc: Global,
    design: &Checked,
    rule: usize,
    made: &[Access],
) -> Result<Sequence<Access>, NoMemory>
    ensures { IfOk result (λ refused. refused ≡ filter (λ (a : AccessOf). a.write && is_refused_in (rule_part design.now rule) a) made.now) }
{
    let mut some = Sequence::new(alloc);
    for access in made {
        push_if(is_refused_write(design, rule, *access), *access, &mut some)?;
    }
    Ok(some)
}

fn is_refused_write(design: &Checked, rule: usize, access: Access) -> bool
    ensures { result ≡ (access.write && is_refused_in (rule_part design.now rule) access) }
{
    access.write && is_refused(design, rule, access)
}

/// The accesses that cannot follow some other access.
pub fn clashing(
    alloc: Global,
    accesses: &[Access],
    earlier: &[Access],
) -> Result<Sequence<Access>, NoMemory>
    ensures { IfOk result (λ some. some ≡ filter (λ (a : AccessOf). list_any (λ (e : AccessOf). clashes a e) earlier.now) accesses.now) }
{
    let mut some = Sequence::new(alloc);
    for access in accesses {
        push_if(cannot_follow(*access, earlier), *access, &mut some)?;
    }
    Ok(some)
}

// Whether an access cannot follow some other.
fn cannot_follow(access: Access, earlier: &[Access]) -> bool
    ensures { result ≡ list_any (λ (e : AccessOf). clashes access e) earlier.now }
{
    earlier.iter().any(|other| access.clashes_after(other))
}

/// The accesses that some other access cannot follow.
pub fn clashed(
    alloc: Global,
    accesses: &[Access],
    later: &[Access],
) -> Result<Sequence<Access>, NoMemory>
    ensures { IfOk result (λ some. some ≡ filter (λ (e : AccessOf). list_any (λ (a : AccessOf). clashes a e) later.now) accesses.now) }
{
    let mut some = Sequence::new(alloc);
    for access in accesses {
        push_if(cannot_precede(*access, later), *access, &mut some)?;
    }
    Ok(some)
}

fn cannot_precede(access: Access, later: &[Access]) -> bool
    ensures { result ≡ list_any (λ (a : AccessOf). clashes a access) later.now }
{
    later.iter().any(|other| other.clashes_after(&access))
}
