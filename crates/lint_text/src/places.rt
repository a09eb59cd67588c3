//! Lint's text: where the names of declarations are.

ghost use Rattle.std.specs.Prelude.{◌≡◌, ◌≤◌, ◌++◌, IfOk, length, map};
ghost use Rattle.std.specs.Option.{option_to_list};
ghost use Rattle.kw_base.specs.Place.{place_at};
ghost use Rattle.lint_text.specs.Places as places;
ghost use Rattle.lint_text.specs.inner.Kinds.{place_by};

use koika_syntax::{Declaration, Tree};
use kw_base::Place;
use kw_bits::{NoMemory, Sequence};
use std::alloc::Global;

/// The lines and the columns of the names of a design's declarations, each kind in order of declaration.
#[derive(Drop)]
pub struct Places {
    pub rules: Sequence<Place>,
    pub registers: Sequence<Place>,
    pub inputs: Sequence<Place>,
    pub tables: Sequence<Place>,
    pub hosts: Sequence<Place>,
}

/// Those of the names in the tree of a text.
pub fn places_in(alloc: Global, text: &[u8], tree: &Tree) -> Result<Places, NoMemory>
    ensures { IfOk result (λ found. found ≡ places.places_in text.now tree.now) }
{
    Ok(Places {
        rules: places_of(alloc, Kind::Rule, text, tree)?,
        registers: places_of(alloc, Kind::Register, text, tree)?,
        inputs: places_of(alloc, Kind::Input, text, tree)?,
        tables: places_of(alloc, Kind::Table, text, tree)?,
        hosts: places_of(alloc, Kind::Host, text, tree)?,
    })
}

// A kind of declarations.
#[derive(Clone, Copy, Debug, PartialEq, Eq)]
enum Kind {
    Rule,
    Register,
    Input,
    Table,
    Host,
}

// The places of the names of a kind. Each is counted on from the one before.
fn places_of(
    alloc: Global,
    kind: Kind,
    text: &[u8],
    tree: &Tree,
) -> Result<Sequence<Place>, NoMemory>
    ensures { IfOk result (λ found. found ≡ places.places_by (place_by kind) text.now tree.now) }
{
    let mut found = Sequence::new(alloc);
    let mut mark = Mark::START;
    let declarations = tree.declarations.as_slice();
    for declaration in declarations {
        mark = push_place(kind, text, declaration, mark, &mut found)?;
    }
    Ok(found)
}

// Adds the place of a declaration's name, if it is of this kind. The mark that is given comes before it.
fn push_place(
    kind: Kind,
    text: &[u8],
    of: &Declaration,
    mark: Mark,
    found: &mut Sequence<Place>,
) -> Result<Mark, NoMemory>
    requires mark { mark.place ≡ place_at text.now mark.offset }
    ensures mark { IfOk result (λ next. next.place ≡ place_at text.now next.offset) }
    ensures found { IfOk result (λ next. found.new ≡ found.old ++ map (place_at text.now) (place_by kind of.now)) }
{
    match offset_of(kind, of) {
        Some(offset) => {
            let next = mark.moved(text, offset as usize);
            found.push(next.place)?;
            Ok(next)
        }
        None => Ok(mark),
    }
}

// Where the name of a declaration begins, if it is of this kind.
fn offset_of(kind: Kind, of: &Declaration) -> Option<u32>
    ensures { option_to_list result ≡ place_by kind of.now }
{
    match (kind, of) {
        (Kind::Rule, Declaration::Rule { name, .. }) => Some(name.place),
        (Kind::Register, Declaration::Register { name, .. }) => Some(name.place),
        (Kind::Input, Declaration::Input { name, .. }) => Some(name.place),
        (Kind::Table, Declaration::Table { name, .. }) => Some(name.place),
        (Kind::Host, Declaration::Host { name, .. }) => Some(name.place),
        _ => None,
    }
}

// An offset in a text, and the place of the byte there.
#[derive(Clone, Copy, Debug, PartialEq, Eq)]
struct Mark {
    offset: usize,
    place: Place,
}

impl Mark {
    // The first byte.
    const START: Mark = Mark {
        offset: 0,
        place: Place { line: 1, column: 1 },
    };

    // The mark at another offset, or at the end of the text if that is before it. What is between two marks is
    // looked at once, where the second is after the first.
    fn moved(self, text: &[u8], to: usize) -> Mark
        requires mark { self.place ≡ place_at text.now self.offset }
        ensures mark { result.place ≡ place_at text.now result.offset }
        ensures place { result.place ≡ place_at text.now to }
    {
        let to = to.min(text.len());
        if self.offset <= to {
            self.after(text, to)
        } else {
            Mark::START.after(text, to)
        }
    }

    // The mark at a later offset.
    fn after(self, text: &[u8], to: usize) -> Mark
        requires mark { self.place ≡ place_at text.now self.offset }
        requires order { self.offset ≤ to }
        requires within { to ≤ length text.now }
        ensures offset { result.offset ≡ to }
        ensures place { result.place ≡ place_at text.now to }
    {
        let mut line = self.place.line;
        let mut column = self.place.column;
        for at in self.offset..to {
            if text[at] == b'\n' {
                line = line.saturating_add(1);
                column = 1;
            } else {
                column = column.saturating_add(1);
            }
        }
        Mark {
            offset: to,
            place: Place { line, column },
        }
    }
}
