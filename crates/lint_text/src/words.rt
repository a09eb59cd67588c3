//! Lint's text: the words of a line that are its own.

ghost use Rattle.std.specs.Prelude.{◌≡◌, ◌++◌, ◌∷◌, OnOk, decimal, if◌then◌else◌};
ghost use Rattle.std.specs.List.{flat_map};
ghost use Rattle.journal_check.specs.Printing.{spaced};
ghost use Rattle.lint_text.specs.Text.{accesses_text, after_comma, place_text, placed, port_text};

use itoa::Buffer;
use kw_base::Place;
use kw_bits::{NoMemory, Sequence, Text};
use typed_core::Access;

/// Adds a space and the line and the column of a place, if there is one of the number.
pub(crate) fn push_place(
    text: &mut Text,
    places: &Sequence<Place>,
    number: usize,
) -> Result<(), NoMemory>
    ensures { OnOk result (text.new ≡ text.old ++ spaced (place_text places.now number)) }
{
    text.push(b' ')?;
    match places.as_slice().get(number) {
        Some(place) => push_line_and_column(text, *place),
        None => Ok(()),
    }
}

// Adds a line and a column.
fn push_line_and_column(text: &mut Text, place: Place) -> Result<(), NoMemory>
    ensures { OnOk result (text.new ≡ text.old ++ (decimal place.line ++ 58 ∷ decimal place.column)) }
{
    text.extend_from_slice(Buffer::new().format(place.line).as_bytes())?;
    text.push(b':')?;
    text.extend_from_slice(Buffer::new().format(place.column).as_bytes())
}

/// Adds a space and accesses.
pub(crate) fn push_accesses(text: &mut Text, accesses: &[Access]) -> Result<(), NoMemory>
    ensures { OnOk result (text.new ≡ text.old ++ spaced (accesses_text accesses.now)) }
{
    text.push(b' ')?;
    match accesses.split_first() {
        Some((first, rest)) => {
            push_port(text, *first)?;
            push_after_commas(text, rest)
        }
        None => Ok(()),
    }
}

// Adds accesses, each after a comma.
fn push_after_commas(text: &mut Text, accesses: &[Access]) -> Result<(), NoMemory>
    ensures { OnOk result (text.new ≡ text.old ++ flat_map after_comma accesses.now) }
{
    for access in accesses {
        push_after_comma(text, *access)?;
    }
    Ok(())
}

fn push_after_comma(text: &mut Text, access: Access) -> Result<(), NoMemory>
    ensures { OnOk result (text.new ≡ text.old ++ after_comma access) }
{
    text.push(b',')?;
    push_port(text, access)
}

// Adds the kind and the port of an access.
fn push_port(text: &mut Text, access: Access) -> Result<(), NoMemory>
    ensures { OnOk result (text.new ≡ text.old ++ port_text access) }
{
    text.push(kind_of(access.write))?;
    text.extend_from_slice(Buffer::new().format(access.port).as_bytes())
}

fn kind_of(write: bool) -> u8
    ensures { result ≡ (if write then 119 else 114) }
{
    if write { b'w' } else { b'r' }
}
