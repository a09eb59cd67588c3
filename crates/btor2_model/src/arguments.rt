//! Circuits: the arguments of a line by their places.

ghost use Rattle.std.specs.Prelude.{◌≡◌, slice_get};
ghost use Rattle.btor2_model.specs.Acceptance.{digits_of};
ghost use Rattle.btor2_model.specs.Scope.{id_at, argument_number};

use btor2_text::Argument;

/// The id that an argument is, or 0, which is none.
pub fn id_at(arguments: &[Argument], place: usize) -> u64
    ensures { result ≡ id_at arguments.now place }
{
    match arguments.get(place) {
        Some(Argument::Id(id)) => *id,
        _ => 0,
    }
}

/// The digits that an argument is, or none.
pub fn digits_at(arguments: &[Argument], place: usize) -> &[u8]
    ensures { result.now ≡ digits_of (slice_get arguments.now place) }
{
    match arguments.get(place) {
        Some(Argument::Numeral(digits)) => digits.as_slice(),
        _ => &[],
    }
}

/// The width, bound or count that an argument is, or 0.
pub fn number_at(arguments: &[Argument], place: usize) -> u32
    ensures { result ≡ argument_number (slice_get arguments.now place) }
{
    match arguments.get(place) {
        Some(Argument::Number(number)) => *number,
        _ => 0,
    }
}
