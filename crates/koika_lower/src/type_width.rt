//! Lowering: the width of a type.

ghost use Rattle.std.specs.Prelude.{◌≡◌, ◌≤◌};
ghost use Rattle.koika_check.specs.Types as types;
ghost use Rattle.koika_check.specs.Typing.{IsType};

use koika_check::{BaseType, Checked, ValueType};

/// How many bits a value of a valid type has.
pub(crate) fn width_of(checked: &Checked, of: &ValueType) -> u32
    requires { IsType checked.now of.now }
    ensures { result ≡ types.width_of checked.now of.now }
{
    let mut width = base_width(checked, of.base);
    let lengths = of.lengths.as_slice();
    for length in lengths {
        width = width.saturating_mul(*length);
    }
    width
}

// How many bits a value of a base type has: an enum and a struct are declared, since there is none without a bit.
fn base_width(checked: &Checked, base: BaseType) -> u32
    requires { 1 ≤ types.base_width checked.now base }
    ensures { result ≡ types.base_width checked.now base }
{
    match base {
        BaseType::Bits(width) => width,
        BaseType::Enum(number) => checked.enums.as_slice()[number as usize].width,
        BaseType::Struct(number) => checked.structs.as_slice()[number as usize].width,
    }
}
