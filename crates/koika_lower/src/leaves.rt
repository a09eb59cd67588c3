//! Lowering: values and names.

ghost use Rattle.std.specs.Prelude.{◌≡◌, ◌-◌, ◌<◌, length, slice_get};
ghost use Rattle.koika_types.specs.Values.{packed};
ghost use Rattle.koika_check.specs.Typing.{IsOf, IsType, IsTypedDesign};
ghost use Rattle.koika_check.specs.declared.checked.Checked.{Checked as CheckedDesign};
ghost use Rattle.koika_check.specs.declared.typed.ValueType.{ValueType};
ghost use Rattle.koika_check.specs.declared.checked.Input.{Input};
ghost use Rattle.koika_check.specs.declared.checked.Register.{Register};
ghost use Rattle.typed_core.specs.declared.action.Action.TheVariants as action;

use crate::lowered::{Bound, Lowered};
use crate::packing::bits_of;
use koika_check::Checked;
use koika_types::Value;
use typed_core::{Action, Scope};

/// A value of a type as its bits.
pub(crate) fn constant(value: &Value) -> Lowered
    requires { (d : CheckedDesign) × (t : ValueType) × IsTypedDesign d × IsType d t × IsOf d value.now t }
    ensures { result ≡ record { action = action.Const (packed value.now); width = (packed value.now).width } }
{
    match bits_of(value) {
        Some(bits) => Lowered {
            action: Action::Const(bits),
            width: bits.width(),
        },
        None => unreachable!(),
    }
}

/// A name is its number from the inside, where that many `Let`s stand round it.
pub(crate) fn local(names: &Scope<Bound>, depth: u32, index: u32) -> Lowered
    requires { index < length names.now }
    ensures { (b : Bound) → slice_get names.now index ≡ Some b → result ≡ record { action = action.Local (depth - b.level - 1); width = b.width } }
{
    match names.get(index) {
        Some(bound) => Lowered {
            action: Action::Local(depth.saturating_sub(bound.level).saturating_sub(1)),
            width: bound.width,
        },
        None => unreachable!(),
    }
}

/// An input.
pub(crate) fn input(design: &Checked, number: u32) -> Lowered
    requires { number < length design.now.inputs }
    ensures { (i : Input) → slice_get design.now.inputs number ≡ Some i → result ≡ record { action = action.Input number; width = i.width } }
{
    Lowered {
        action: Action::Input(number),
        width: design.inputs.as_slice()[number as usize].width,
    }
}

/// A read at a port of a register.
pub(crate) fn read(design: &Checked, port: u32, register: u32) -> Lowered
    requires { register < length design.now.registers }
    ensures { (held : Register) → slice_get design.now.registers register ≡ Some held → result ≡ record { action = action.Read port register; width = held.width } }
{
    Lowered {
        action: Action::Read(port, register),
        width: design.registers.as_slice()[register as usize].width,
    }
}
