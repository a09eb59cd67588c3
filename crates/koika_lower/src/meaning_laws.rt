//! The laws of what a typed tree means. Each is proved, and computes nothing.

ghost use Rattle.std.specs.List.{AllByRecursion};
ghost use Rattle.std.specs.Prelude.{◌≡◌, ℕ, length, List, [], Option, slice_get, Some};
ghost use Rattle.kw_bits.specs.BitVector.{BitVector};
ghost use Rattle.kw_bits.specs.Laws.{HasWidth};
ghost use Rattle.koika_types.specs.Values.{packed};
ghost use Rattle.koika_types.specs.declared.value.Value.{Value};
ghost use Rattle.typed_core.specs.Evaluation.{Ports};
ghost use Rattle.typed_core.specs.Fits.{EventsFit, PortsFit};
ghost use Rattle.typed_core.specs.Widths.{HaveWidths};
ghost use Rattle.typed_core.specs.declared.outcome.Stopped.{Stopped};
ghost use Rattle.koika_check.specs.Meaning.{meaning, rule_body, setting, unpacked};
ghost use Rattle.koika_check.specs.Types.{width_of};
ghost use Rattle.koika_check.specs.Typing.{HasType, IsOf, IsType, IsTypedDesign, Pairwise};
ghost use Rattle.koika_check.specs.declared.checked.Checked.{Checked};
ghost use Rattle.koika_check.specs.declared.checked.CheckedRule.{CheckedRule};
ghost use Rattle.koika_check.specs.declared.typed.Typed.{Typed};
ghost use Rattle.koika_check.specs.declared.typed.ValueType.{ValueType};
ghost use Rattle.koika_lower.specs.Guarded.{EndsOfType, guarded_body, unstuck};
ghost use Rattle.koika_lower.specs.Lowering.{typed_input_widths, register_widths};

/// What bits are unpacked to, as a value of a type, is of the type and is packed into these bits.
pub fn unpacked_is_packed()
    ensures { (d : Checked) (t : ValueType) (bits : BitVector) →
        IsTypedDesign d → IsType d t → HasWidth bits (width_of d t) →
        IsOf d (unpacked d t bits) t × (packed (unpacked d t bits) ≡ bits) }
{}

/// What a value of a type is packed into is unpacked to the value.
pub fn packed_is_unpacked()
    ensures { (d : Checked) (t : ValueType) (v : Value) →
        IsTypedDesign d → IsType d t → IsOf d v t →
        HasWidth (packed v) (width_of d t) × (unpacked d t (packed v) ≡ v) }
{}

/// A rule of a well typed design evaluates to what it does where no definition takes a default: it's never stuck. Inputs have
/// their widths, and ports answer with bits of their registers' widths.
pub fn never_stuck()
    ensures { (d : Checked) (number : ℕ) (rule : CheckedRule) (inputs : List BitVector) (ports : Ports Stopped) →
        IsTypedDesign d → slice_get d.rules number ≡ Some rule →
        HaveWidths (typed_input_widths d) inputs → PortsFit (register_widths d) ports →
        guarded_body d inputs ports rule.body [] ≡ unstuck (rule_body d inputs ports rule.body []) }
{}

/// An expression that has a type in a well typed design evaluates to a value of the type, or to none where it's unit, unless the
/// rule is stopped, and notes events that fit the registers. The names that are bound round it have values of their types.
pub fn evaluates_to_its_type()
    ensures { (d : Checked) (e : Typed) (types : List ValueType) (of : Option ValueType) (values : List Value)
        (inputs : List BitVector) (ports : Ports Stopped) →
        IsTypedDesign d → HasType d (length d.functions) e types of →
        AllByRecursion (IsType d) types → Pairwise (IsOf d) values types →
        HaveWidths (typed_input_widths d) inputs → PortsFit (register_widths d) ports →
        EventsFit (register_widths d) (meaning (setting d inputs ports) e values []).events
        × EndsOfType d of (meaning (setting d inputs ports) e values []).ending }
{}
