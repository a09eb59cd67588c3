//! Values: numbers of a width, and how they are extended and cut.

/// A number of 0 to 128 bits. A signed one is extended by its highest bit, another by zeros (5.4, 5.5).
#[derive(Clone, Copy)]
pub(crate) struct Value {
    pub(crate) width: u32,
    pub(crate) number: u128,
    pub(crate) is_signed: bool,
}

impl Value {
    /// The lowest bits of a number.
    pub(crate) fn new(width: u32, number: u128) -> Value {
        Value {
            width,
            number: number & ones(width),
            is_signed: false,
        }
    }

    /// One bit.
    pub(crate) fn flag(holds: bool) -> Value {
        Value::new(1, if holds { 1 } else { 0 })
    }

    /// The same bits, signed or not.
    pub(crate) fn signed(self, is_signed: bool) -> Value {
        Value { is_signed, ..self }
    }

    /// Whether the highest bit is 1.
    pub(crate) fn has_sign(self) -> bool {
        self.number > ones(self.width) / 2
    }

    /// The value at another width.
    pub(crate) fn at(self, width: u32) -> Value {
        let above = if self.is_signed && self.has_sign() {
            !ones(self.width)
        } else {
            0
        };
        Value::new(width, self.number | above).signed(self.is_signed)
    }

    /// The bits from a lower bound to an upper one (5.2.1).
    pub(crate) fn selected(self, upper: u32, lower: u32) -> Option<Value> {
        if upper < lower || self.width <= upper {
            return None;
        }
        Some(Value::new(upper - lower + 1, right(self.number, lower)))
    }

    /// This value above another one (5.1.14).
    pub(crate) fn above(self, low: Value) -> Option<Value> {
        let width = self.width.checked_add(low.width)?;
        if width > 128 {
            return None;
        }
        Some(Value::new(width, left(self.number, low.width) | low.number))
    }
}

/// The number whose bits below this one are all 1.
pub(crate) fn ones(width: u32) -> u128 {
    match 1_u128.checked_shl(width) {
        Some(power) => power.wrapping_sub(1),
        None => u128::MAX,
    }
}

/// The bits moved up, with zeros below.
pub(crate) fn left(number: u128, amount: u32) -> u128 {
    number.checked_shl(amount).unwrap_or(0)
}

/// The bits moved down, with zeros above.
pub(crate) fn right(number: u128, amount: u32) -> u128 {
    number.checked_shr(amount).unwrap_or(0)
}
