//! Designs: of which of them a bit-level circuit is made.

ghost use Rattle.std.specs.Prelude.{◌≡◌, ◌≤◌, ◌<◌, OnOk};
ghost use Rattle.kw_base.specs.Fault.{IfFault};
ghost use Rattle.koika_check.specs.BitWeights.{bit_weight};
ghost use Rattle.koika_check.specs.Typing.{IsTypedDesign};
ghost use Rattle.front_end.specs.Sources as sources;
ghost use Rattle.front_end.specs.Aigs.{most_bits};

use crate::source::fault_of_source;
use koika_check::Checked;
use kw_base::{Refusal, fault_number};

/// Of a design that has a greater bit weight no bit-level circuit is made.
pub const MOST_BITS: u64 = 1_048_576;

/// The fault of a design that has too many bits.
pub fn has_few_bits(design: &Checked) -> Result<(), Refusal>
    requires { IsTypedDesign design.now }
    ensures light { OnOk result (bit_weight design.now ≤ most_bits) }
    ensures refused { IfFault result (λ fault. (fault ≡ sources.fault_of_source 48) × (most_bits < bit_weight design.now)) }
{
    if design.bit_weight() > MOST_BITS {
        let fault = fault_of_source(fault_number::TOO_MANY_BITS);
        return Err(Refusal::Fault(fault));
    }
    Ok(())
}
