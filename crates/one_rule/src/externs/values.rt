//! Engines: a host function as the list of its values.

ghost use Rattle.std.specs.Prelude.{◌≡◌, ◌+◌, ◌<◌, ◌≤◌, ◌^◌, ℕ, length, IfOk};
ghost use Rattle.kw_bits.specs.Host as host;
ghost use Rattle.host_fn.specs.Stored.{spec_of};
ghost use Rattle.one_rule.specs.inner.Hosts.{value_at};

use host_fn::HostFn;
use kw_bits::{Bits, NoMemory, Sequence};
use std::alloc::Global;
use std::marker::Model;
use typed_core::HostSpec;

/// A host function as the list of its values, in order of the input. Contracts see it as a design declares it.
#[derive(Debug, Drop)]
pub struct HostValues {
    spec: HostSpec,
    values: Sequence<Bits>,
}

impl Model for HostValues {
    ghost use Rattle.kw_bits.specs.declared.host.HostSpec.{HostSpec};
    ghost use Rattle.one_rule.specs.inner.Hosts.{AreValues};

    ghost Value = { HostSpec };

    ghost view = { λ h. h.spec };

    ghost invariant = { λ h. AreValues h.spec h.values };
}

impl HostValues {
    /// The values of a function, which is asked once on every input.
    pub(crate) fn new(alloc: Global, function: &HostFn) -> Result<HostValues, NoMemory>
        ensures { IfOk result (λ values. values ≡ spec_of function.now) }
    {
        let (kind, in_width) = (function.kind(), function.in_width());
        let mut values = Sequence::new(alloc);
        for number in 0..1u32 << in_width {
            values.push(value(function, number))?;
        }
        Ok(HostValues {
            spec: HostSpec { kind, in_width },
            values,
        })
    }

    /// The value of an input.
    pub(crate) fn ask(&self, x: Bits) -> Bits
        requires { x.width ≡ self.now.in_width }
        ensures { result ≡ host.value self.now.kind x }
    {
        *self.values.get(x.number() as usize)
    }
}

// What the function answers to the input of this number.
fn value(function: &HostFn, number: u32) -> Bits
    requires { number < 2 ^ (spec_of function.now).in_width }
    ensures { result ≡ value_at (spec_of function.now) number }
{
    match Bits::new(function.in_width(), number as u128) {
        Some(x) => function.ask(x),
        None => unreachable!(),
    }
}
