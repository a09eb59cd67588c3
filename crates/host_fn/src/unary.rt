//! Core: a stored host function of one argument.

ghost use Rattle.std.specs.Prelude.{◌≡◌};
ghost use Rattle.kw_bits.specs.Host as host;
ghost use Rattle.host_fn.specs.HostFn.{AnswersOne};

use crate::answer::answer_of;
use kw_bits::{Bits, HostKind};

// A function of one argument, beside the fact that it returns what its kind says.
#[derive(Clone, Copy)]
pub(crate) struct Unary {
    pub(crate) kind: HostKind,
    pub(crate) in_width: u32,
    pub(crate) call: fn(u64) -> u64,
    ghost takes: { host.TakesWidth kind in_width },
    ghost answers: { AnswersOne kind in_width (pre call) (post call) },
}

impl Unary {
    pub(crate) fn ask(&self, x: Bits) -> Bits
        requires { x.width ≡ self.now.in_width }
        ensures { result ≡ host.value self.now.kind x }
    {
        answer_of(self.kind, x, (self.call)(x.number() as u64))
    }
}
