//! Core: a stored host function of two arguments.

ghost use Rattle.std.specs.Prelude.{◌≡◌, ◌%◌};
ghost use Rattle.kw_bits.specs.Host as host;
ghost use Rattle.host_fn.specs.HostFn.{AnswersTwo};

use crate::answer::{answer_of, high_half, low_half};
use kw_bits::{Bits, HostKind};

// A function of two arguments, beside the fact that it returns what its kind says.
#[derive(Clone, Copy)]
pub(crate) struct Binary {
    pub(crate) kind: HostKind,
    pub(crate) in_width: u32,
    pub(crate) call: fn(u64, u64) -> u64,
    ghost takes: { host.TakesWidth kind in_width },
    ghost even: { in_width % 2 ≡ 0 },
    ghost answers: { AnswersTwo kind in_width (pre call) (post call) },
}

impl Binary {
    pub(crate) fn ask(&self, x: Bits) -> Bits
        requires { x.width ≡ self.now.in_width }
        ensures { result ≡ host.value self.now.kind x }
    {
        answer_of(self.kind, x, (self.call)(high_half(x), low_half(x)))
    }
}
