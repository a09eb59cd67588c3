//! Core: the result of a host function as a bit vector, and the two halves of an input.

ghost use Rattle.std.specs.Prelude.{◌≡◌, ◌%◌, ◌/◌, ◌^◌, ◌≤◌, ◌<◌};
ghost use Rattle.kw_bits.specs.Host as host;

use kw_bits::{Bits, HostKind};

// The number that a function of this kind gave for x, as a bit vector.
pub(crate) fn answer_of(kind: HostKind, x: Bits, answer: u64) -> Bits
    requires takes { host.TakesWidth kind x.width }
    requires answers { answer ≡ host.answer kind x.width x.number }
    ensures { result ≡ host.value kind x }
{
    match Bits::new(kind.out_width(x.width()), answer as u128) {
        Some(bits) => bits,
        None => unreachable!(),
    }
}

// The first of two arguments.
#[tactic(auto, unfolding(kw_bits::specs::Host::high_half))]
pub(crate) fn high_half(x: Bits) -> u64
    requires most { x.width ≤ HostKind.MAX_IN_WIDTH }
    requires even { x.width % 2 ≡ 0 }
    ensures half { result ≡ host.high_half x.width x.number }
    ensures below { result < 2 ^ (x.width / 2) }
{
    (x.number() as u64) >> (x.width() / 2)
}

// The second of two arguments.
pub(crate) fn low_half(x: Bits) -> u64
    requires { x.width ≤ HostKind.MAX_IN_WIDTH }
    ensures half { result ≡ host.low_half x.width x.number }
    ensures below { result < 2 ^ (x.width / 2) }
{
    (x.number() as u64) % (1 << (x.width() / 2))
}
