//! The functions that programs offer, one of each kind: plain functions on numbers. A program hands each to `HostFn`,
//! with the proof that it answers its kind on all inputs.
ghost use Rattle.std.specs.Prelude.{◌≡◌, ◌+◌, ◌*◌, ◌^◌, ◌<◌};
ghost use Rattle.kw_bits.specs.Host as host;
ghost use Rattle.kw_bits.specs.declared.host.HostKind.TheVariants as kinds;

use kw_bits::interleaved;

/// How many bits the input of a function of one argument has.
pub const BITS_OF_ONE: u32 = 8;

/// How many bits two arguments have together.
pub const BITS_OF_TWO: u32 = 12;

/// How many bits are 1.
#[tactic(auto, unfolding(kw_bits::specs::Host::answer))]
pub fn popcount(x: u64) -> u64
    ensures { result ≡ host.answer kinds.Popcount 8 x }
{
    x.count_ones() as u64
}

/// How many bits are 1, modulo 2.
#[tactic(auto, unfolding(kw_bits::specs::Host::answer))]
pub fn parity(x: u64) -> u64
    ensures { result ≡ host.answer kinds.Parity 8 x }
{
    (x.count_ones() % 2) as u64
}

/// The bits in reverse order.
pub fn reverse(x: u64) -> u64
    requires { x < 2 ^ 8 }
    ensures { result ≡ host.answer kinds.Reverse 8 x }
{
    (x as u8).reverse_bits() as u64
}

/// How many bits are above the highest 1.
#[tactic(auto, unfolding(kw_bits::specs::Host::answer))]
pub fn leading_zeros(x: u64) -> u64
    requires { x < 2 ^ 8 }
    ensures { result ≡ host.answer kinds.LeadingZeros 8 x }
{
    (x as u8).leading_zeros() as u64
}

/// The Gray code.
#[tactic(auto, unfolding(kw_bits::specs::Host::answer))]
pub fn gray(x: u64) -> u64
    ensures { result ≡ host.answer kinds.Gray 8 x }
{
    x ^ (x >> 1)
}

/// In how many bits the two differ.
pub fn hamming(x: u64, y: u64) -> u64
    requires first { x < 2 ^ 6 }
    requires second { y < 2 ^ 6 }
    ensures { result ≡ host.answer kinds.Hamming 12 (x * 2 ^ 6 + y) }
{
    (x ^ y).count_ones() as u64
}

/// The bits of the two in turn, the lowest of the first below the lowest of the second.
pub fn morton(x: u64, y: u64) -> u64
    requires first { x < 2 ^ 6 }
    requires second { y < 2 ^ 6 }
    ensures { result ≡ host.answer kinds.Morton 12 (x * 2 ^ 6 + y) }
{
    interleaved(x, y, BITS_OF_TWO)
}

/// The sum, or the greatest number of their width where that is less.
pub fn sat_add(x: u64, y: u64) -> u64
    requires first { x < 2 ^ 6 }
    requires second { y < 2 ^ 6 }
    ensures { result ≡ host.answer kinds.SatAdd 12 (x * 2 ^ 6 + y) }
{
    (x + y).min(63)
}

/// The host functions that a program offers: these, one of each kind, in an array. Whoever calls it opens
/// `kw_bits::specs::Host::arity` for its proof.
#[macro_export]
macro_rules! offered_functions {
    () => {
        [
            $crate::HostFn::new(kw_bits::HostKind::Popcount, $crate::offered::BITS_OF_ONE, $crate::offered::popcount).unwrap(),
            $crate::HostFn::new(kw_bits::HostKind::Parity, $crate::offered::BITS_OF_ONE, $crate::offered::parity).unwrap(),
            $crate::HostFn::new(kw_bits::HostKind::Reverse, $crate::offered::BITS_OF_ONE, $crate::offered::reverse).unwrap(),
            $crate::HostFn::new(kw_bits::HostKind::LeadingZeros, $crate::offered::BITS_OF_ONE, $crate::offered::leading_zeros).unwrap(),
            $crate::HostFn::new(kw_bits::HostKind::Gray, $crate::offered::BITS_OF_ONE, $crate::offered::gray).unwrap(),
            $crate::HostFn::new_two(kw_bits::HostKind::Hamming, $crate::offered::BITS_OF_TWO, $crate::offered::hamming).unwrap(),
            $crate::HostFn::new_two(kw_bits::HostKind::Morton, $crate::offered::BITS_OF_TWO, $crate::offered::morton).unwrap(),
            $crate::HostFn::new_two(kw_bits::HostKind::SatAdd, $crate::offered::BITS_OF_TWO, $crate::offered::sat_add).unwrap(),
        ]
    };
}
