//! Values: kinds of host functions, and the value of each.

ghost use Rattle.std.specs.Prelude.{◌≡◌, ◌+◌, ◌*◌, ◌%◌, ◌^◌, ◌≤◌, ◌<◌, ◌↔◌, IsTrue, count_ones};
ghost use Rattle.kw_bits.specs.Host as host;

use crate::bit_vector::{Bits, mask};

/// The functions that a design may ask its host for.
#[derive(Clone, Copy, Debug, PartialEq, Eq, Hash)]
pub enum HostKind {
    /// How many bits are 1.
    Popcount,
    /// How many bits are 1, modulo 2.
    Parity,
    /// The bits in reverse order.
    Reverse,
    /// How many bits are above the highest 1, or all where no bit is 1.
    LeadingZeros,
    /// The Gray code.
    Gray,
    /// In how many bits two arguments differ.
    Hamming,
    /// The bits of two arguments in turn, the lowest of the first below the lowest of the second.
    Morton,
    /// The sum of two arguments, or the greatest number of their width where that is less.
    SatAdd,
}

/// A host function: what it answers, and how many bits its input has.
#[derive(Clone, Copy, Debug, PartialEq, Eq)]
pub struct HostSpec {
    pub kind: HostKind,
    pub in_width: u32,
}

impl HostKind {
    /// The widest input has this many bits.
    pub const MAX_IN_WIDTH: u32 = 12;

    /// How many arguments there are: 1 or 2. Two arguments are the halves of the input, the first the high one.
    #[tactic(auto, unfolding(crate::specs::Host::arity))]
    pub fn arity(self) -> u32
        ensures arity { result ≡ host.arity self }
        ensures some { 1 ≤ result }
        ensures most { result ≤ 2 }
    {
        match self {
            HostKind::Popcount
            | HostKind::Parity
            | HostKind::Reverse
            | HostKind::LeadingZeros
            | HostKind::Gray => 1,
            HostKind::Hamming | HostKind::Morton | HostKind::SatAdd => 2,
        }
    }

    /// Whether an input may have this many bits: 1 to 12, and an even number for two arguments.
    pub fn takes_width(self, in_width: u32) -> bool
        ensures { IsTrue result ↔ host.TakesWidth self in_width }
    {
        1 <= in_width && in_width <= HostKind::MAX_IN_WIDTH && in_width % self.arity() == 0
    }

    /// How many bits the answer to an input of `in_width` bits has.
    #[tactic(auto, unfolding(crate::specs::Host::out_width))]
    pub fn out_width(self, in_width: u32) -> u32
        ensures { result ≡ host.out_width self in_width }
    {
        match self {
            HostKind::Popcount | HostKind::LeadingZeros | HostKind::Hamming => 4,
            HostKind::Parity => 1,
            HostKind::Reverse | HostKind::Gray | HostKind::Morton => in_width,
            HostKind::SatAdd => in_width / 2,
        }
    }

    /// The answer to an input of 1 to 12 bits, of an even number for two arguments.
    pub fn value(self, x: Bits) -> Bits
        requires { host.TakesWidth self x.width }
        ensures { result ≡ host.value self x }
    {
        match self {
            HostKind::Popcount => popcount(x),
            HostKind::Parity => parity(x),
            HostKind::Reverse => reverse(x),
            HostKind::LeadingZeros => leading_zeros(x),
            HostKind::Gray => gray(x),
            HostKind::Hamming => hamming(x),
            HostKind::Morton => morton(x),
            HostKind::SatAdd => sat_add(x),
        }
    }
}

fn popcount(x: Bits) -> Bits
    requires { x.width ≤ HostKind.MAX_IN_WIDTH }
    ensures { result ≡ host.value HostKind.Popcount x }
{
    count_of_ones(x.number())
}

fn parity(x: Bits) -> Bits
    ensures { result ≡ host.value HostKind.Parity x }
{
    x.redxor()
}

fn reverse(x: Bits) -> Bits
    requires { x.width ≤ HostKind.MAX_IN_WIDTH }
    ensures { result ≡ host.value HostKind.Reverse x }
{
    let word = (x.number() as u16).reverse_bits();
    Bits::from_parts(x.width(), (word >> (16 - x.width())) as u128)
}

fn leading_zeros(x: Bits) -> Bits
    requires { x.width ≤ HostKind.MAX_IN_WIDTH }
    ensures { result ≡ host.value HostKind.LeadingZeros x }
{
    let above = 128 - x.width();
    Bits::from_parts(4, (x.number().leading_zeros() - above) as u128)
}

fn gray(x: Bits) -> Bits
    ensures { result ≡ host.value HostKind.Gray x }
{
    Bits::from_parts(x.width(), x.number() ^ (x.number() >> 1))
}

#[tactic(auto, unfolding(crate::specs::Host::arity))]
fn hamming(x: Bits) -> Bits
    requires { host.TakesWidth HostKind.Hamming x.width }
    ensures { result ≡ host.value HostKind.Hamming x }
{
    count_of_ones(high_half(x) ^ low_half(x))
}

#[tactic(auto, unfolding(crate::specs::Host::arity))]
fn morton(x: Bits) -> Bits
    requires { host.TakesWidth HostKind.Morton x.width }
    ensures { result ≡ host.value HostKind.Morton x }
{
    let (first, second) = (high_half(x) as u64, low_half(x) as u64);
    Bits::from_parts(x.width(), u128::from(interleaved(first, second, x.width())))
}

/// The number of this many bits whose bits are those of two numbers in turn, the lowest of the first below the lowest of
/// the second.
pub fn interleaved(x: u64, y: u64, count: u32) -> u64
    requires { count ≤ 63 }
    ensures { result ≡ host.number_of_bits count (host.interleaved_bit x y) }
{
    let mut number = 0;
    for i in 0..count {
        number = with_bit(number, interleaved_bit(x, y, i), i);
    }
    number
}

#[tactic(auto, unfolding(crate::specs::Host::arity))]
fn sat_add(x: Bits) -> Bits
    requires { host.TakesWidth HostKind.SatAdd x.width }
    ensures { result ≡ host.value HostKind.SatAdd x }
{
    let greatest = mask(x.width() / 2);
    Bits::from_parts(x.width() / 2, (high_half(x) + low_half(x)).min(greatest))
}

// How many bits of a word of 12 bits are 1.
fn count_of_ones(word: u128) -> Bits
    requires { word < 2 ^ 12 }
    ensures { result ≡ record { width = 4; number = count_ones word } }
{
    Bits::from_parts(4, word.count_ones() as u128)
}

// The first of two arguments.
#[tactic(auto, unfolding(crate::specs::Host::high_half))]
fn high_half(x: Bits) -> u128
    requires most { x.width ≤ HostKind.MAX_IN_WIDTH }
    requires even { x.width % 2 ≡ 0 }
    ensures half { result ≡ host.high_half x.width x.number }
    ensures small { result < 2 ^ 6 }
{
    x.number() >> (x.width() / 2)
}

// The second of two arguments.
#[tactic(auto, unfolding(crate::specs::Host::low_half))]
fn low_half(x: Bits) -> u128
    requires some { 1 ≤ x.width }
    requires most { x.width ≤ HostKind.MAX_IN_WIDTH }
    requires even { x.width % 2 ≡ 0 }
    ensures half { result ≡ host.low_half x.width x.number }
    ensures small { result < 2 ^ 6 }
{
    Bits::low_bits(x.width() / 2, x.number()).number()
}

// Bit i of two numbers that take turns, x before y.
#[tactic(auto, unfolding(crate::specs::Host::interleaved_bit))]
fn interleaved_bit(x: u64, y: u64, i: u32) -> u64
    requires { i < 64 }
    ensures bit { result ≡ host.interleaved_bit x y i }
    ensures small { result < 2 }
{
    if i % 2 == 0 {
        (x >> (i / 2)) % 2
    } else {
        (y >> (i / 2)) % 2
    }
}

// The number with one bit more, above its i bits.
fn with_bit(number: u64, bit: u64, i: u32) -> u64
    requires below { number < 2 ^ i }
    requires small { bit < 2 }
    requires within { i < 63 }
    ensures { result ≡ bit * 2 ^ i + number }
{
    bit << i | number
}
