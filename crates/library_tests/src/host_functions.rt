//! Host functions, one input each by hand.

use kw_bits::{Bits, HostKind, NoMemory};
use std::process::Abort;
use std::test::Fail;

// A kind, a width, a number and what the kind answers, after Python's integers.
#[rattlefmt::skip]
const ANSWERS: [(HostKind, u32, u128, u128); 34] = [
    (HostKind::Popcount, 1, 0, 0), (HostKind::Popcount, 5, 6, 2), (HostKind::Popcount, 8, 0xff, 8),
    (HostKind::Popcount, 12, 0xfff, 12),
    (HostKind::Parity, 1, 1, 1), (HostKind::Parity, 8, 7, 1), (HostKind::Parity, 8, 0x96, 0),
    (HostKind::Parity, 11, 0x7ff, 1),
    (HostKind::Reverse, 1, 1, 1), (HostKind::Reverse, 5, 6, 0xc), (HostKind::Reverse, 8, 1, 0x80),
    (HostKind::Reverse, 12, 0x801, 0x801), (HostKind::Reverse, 12, 0x123, 0xc48),
    (HostKind::LeadingZeros, 1, 0, 1), (HostKind::LeadingZeros, 8, 1, 7), (HostKind::LeadingZeros, 8, 0, 8),
    (HostKind::LeadingZeros, 12, 0, 12),
    (HostKind::Gray, 2, 1, 1), (HostKind::Gray, 8, 3, 2), (HostKind::Gray, 12, 0xfff, 0x800),
    (HostKind::Hamming, 2, 2, 1), (HostKind::Hamming, 4, 0x9, 2), (HostKind::Hamming, 12, 63 << 6, 6),
    (HostKind::Hamming, 12, 0xfff, 0), (HostKind::Hamming, 10, 0x2aa, 5),
    (HostKind::Morton, 2, 2, 1), (HostKind::Morton, 2, 1, 2), (HostKind::Morton, 12, 3 << 6, 5),
    (HostKind::Morton, 12, 1, 2), (HostKind::Morton, 12, 63, 0xaaa),
    (HostKind::SatAdd, 2, 3, 1), (HostKind::SatAdd, 6, 0x1a, 5), (HostKind::SatAdd, 12, (60 << 6) + 5, 63),
    (HostKind::SatAdd, 12, (31 << 6) + 32, 63),
];

fn check(rt: &impl Abort, kind: HostKind, width: u32, number: u128, want: u128) {
    assert!(rt; kind.takes_width(width));
    let got = kind.value(Bits::new(width, number).expect(rt, "a bit vector"));
    assert_eq!(rt;
        (got.width(), got.number()),
        (kind.out_width(width), want),
        "{kind:?} of {number} at width {width}"
    );
}

#[test]
fn kinds_answer(rt: HostRuntime) {
    for (kind, width, number, want) in ANSWERS {
        check(&rt, kind, width, number, want);
    }
}

#[test]
fn want_of_memory_says_what_is_wrong(rt: HostRuntime) -> Result<(), Fail> {
    let text = format!(in rt.alloc(); "{NoMemory}")?;
    assert_eq!(rt; text.as_str(), "out of memory");
    Ok(())
}
