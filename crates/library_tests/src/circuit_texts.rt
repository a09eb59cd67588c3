//! Circuit texts, run line by line.

ghost use Rattle.std.specs.Prelude.{IfOk};
ghost use Rattle.btor2_text.specs.Printable.{ArePrintable};

use btor2_model::{accept, slow_run};
use btor2_text::{Lines, read_lines};
use one_rule::Stimulus;
use std::alloc::Global;
use std::process::Abort;
use std::test::Fail;

/// The lines of a text that has no fault.
pub(crate) fn lines_of(alloc: Global, text: &[u8]) -> Result<Lines, Fail>
    ensures { IfOk result ArePrintable }
{
    match read_lines(alloc, text) {
        Ok(lines) => Ok(lines),
        Err(_) => Err("a fault".into()),
    }
}

// Expects the states' numbers and the flags in the rows of a run of two cycles without inputs.
fn expect_run(
    rt: &impl Abort,
    alloc: Global,
    text: &str,
    want: &[(&[u128], &[bool])],
) -> Result<(), Fail> {
    let Ok(text) = accept(alloc, lines_of(alloc, text.as_bytes())?) else {
        return Err("a fault".into());
    };
    let stimulus = Stimulus::new(alloc, Vec::new(alloc));
    let Some(rows) = slow_run(alloc, &text, &stimulus, 2)? else {
        return Err("no run".into());
    };
    assert_eq!(rt; rows.len(), want.len());
    for (row, (numbers, flags)) in rows.as_slice().iter().zip(want) {
        assert_eq!(rt; row.regs.len(), numbers.len());
        for (value, number) in row.regs.as_slice().iter().zip(*numbers) {
            assert_eq!(rt; value.number(), *number);
        }
        assert_eq!(rt; row.fired.as_slice(), *flags);
    }
    Ok(())
}

#[test]
fn runs_of_small_texts(rt: HostRuntime) -> Result<(), Fail> {
    expect_run(
        &rt,
        rt.alloc(),
        "1 sort bitvec 8\n2 zero 1\n3 state 1 count\n4 init 1 3 2\n5 one 1\n6 add 1 3 5\n7 next 1 3 6\n",
        &[(&[0], &[]), (&[1], &[]), (&[2], &[])],
    )?;
    // A state that grows by 3, and one that takes it above 3; whether the first is 3, and an output that is no flag.
    expect_run(
        &rt,
        rt.alloc(),
        "1 sort bitvec 4\n2 sort bitvec 8\n3 state 1\n4 state 2\n5 constd 1 3\n6 init 1 3 5\n7 concat 2 3 5\n8 next 2 4 7\n9 add 1 3 5\n10 next 1 3 9\n11 sort bitvec 1\n12 eq 11 3 5\n13 output 12\n14 output 3\n",
        &[
            (&[3, 0], &[false]),
            (&[6, 0x33], &[true]),
            (&[9, 0x63], &[false]),
        ],
    )
}
