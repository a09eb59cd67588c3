//! Lines of inputs are counted up to the last number.

use kw_base::{Fault, Place, Refusal};
use kw_bits::Sequence;
use std::test::Fail;
use stim_report::{Shape, read_stimulus};

#[test]
fn lines_are_counted_up_to_the_last_number(rt: HostRuntime) -> Result<(), Fail> {
    let shape = Shape {
        inputs: Sequence::new(rt.alloc()),
        registers: Sequence::new(rt.alloc()),
        rules: Sequence::new(rt.alloc()),
    };
    let fault = Fault::new(
        30,
        Place {
            line: 4294967295,
            column: 1,
        },
    );
    match read_stimulus(rt.alloc(), b"\r\n%%", 4294967295, &shape) {
        Err(Refusal::Fault(found)) => assert_eq!(rt; found, fault),
        _ => return Err("no fault".into()),
    }
    Ok(())
}
