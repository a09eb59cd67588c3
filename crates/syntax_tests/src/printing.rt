//! Tests: printed trees.

use koika_parse::parse;
use koika_print::print;
use koika_syntax::{Tree, lex};
use kw_base::Refusal;
use std::alloc::Global;
use std::process::Abort;
use std::test::Fail;

/// What `parse` returns for the tokens of a text that is short enough.
pub(crate) fn parsed(rt: &impl Abort, alloc: Global, text: &[u8]) -> Result<Tree, Refusal> {
    assert!(rt; text.len() <= 1048576);
    let tokens = lex(alloc, text)?;
    parse(alloc, text, tokens.as_slice())
}

#[test]
fn a_printed_design_is_read_again(rt: HostRuntime) -> Result<(), Fail> {
    let text =
        b"reg count : bits 8 = 8'd0 ;\nrule incr {\nwrite0 ( count , read0 ( count ) + 8'd1 ) }\nschedule {\nincr ;\n}\n";
    let tree = parsed(&rt, rt.alloc(), text)?;
    let printed = print(rt.alloc(), &tree)?;
    assert_eq!(rt; printed.as_slice(), text.as_slice());
    let again = parsed(&rt, rt.alloc(), printed.as_slice())?;
    assert_eq!(rt; print(rt.alloc(), &again)?.as_slice(), text.as_slice());
    Ok(())
}
