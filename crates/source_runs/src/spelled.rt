//! Sources as one line of a table spells them.

use std::alloc::Global;
use std::io;

/// The source that is written so: `/` ends a line, and `"20 r#; "` stands for what is after the number, that many
/// times, with the number of the copy, from 0, in place of each `#`.
pub(crate) fn spelled(alloc: Global, written: &str) -> io::Result<Vec<u8>> {
    let mut source = Vec::new(alloc);
    let mut rest = written;
    for _ in 0..written.len() {
        if rest.is_empty() {
            break;
        }
        let (plain, quoted) = rest.split_once('"').unwrap_or((rest, ""));
        let (copies, behind) = quoted.split_once('"').unwrap_or(("", ""));
        let (count, text) = copies.split_once(' ').unwrap_or(("", ""));
        push(&mut source, plain)?;
        push_copies(alloc, &mut source, text, count.parse().unwrap_or(0))?;
        rest = behind;
    }
    Ok(source)
}

// Adds copies of a text, each with its number.
fn push_copies(alloc: Global, source: &mut Vec<u8>, text: &str, count: u32) -> io::Result<()> {
    for number in 0..count {
        if text.contains('#') {
            let number = number.to_string(alloc)?;
            push(source, text.replace(alloc, '#', number.as_str())?.as_str())?;
        } else {
            push(source, text)?;
        }
    }
    Ok(())
}

// Adds a text as it is written.
fn push(source: &mut Vec<u8>, text: &str) -> io::Result<()> {
    for byte in text.bytes() {
        source.push(if byte == b'/' { b'\n' } else { byte })?;
    }
    Ok(())
}
