//! The cells of a row of a table.

/// The cell of this number of a row of a table; nothing where there is none.
pub(crate) fn cell(row: &str, number: usize) -> &str {
    cell_of(row, number).unwrap_or("")
}

fn cell_of(row: &str, number: usize) -> Option<&str> {
    let mut rest = row.strip_prefix("| ")?;
    for _ in 0..number {
        rest = rest.split_once(" | ")?.1;
    }
    Some(rest.split_once(" |")?.0)
}

/// What is between the backticks of a cell; nothing where there are none.
pub(crate) fn code(cell: &str) -> &str {
    code_of(cell).unwrap_or("")
}

fn code_of(cell: &str) -> Option<&str> {
    let (_, code) = cell.split_once('`')?;
    Some(code.split_once('`')?.0)
}
