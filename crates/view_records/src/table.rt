//! Tables for people.
use std::alloc::{AllocError, Global};

/// Renders rows of texts as a table: a line for each row, the first column left-aligned, each other one right-aligned after two
/// spaces, and each as wide as its longest text. The error is out of memory.
pub fn table_text(alloc: Global, rows: &[Vec<Vec<u8>>]) -> Result<Vec<u8>, AllocError> {
    let mut widths: Vec<usize> = Vec::new(alloc);
    for row in rows {
        for (column, cell) in row.iter().enumerate() {
            match widths.get_mut(column) {
                Some(width) => *width = cell.len().max(*width),
                None => widths.push(cell.len())?,
            }
        }
    }
    let mut text = Vec::new(alloc);
    for row in rows {
        for (column, cell) in row.iter().enumerate() {
            let width = widths.get(column).copied().unwrap_or(0);
            add_cell(&mut text, column, width, cell.as_slice())?;
        }
        text.push(b'\n')?;
    }
    Ok(text)
}

// Appends a cell of a column.
fn add_cell(
    text: &mut Vec<u8>,
    column: usize,
    width: usize,
    cell: &[u8],
) -> Result<(), AllocError> {
    if column == 0 {
        text.extend_from_slice(cell)?;
    } else {
        text.extend_from_slice(b"  ")?;
    }
    for _ in cell.len()..width {
        text.push(b' ')?;
    }
    if column > 0 {
        text.extend_from_slice(cell)?;
    }
    Ok(())
}
