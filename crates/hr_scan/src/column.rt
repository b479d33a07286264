//! The columns of a line.
ghost use Rattle.std.specs.Prelude.{◌≡◌, ◌++◌, replicate, IfOk, OnOk};
ghost use Rattle.hr_scan.specs.Columns.{columns_of, next_column};

use crate::character::{Character, cell_len, character_at};
use std::alloc::{AllocError, Global};

const TAB: u32 = 0x09;

const BYTE_ORDER_MARK: u32 = 0xFEFF;

/// For each byte of a line the column of its character. A column that no `u32` holds is want of memory.
pub fn columns(alloc: Global, line: &[u8]) -> Result<Vec<u32>, AllocError>
    ensures { IfOk result (λ columns. columns.items ≡ columns_of line.now) }
{
    let mut columns = Vec::with_capacity(alloc, line.len())?;
    let mut next = 1;
    let mut place = 0;
    while place < line.len() {
        let Ok(column) = u32::try_from(next) else {
            return Err(AllocError);
        };
        let cell = character_at(line, place);
        let len = cell_len(cell);
        push_times(&mut columns, column, len)?;
        next = next_column(column, cell);
        place += len;
    }
    Ok(columns)
}

/// Puts the column behind the others, once for each of the bytes.
fn push_times(columns: &mut Vec<u32>, column: u32, bytes: usize) -> Result<(), AllocError>
    ensures { OnOk result (columns.new.items ≡ columns.old.items ++ replicate bytes column) }
{
    for _ in 0..bytes {
        columns.push(column)?;
    }
    Ok(())
}

/// The column behind a cell that stands at this column.
fn next_column(column: u32, cell: Option<Character>) -> u64
    ensures { result ≡ next_column column cell }
{
    let column = u64::from(column);
    match cell.map(|character| character.code) {
        Some(TAB) => (column + 7) / 8 * 8 + 1,
        Some(BYTE_ORDER_MARK) => column,
        _ => column + 1,
    }
}
