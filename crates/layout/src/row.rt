// A row: a letter, numbers in the first fields, the others blank, and a line feed.
ghost use Rattle.std.specs.Prelude.{◌≡◌};
ghost use Rattle.layout.specs.Text.{row_text, fault_text};

use crate::field::field_columns;
use refusal::fault::Fault;

/// A row's 32 bytes.
pub type Row = [u8; 32];

/// The row of a letter and numbers, the first six of which stand in the fields.
pub fn row_text(letter: u8, numbers: &[u32]) -> Row
    ensures { result ≡ row_text letter numbers.now }
{
    let mut row = [b' '; 32];
    row[0] = letter;
    row[31] = b'\n';
    let shown = &numbers[..numbers.len().min(6)];
    for (j, number) in shown.iter().enumerate() {
        let columns = field_columns(Some(*number));
        row[5 * j + 1..5 * j + 6].copy_from_slice(&columns);
    }
    row
}

/// The row of a fault: F with its number, sheet, row and column.
pub fn fault_row(fault: &Fault) -> Row
    ensures { result ≡ fault_text fault.now }
{
    row_text(
        b'F',
        &[
            fault.number(),
            u32::from(fault.sheet),
            u32::from(fault.row),
            u32::from(fault.column),
        ],
    )
}
