// One row: its line feed, its letter, and its fields from the left.
ghost use Rattle.std.specs.Prelude.{◌≡◌, ◌<◌, MatchResult, ◌==◌, ◌≢◌, slice_index};
ghost use Rattle.refusal.specs.Faults.{fault_at};
ghost use Rattle.refusal.specs.declared.refusal.Refusal.TheVariants.{LineFeed};
ghost use Rattle.sheet_format.specs.Decoding.{letter, fields_of};
ghost use Rattle.sheet_format.specs.FirstFault.{field_fault, fields_fault, row_fault};
ghost use Rattle.sheet.specs.Judged.{Judged};
ghost use Rattle.sheet.specs.Parts.{field_option, options};

use layout::field::{Columns, read_columns};
use layout::row::Row;
use layout::shape::Shape;
use refusal::fault::Fault;
use refusal::refusal::Refusal;

/// What the six fields of a row hold, each a number or nothing.
pub(crate) type Fields = [Option<u32>; 6];

/// The letter of a row that ends in a line feed.
pub(crate) fn read_letter(row: &Row) -> Result<u8, Fault>
    ensures { MatchResult result (λ l. (slice_index row.now 31 ≡ 10) × (l ≡ letter row.now)) (λ f. (f ≡ fault_at LineFeed 32) × (slice_index row.now 31 ≢ 10)) }
{
    match *row {
        [letter, .., b'\n'] => Ok(letter),
        _ => Err(Fault::at(Refusal::LineFeed, 32)),
    }
}

/// Field j of a row, where `before` of the fields before it are filled: its form, then its range.
fn read_field(text: Columns, j: usize, before: usize, shape: &Shape) -> Result<Option<u32>, Fault>
    requires { j < 6 }
    ensures { Judged (field_fault shape.now j before text) result (λ v. v ≡ field_option text) }
{
    let column = 2 + 5 * j as u8;
    let value = read_columns(text).map_err(|refusal| Fault::at(refusal, column))?;
    match value {
        None => {
            if j < shape.needed {
                return Err(Fault::at(Refusal::FieldForm, column));
            }
        }
        Some(number) => {
            if j >= shape.allowed || before != j {
                return Err(Fault::at(Refusal::FieldForm, column));
            }
            if !shape.bounds[j].contains(number) {
                return Err(Fault::at(Refusal::FieldRange, column));
            }
        }
    }
    Ok(value)
}

/// The six fields of a row, each taken apart in turn from the left.
pub(crate) fn read_fields(row: &Row, shape: &Shape) -> Result<Fields, Fault>
    ensures { Judged (fields_fault shape.now (fields_of row.now)) result (λ v. v ≡ options (fields_of row.now)) }
{
    let (columns, _) = row[1..31].as_chunks::<5>();
    let mut fields = [None; 6];
    let mut filled = 0;
    for (j, text) in columns.iter().enumerate() {
        let field = read_field(*text, j, filled, shape)?;
        filled += usize::from(field.is_some());
        fields[j] = field;
    }
    Ok(fields)
}

/// The fields of a row that begins with that letter.
pub(crate) fn read_lettered(row: &Row, wanted: u8, shape: &Shape) -> Result<Fields, Fault>
    ensures { Judged (row_fault (letter row.now == wanted) shape.now row.now) result (λ v. v ≡ options (fields_of row.now)) }
{
    if read_letter(row)? != wanted {
        return Err(Fault::at(Refusal::Letter, 1));
    }
    read_fields(row, shape)
}
