// A field: five columns, blank or a number with spaces before it.
ghost use Rattle.std.specs.Prelude.{◌≡◌, ◌-◌, ◌<◌, Some};
ghost use Rattle.layout.specs.Text.{column, columns, decoded, field_value};

use refusal::refusal::Refusal;

/// The five columns of a field.
pub type Columns = [u8; 5];

/// A column before the last: a digit, or a space where the number is smaller than the column's weight.
fn lead_column(n: u32, weight: u32) -> u8
    requires { 0 < weight }
    ensures { result ≡ column weight (Some n) }
{
    if n < weight {
        b' '
    } else {
        b'0' + (n / weight % 10) as u8
    }
}

/// The five columns of a number; of one that has more digits, the last five digits.
fn number_columns(n: u32) -> Columns
    ensures { result ≡ columns (Some n) }
{
    [
        lead_column(n, 10000),
        lead_column(n, 1000),
        lead_column(n, 100),
        lead_column(n, 10),
        b'0' + (n % 10) as u8,
    ]
}

/// The five columns of a field.
pub fn field_columns(value: Option<u32>) -> Columns
    ensures { result ≡ columns value }
{
    match value {
        Some(n) => number_columns(n),
        None => *b"     ",
    }
}

fn digit(column: u8) -> u32
    ensures { result ≡ column - 48 }
{
    u32::from(column.saturating_sub(b'0'))
}

/// The sum of the columns by weight, a space as 0.
fn weighed(columns: Columns) -> u32
    ensures { result ≡ decoded columns }
{
    let [a, b, c, d, e] = columns;
    digit(a) * 10000 + digit(b) * 1000 + digit(c) * 100 + digit(d) * 10 + digit(e)
}

/// What five columns hold: nothing, or a number. They are a number's exactly where writing it gives them again.
pub fn read_columns(text: Columns) -> Result<Option<u32>, Refusal>
    ensures { result ≡ field_value text }
{
    if text == *b"     " {
        return Ok(None);
    }
    let n = weighed(text);
    if text == number_columns(n) {
        Ok(Some(n))
    } else {
        Err(Refusal::FieldForm)
    }
}
