// Rows of values in counting order.
ghost use Rattle.std.specs.Prelude.{◌≡◌};
ghost use Rattle.counting.specs.Rows.{next, some_false};

/// Moves a row on to the next, and the last on to the first; tells whether it was not the last.
// A `bool`, as a set's `insert` answers: there is no value that an `Option` or a `Result` would hold, so neither is plainer.
pub(crate) fn count_up(row: &mut [bool]) -> bool
    ensures answer { result ≡ some_false row.old }
    ensures after { row.new ≡ next row.old }
{
    for value in row.iter_mut() {
        *value = !*value;
        if *value {
            return true;
        }
    }
    false
}
