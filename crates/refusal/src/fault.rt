// A fault of a sheet: a refusal with its place. Readers pass it up by `?`, each adding what it knows.
ghost use Rattle.std.specs.Prelude.{◌≡◌, Some};
ghost use Rattle.refusal.specs.Faults.{fault_at, moved_to_row, moved_to_sheet, fault_words};
ghost use Rattle.refusal.specs.Numbers.{number_of};

use crate::refusal::Refusal;
use crate::role::Role;
use std::error::Error;
use std::fmt;

/// A refusal, and where: the sheet (1 target, 2 specification), its row from 1 and its column from 1.
/// A number that is not known yet, or that does not apply, is 0.
// No `Option<u16>` and `Option<u8>`: `Some(0)` would be a second way to say none, and a fault's row of 32 bytes, which writes
// this very 0, would take `fault.row.map_or(0, u32::from)` for `u32::from(fault.row)`.
#[derive(Clone, Copy, Debug, PartialEq, Eq)]
pub struct Fault {
    pub refusal: Refusal,
    pub sheet: u8,
    pub row: u16,
    pub column: u8,
}

impl Fault {
    /// A refusal at a column; the row and the sheet are added by those who know them.
    pub fn at(refusal: Refusal, column: u8) -> Fault
        ensures { result ≡ fault_at refusal column }
    {
        Fault {
            refusal,
            sheet: 0,
            row: 0,
            column,
        }
    }

    /// The same fault, in that row.
    pub fn in_row(self, row: u16) -> Fault
        ensures { result ≡ moved_to_row row self }
    {
        Fault { row, ..self }
    }

    /// The same fault, in the sheet of that number.
    pub fn in_sheet(self, sheet: u8) -> Fault
        ensures { result ≡ moved_to_sheet sheet self }
    {
        Fault { sheet, ..self }
    }

    /// The refusal's number.
    pub fn number(&self) -> u32
        ensures { result ≡ number_of self.now.refusal }
    {
        self.refusal.number()
    }
}

impl From<Refusal> for Fault {
    ghost from_gives = { λ r f. f ≡ fault_at r 0 };

    fn from(refusal: Refusal) -> Fault {
        Fault::at(refusal, 0)
    }
}

impl Error for Fault {}

impl fmt::Display for Fault {
    ghost output = { λ f. Some (fault_words f) };

    fn fmt<W: fmt::Write>(&self, f: &mut fmt::Formatter<W>) -> fmt::Result {
        let sheet = Role::from(self.sheet);
        if self.row != 0 {
            let (row, column) = (self.row, self.column);
            return write!(f, "{sheet}, row {row}, column {column}: {}", self.refusal);
        }
        match self.sheet {
            0 => write!(f, "{}", self.refusal),
            _ => write!(f, "{sheet}: {}", self.refusal),
        }
    }
}
