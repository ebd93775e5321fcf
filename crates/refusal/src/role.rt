// What a sheet is read as, and its number.
ghost use Rattle.std.specs.Prelude.{◌≡◌, Some};
ghost use Rattle.refusal.specs.Faults.{role_number, role_words, role_of};

use std::fmt;

/// A sheet on its own, or one of the two sheets of a pair. Only a specification may have no table. A target may have
/// bytes after its rows; the other two end with their last row.
#[derive(Clone, Copy, Debug, PartialEq, Eq)]
pub enum Role {
    Alone = 0,
    Target = 1,
    Specification = 2,
}

impl Role {
    /// The number of a sheet in its pair; 0 for a sheet on its own.
    pub fn number(&self) -> u32
        ensures { result ≡ role_number self.now }
    {
        *self as u32
    }
}

/// The number of a sheet in its pair; 0 for a sheet on its own.
impl From<Role> for u8 {
    ghost from_gives = { λ role number. number ≡ role_number role };

    fn from(role: Role) -> u8 {
        role as u8
    }
}

/// What the sheet of that number is read as: a number that is none of a pair's is a sheet on its own.
impl From<u8> for Role {
    ghost from_gives = { λ number role. role ≡ role_of number };

    fn from(number: u8) -> Role {
        match number {
            1 => Role::Target,
            2 => Role::Specification,
            _ => Role::Alone,
        }
    }
}

impl fmt::Display for Role {
    ghost output = { λ r. Some (role_words r) };

    fn fmt<W: fmt::Write>(&self, f: &mut fmt::Formatter<W>) -> fmt::Result {
        f.write_str(match self {
            Role::Alone => "sheet",
            Role::Target => "target",
            Role::Specification => "specification",
        })
    }
}
