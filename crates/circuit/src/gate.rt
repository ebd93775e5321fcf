// Gates: what there is to wire up. `specs/Kinds.antt` says what each kind is.
ghost use Rattle.std.specs.Prelude.{◌≡◌, ◌≤◌, length, Some};
ghost use Rattle.circuit.specs.Kinds.{name_of, letter_of, fewest_inputs, most_inputs, kind_lettered};
ghost use Rattle.circuit.specs.Gates.{kind_of, own_rows, named, in_words};

use refusal::refusal::Refusal;
use std::fmt;

/// A gate of one input.
#[derive(Clone, Copy, Debug, PartialEq, Eq)]
pub enum Unary {
    Buffer,
    Inverter,
}

/// A gate of two inputs.
#[derive(Clone, Copy, Debug, PartialEq, Eq)]
pub enum Binary {
    And,
    Or,
    Xor,
    Nand,
    Nor,
    Xnor,
}

/// The kinds of gate; a table has one to four inputs.
#[derive(Clone, Copy, Debug, PartialEq, Eq)]
pub enum Kind {
    Unary(Unary),
    Binary(Binary),
    Table,
}

/// The input nets of a table, the first the lowest bit of its row number.
#[derive(Clone, Copy, Debug, PartialEq, Eq)]
pub enum Inputs {
    One(u8),
    Two(u8, u8),
    Three(u8, u8, u8),
    Four(u8, u8, u8, u8),
}

/// A gate with its input nets.
#[derive(Clone, Copy, Debug, PartialEq, Eq)]
pub enum Gate {
    Unary(Unary, u8),
    Binary(Binary, u8, u8),
    Table(Inputs),
}

impl Kind {
    /// Every kind.
    pub const ALL: [Kind; 9] = [
        Kind::Unary(Unary::Buffer),
        Kind::Unary(Unary::Inverter),
        Kind::Binary(Binary::And),
        Kind::Binary(Binary::Or),
        Kind::Binary(Binary::Xor),
        Kind::Binary(Binary::Nand),
        Kind::Binary(Binary::Nor),
        Kind::Binary(Binary::Xnor),
        Kind::Table,
    ];

    /// The kind's name.
    pub fn name(&self) -> &'static str
        ensures { result.now ≡ name_of self.now }
    {
        match self {
            Kind::Unary(Unary::Buffer) => "buffer",
            Kind::Unary(Unary::Inverter) => "inverter",
            Kind::Binary(Binary::And) => "and",
            Kind::Binary(Binary::Or) => "or",
            Kind::Binary(Binary::Xor) => "xor",
            Kind::Binary(Binary::Nand) => "nand",
            Kind::Binary(Binary::Nor) => "nor",
            Kind::Binary(Binary::Xnor) => "xnor",
            Kind::Table => "table",
        }
    }

    /// The letter that stands for the kind in a sheet.
    pub fn letter(&self) -> u8
        ensures { result ≡ letter_of self.now }
    {
        match self {
            Kind::Unary(Unary::Buffer) => b'B',
            Kind::Unary(Unary::Inverter) => b'I',
            Kind::Binary(Binary::And) => b'A',
            Kind::Binary(Binary::Or) => b'O',
            Kind::Binary(Binary::Xor) => b'X',
            Kind::Binary(Binary::Nand) => b'D',
            Kind::Binary(Binary::Nor) => b'R',
            Kind::Binary(Binary::Xnor) => b'E',
            Kind::Table => b'L',
        }
    }

    /// The least number of inputs of such a gate.
    pub fn fewest_inputs(&self) -> usize
        ensures { result ≡ fewest_inputs self.now }
    {
        match self {
            Kind::Unary(_) | Kind::Table => 1,
            Kind::Binary(_) => 2,
        }
    }

    /// The greatest number of inputs of such a gate.
    pub fn most_inputs(&self) -> usize
        ensures { result ≡ most_inputs self.now }
    {
        match self {
            Kind::Unary(_) => 1,
            Kind::Binary(_) => 2,
            Kind::Table => 4,
        }
    }
}

impl fmt::Display for Kind {
    ghost output = { λ k. Some (name_of k) };

    fn fmt<W: fmt::Write>(&self, f: &mut fmt::Formatter<W>) -> fmt::Result {
        f.write_str(self.name())
    }
}

/// The kind that a letter names; no other letter names one.
impl TryFrom<u8> for Kind {
    type Error = Refusal;

    ghost try_from_gives = { λ x r. r ≡ kind_lettered x };

    fn try_from(letter: u8) -> Result<Kind, Refusal> {
        Kind::ALL
            .iter()
            .copied()
            .find(|kind| kind.letter() == letter)
            .ok_or(Refusal::Letter)
    }
}

impl fmt::Display for Inputs {
    ghost output = { λ t. Some (in_words (named t)) };

    fn fmt<W: fmt::Write>(&self, f: &mut fmt::Formatter<W>) -> fmt::Result {
        match self {
            Inputs::One(a) => write!(f, "{a}"),
            Inputs::Two(a, b) => write!(f, "{a} {b}"),
            Inputs::Three(a, b, c) => write!(f, "{a} {b} {c}"),
            Inputs::Four(a, b, c, d) => write!(f, "{a} {b} {c} {d}"),
        }
    }
}

impl Inputs {
    /// How many rows a table of these inputs has.
    pub fn rows(&self) -> usize
        ensures { result ≡ own_rows (Gate.Table self.now) }
    {
        match self {
            Inputs::One(_) => 2,
            Inputs::Two(_, _) => 4,
            Inputs::Three(_, _, _) => 8,
            Inputs::Four(_, _, _, _) => 16,
        }
    }
}

impl Gate {
    /// The gate's kind.
    pub fn kind(&self) -> Kind
        ensures { result ≡ kind_of self.now }
    {
        match self {
            Gate::Unary(unary, _) => Kind::Unary(*unary),
            Gate::Binary(binary, _, _) => Kind::Binary(*binary),
            Gate::Table(_) => Kind::Table,
        }
    }

    /// How many setting rows are the gate's own: a table's rows, and none for any other gate.
    pub fn rows(&self) -> usize
        ensures { result ≡ own_rows self.now }
    {
        match self {
            Gate::Table(inputs) => inputs.rows(),
            Gate::Unary(_, _) | Gate::Binary(_, _, _) => 0,
        }
    }
}
