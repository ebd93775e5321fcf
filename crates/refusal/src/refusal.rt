// Why a call is refused. `specs/Numbers.antt` gives each case its number.
ghost use Rattle.std.specs.Prelude.{◌≡◌, Some};
ghost use Rattle.refusal.specs.declared.refusal.Refusal.TheVariants.{NoMemory};
ghost use Rattle.refusal.specs.Numbers.{number_of, words_of};

use std::alloc::AllocError;
use std::error::Error;
use std::fmt;

/// Every way in which a call of the product is refused, each with its number.
#[derive(Clone, Copy, Debug, PartialEq, Eq)]
pub enum Refusal {
    // What the input decides.
    /// A sheet's length is 0 or no multiple of a row's 32 bytes.
    Length = 1,
    /// A row does not end in a line feed.
    LineFeed = 2,
    /// A row begins with a letter that may not stand there.
    Letter = 3,
    /// A field is neither blank nor a number in form, or is filled or blank wrongly.
    FieldForm = 4,
    /// A field's number is out of its range.
    FieldRange = 5,
    /// The sheet has not as many rows as its header says.
    RowCount = 6,
    /// The tables' rows together pass 64.
    TableBits = 7,
    /// Target and specification differ in their number of inputs or of outputs.
    Unlike = 8,
    /// The budget is not between 1 and 1,000,000 steps.
    Budget = 9,
    /// There is no pattern of that number.
    PatternNumber = 10,
    /// The input word has a bit that is no input's.
    WordRange = 11,
    /// The setting has a bit that is no row's.
    SettingRange = 12,
    /// The destination is too short.
    TooShort = 13,
    /// There are not as many values as the circuit takes.
    ValueCount = 14,
    /// There is no such variable.
    VariableRange = 15,
    // What the state decides.
    /// The session has not ended.
    NotEnded = 21,
    /// The session has ended.
    Ended = 22,
    /// All places for patterns are taken.
    ListFull = 23,
    /// The engine's places do not hold the whole addition.
    PlacesLacking = 24,
    /// The engine's count of steps would pass its limit.
    StepsSpent = 25,
    /// The engine is searching.
    Searching = 26,
    /// The engine is at no model.
    NoModel = 27,
    /// No open has been taken yet.
    NotOpened = 28,
    // What the machine decides.
    /// There is no memory.
    NoMemory = 50,
}

impl Refusal {
    /// The refusal's number.
    pub fn number(&self) -> u32
        ensures { result ≡ number_of self.now }
    {
        *self as u32
    }

    /// What is wrong, in plain words.
    pub fn words(&self) -> &'static str
        ensures { result.now ≡ words_of self.now }
    {
        match self {
            Refusal::Length => "length is 0 or no multiple of 32",
            Refusal::LineFeed => "no line feed at the row's end",
            Refusal::Letter => "letter may not stand here",
            Refusal::FieldForm => "field not in form",
            Refusal::FieldRange => "number out of range",
            Refusal::RowCount => "number of rows is not what the header says",
            Refusal::TableBits => "the tables' rows pass 64",
            Refusal::Unlike => "target and specification differ in inputs or outputs",
            Refusal::Budget => "budget is not between 1 and 1000000",
            Refusal::PatternNumber => "no pattern has this number",
            Refusal::WordRange => "input word has too many bits",
            Refusal::SettingRange => "setting has too many bits",
            Refusal::TooShort => "destination is too short",
            Refusal::ValueCount => "number of values is not the circuit's",
            Refusal::VariableRange => "no variable has this number",
            Refusal::NotEnded => "session has not ended",
            Refusal::Ended => "session has ended",
            Refusal::ListFull => "256 patterns are listed and another is found",
            Refusal::PlacesLacking => "engine lacks places for the addition",
            Refusal::StepsSpent => "engine's count of steps would pass its limit",
            Refusal::Searching => "engine is searching",
            Refusal::NoModel => "engine is at no model",
            Refusal::NotOpened => "session was never opened",
            Refusal::NoMemory => "no memory",
        }
    }
}

impl fmt::Display for Refusal {
    ghost output = { λ x. Some (words_of x) };

    fn fmt<W: fmt::Write>(&self, f: &mut fmt::Formatter<W>) -> fmt::Result {
        f.write_str(self.words())
    }
}

impl Error for Refusal {}

impl From<AllocError> for Refusal {
    ghost from_gives = { λ _ r. r ≡ NoMemory };

    fn from(_error: AllocError) -> Refusal {
        Refusal::NoMemory
    }
}
