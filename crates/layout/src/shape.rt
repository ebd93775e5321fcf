// What the fields of a row may hold.
ghost use Rattle.std.specs.Prelude.{◌≡◌, ◌&&◌, nat_le};

/// The numbers that a field may hold, from the lowest to the highest.
// No `RangeInclusive<u32>`: a range is not `Copy`, so a `Shape` of six would not be, nor could one range stand at each of five fields.
#[derive(Clone, Copy, Debug, PartialEq, Eq)]
pub struct Bounds {
    pub low: u32,
    pub high: u32,
}

impl Bounds {
    /// Whether the number is one of them.
    pub fn contains(&self, number: u32) -> bool
        ensures { result ≡ (nat_le self.now.low number && nat_le number self.now.high) }
    {
        self.low <= number && number <= self.high
    }
}

/// The first `needed` fields are filled, those after the first `allowed` are blank, and no blank field stands before a
/// filled one. A number in field j, counted from 0, is within `bounds[j]`.
#[derive(Clone, Copy, Debug, PartialEq, Eq)]
pub struct Shape {
    pub needed: usize,
    pub allowed: usize,
    pub bounds: [Bounds; 6],
}
