// Circuits and pairs, written as their rows.
ghost use Rattle.std.specs.Prelude.{◌≡◌, ℕ, ◌+◌, ◌*◌, ◌<◌, ◌≤◌, List, length};
ghost use Rattle.std.specs.Borrow.{Bor};
ghost use Rattle.circuit.specs.View.{drawn};
ghost use Rattle.sheet_format.specs.Rows.{rows, pair_rows, gate_text, output_text};
ghost use Rattle.sheet.specs.Written.{laid, texts, Written};

use crate::length::{pair_length, sheet_length};
use circuit::circuit::Circuit;
use circuit::gate::{Gate, Inputs};
use circuit::pair::Pair;
use layout::row::{Row, row_text};
use refusal::refusal::Refusal;

/// The row of a gate that drives net `own`.
fn gate_row(own: u32, gate: Gate) -> Row
    ensures { result ≡ gate_text own gate }
{
    let letter = gate.kind().letter();
    match gate {
        Gate::Unary(_, a) | Gate::Table(Inputs::One(a)) => {
            row_text(letter, &[own, u32::from(a)])
        },
        Gate::Binary(_, a, b) | Gate::Table(Inputs::Two(a, b)) => {
            row_text(letter, &[own, u32::from(a), u32::from(b)])
        },
        Gate::Table(Inputs::Three(a, b, c)) => {
            row_text(letter, &[own, u32::from(a), u32::from(b), u32::from(c)])
        },
        Gate::Table(Inputs::Four(a, b, c, d)) => {
            row_text(
                letter,
                &[own, u32::from(a), u32::from(b), u32::from(c), u32::from(d)],
            )
        },
    }
}

/// Puts a row at that place.
fn put_row(into: &mut [u8], at: usize, row: Row)
    requires { at + 32 ≤ length into.old }
    ensures { into.new ≡ laid into.old at row }
{
    into[at..at + 32].copy_from_slice(&row);
}

/// Puts the rows of some items at a buffer's front, each by the item's number among them.
fn put_rows<T, F: Fn(usize, &T) -> Row>(into: &mut [u8], items: &[T], row_of: F)
    requires room { 32 * length items.now ≤ length into.old }
    requires callable { (i : ℕ) (x : Bor T) → i < length items.now → F.pre row_of i x }
    ensures { (text : ℕ → T → List ℕ) → ((i : ℕ) (x : Bor T) (r : _) → i < length items.now → F.post row_of i x r → r ≡ text i x.now) → into.new ≡ laid into.old 0 (texts text 0 items.now) }
{
    for (i, item) in items.iter().enumerate() {
        put_row(into, 32 * i, row_of(i, item));
    }
}

/// What is written as rows: a circuit, or the two circuits of a pair.
trait InRows {
    ghost text: { Self → List ℕ };

    /// How many bytes the rows take.
    fn length(&self) -> usize
        ensures { result ≡ length (text self.now) };

    /// Puts the rows at a buffer's front.
    // It asks for the room, as the trait is private and `write` has looked: asking nothing, each `put` would look again.
    fn put(&self, into: &mut [u8])
        requires { length (text self.now) ≤ length into.old }
        ensures { into.new ≡ laid into.old 0 (text self.now) };
}

impl InRows for Circuit {
    ghost text = { λ c. rows (drawn c) };

    fn length(&self) -> usize {
        sheet_length(self)
    }

    fn put(&self, into: &mut [u8]) {
        let gates = self.gates.as_slice();
        let outputs = self.outputs.as_slice();
        let inputs = u32::from(self.inputs);
        let header = [inputs, gates.len() as u32, outputs.len() as u32];
        put_row(into, 0, row_text(b'H', &header));
        let own = inputs + 1;
        put_rows(
            &mut into[32..],
            gates,
            |i, gate|
                requires { own + i < 1000 }
                ensures { result ≡ gate_text (own + i) gate.now }
            { gate_row(own + i as u32, *gate) },
        );
        put_rows(
            &mut into[32 + 32 * gates.len()..],
            outputs,
            |_, net|
                ensures { result ≡ output_text net.now }
            { row_text(b'Q', &[u32::from(*net)]) },
        );
    }
}

impl InRows for Pair {
    ghost text = { λ p. pair_rows (drawn p.target) (drawn p.specification) };

    fn length(&self) -> usize {
        pair_length(self)
    }

    fn put(&self, into: &mut [u8]) {
        self.target.put(into);
        self.specification
            .put(&mut into[sheet_length(&self.target)..]);
    }
}

/// Writes the rows into a buffer, and answers their length.
fn write<T: InRows>(item: &T, into: &mut [u8]) -> Result<usize, Refusal>
    ensures { Written (T.text item.now) into.old into.new result }
{
    let length = item.length();
    if into.len() < length {
        return Err(Refusal::TooShort);
    }
    item.put(into);
    Ok(length)
}

/// Writes a circuit's rows into a buffer, and answers their length.
pub fn write_sheet(circuit: &Circuit, into: &mut [u8]) -> Result<usize, Refusal>
    ensures { Written (rows (drawn circuit.now)) into.old into.new result }
{
    write(circuit, into)
}

/// Writes a pair's rows into a buffer, the target's first, and answers their length.
pub fn write_pair(pair: &Pair, into: &mut [u8]) -> Result<usize, Refusal>
    ensures { Written (pair_rows (drawn pair.now.target) (drawn pair.now.specification)) into.old into.new result }
{
    write(pair, into)
}
