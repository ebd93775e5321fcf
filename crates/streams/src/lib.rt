// What the programs read and write, over any reader and any writer: the bytes of a pair, and a fault's row.
#![tactic(auto)]

ghost use Rattle.std.specs.Prelude.{◌≡◌, [], ◌∷◌, ◌++◌, ◌≤◌, take, OnOk, IfOk, IfSome, vec_len};
ghost use Rattle.std.specs.Io.KnownBytes.{Appends};
ghost use Rattle.refusal.specs.Faults.{fault_words};
ghost use Rattle.layout.specs.Text.{fault_text};
ghost use Rattle.streams.specs.Longest.{longest};

use layout::row::fault_row;
use refusal::fault::Fault;
use std::alloc::Global;
use std::fmt::{InlineText, Write as _};
use std::io;
use std::io::{Read, Write};

/// One row more than the longest pair has.
const LONGEST: u64 = 13_920;

/// Room for a fault's line of words: the longest has 91 bytes.
const LINE: usize = 128;

/// The bytes that the reader gives, up to one row more than the longest pair has: more bytes are never a pair.
pub fn read_bytes<R: Read + Drop>(heap: Global, reader: R) -> io::Result<Vec<u8>>
    ensures { IfOk result (λ v. IfSome (R.remaining reader) (λ bytes. v.items ≡ take longest bytes)) }
{
    let mut bytes = Vec::new(heap);
    reader.take(LONGEST).read_to_end(&mut bytes)?;
    Ok(bytes)
}

/// Writes a fault: to one writer its row, F with its number, sheet, row and column, and to another a line of words.
pub fn write_fault<O: Write, E: Write>(
    output: &mut O,
    errors: &mut E,
    fault: &Fault,
) -> io::Result<()>
    ensures row { OnOk result (Appends (O.contents output.old) (O.contents output.new) (fault_text fault.now)) }
    ensures words { OnOk result (Appends (E.contents errors.old) (E.contents errors.new) (fault_words fault.now ++ 10 ∷ [])) }
{
    output.write_all(&fault_row(fault))?;
    write_words(errors, fault)
}

/// Writes a fault's line of words whole, by one `write_all`: into a writer with no buffer, `writeln` alone makes a call for each
/// piece of it, and other programs' words may come between.
#[tactic(auto, using(crate::proofs::Pieces::written))]
fn write_words<E: Write>(errors: &mut E, fault: &Fault) -> io::Result<()>
    ensures { OnOk result (Appends (E.contents errors.old) (E.contents errors.new) (fault_words fault.now ++ 10 ∷ [])) }
{
    let mut line = InlineText::<LINE>::new();
    match line.writeln(*fault) {
        Ok(()) => errors.write_all(line.as_str().as_bytes()),
        // No fault's line is past that room; one that were would go out in pieces.
        Err(_) => errors.writeln(*fault),
    }
}

#[cfg(test)]
mod tests;
