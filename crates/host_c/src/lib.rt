// The static library of a C host: the two calls of `host`, exported by their names (include/rectifier.h).
// Their answers are numbers, as C takes them. The same two calls stand in both crates, since Rattle code cannot call what a static library exports.
#![tactic(auto)]

ghost use Rattle.host.specs.Codes.{ReadCode, MatchCode};

use std::alloc::Global;

/// Reads a pair: 0, or the number of its first fault.
#[unsafe(no_mangle)]
pub extern "C" fn rectifier_read(heap: Global, pair: &[u8]) -> u32
    ensures { ReadCode pair.now result }
{
    host::rectifier_read(heap, pair)
}

/// Reads a pair and matches it at a setting and an input word: 100 for yes, 101 for no, or the number of the refusal.
#[unsafe(no_mangle)]
pub extern "C" fn rectifier_match(heap: Global, pair: &[u8], setting: u64, word: u64) -> u32
    ensures { MatchCode pair.now setting word result }
{
    host::rectifier_match(heap, pair, setting, word)
}
