// The two calls of a C host, over a pair's bytes; `host_c` exports them.
// Their answers are numbers and no enum, since C takes them: include/rectifier.h gives them names.
#![tactic(auto)]

ghost use Rattle.std.specs.Prelude.{◌≡◌, MatchResult};
ghost use Rattle.refusal.specs.Numbers.{number_of};
ghost use Rattle.circuit.specs.View.{drawn};
ghost use Rattle.host.specs.Codes.{ReadCode, Compared, MatchCode};

use circuit::pair::Pair;
use matching::matching::matches;
use refusal::fault::Fault;
use sheet::read::load_pair;
use std::alloc::Global;

/// Reads a pair: 0, or the number of its first fault.
pub fn rectifier_read(heap: Global, pair: &[u8]) -> u32
    ensures { ReadCode pair.now result }
{
    read_code(&load_pair(heap, pair))
}

/// Reads a pair and matches it at a setting and an input word: 100 for yes, 101 for no, or the number of the refusal.
pub fn rectifier_match(heap: Global, pair: &[u8], setting: u64, word: u64) -> u32
    ensures { MatchCode pair.now setting word result }
{
    match load_pair(heap, pair) {
        Ok(pair) => match_code(&pair, setting, word),
        Err(fault) => fault.number(),
    }
}

/// 0 for a pair that was read, or the number of its fault.
// A number, since the public call answers it to C.
fn read_code(answer: &Result<Pair, Fault>) -> u32
    ensures { MatchResult answer.now (λ _. result ≡ 0) (λ f. result ≡ number_of f.refusal) }
{
    match answer {
        Ok(_) => 0,
        Err(fault) => fault.number(),
    }
}

/// 100 for yes, 101 for no, or the number of the refusal.
// A number, since the public call answers it to C.
fn match_code(pair: &Pair, setting: u64, word: u64) -> u32
    ensures { Compared (drawn pair.now.target) (drawn pair.now.specification) setting word result }
{
    match matches(pair, setting, word) {
        Ok(true) => 100,
        Ok(false) => 101,
        Err(refusal) => refusal.number(),
    }
}
