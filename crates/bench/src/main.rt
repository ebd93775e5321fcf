// How many gate evaluations a second the evaluator makes, one input word at a time and in 64 lanes at a time, in one run.
// The numbers go to standard error: they differ from run to run. What the lanes hold does not change the cost, so all hold one word.
#![tactic(auto)]

ghost use Rattle.std.specs.Prelude.{◌≤◌, length};

use circuit::circuit::Circuit;
use sheet::read::load_pair;
use std::io;
use std::time::Instant;
use streams::read_bytes;
use value::bit::Bit;
use value::evaluate::evaluate;
use value::kind::Algebra;
use value::word::Word;

/// At how many input words the circuit is evaluated.
const WORDS: u64 = 262_144;

/// A kind of value to measure.
trait Measured: Algebra + Copy + From<bool> {
    /// How many evaluations serve all the words: a lane serves one.
    const EVALUATIONS: u64;
}

impl Measured for Bit {
    const EVALUATIONS: u64 = WORDS;
}

impl Measured for Word {
    const EVALUATIONS: u64 = WORDS / 64;
}

/// Writes the bits of a number, each in every lane of its place.
fn put<K: Copy + From<bool>>(number: u64, places: &mut [K]) {
    // A fold would be no plainer: its state would be the bits that are left.
    let mut left = number;
    for place in places.iter_mut() {
        *place = K::from(left & 1 == 1);
        left >>= 1;
    }
}

/// Evaluates the circuit; in how many lanes the first gate's net was 1, by `ones`, so that no evaluation can be left out.
// The callers make the arrays: a slice of an array of a type parameter would owe that the type is small.
fn evaluations<K: Measured, F: Fn(K) -> u64>(
    circuit: &Circuit,
    rows: &[K],
    inputs: &mut [K],
    nets: &mut [K],
    ones: F,
) -> u64
    requires called { F.IsAlwaysCallable ones }
    requires room { (64 ≤ length rows.now) × (16 ≤ length inputs.old) × (216 ≤ length nets.old) }
{
    let m = circuit.rows();
    let n = usize::from(circuit.inputs);
    let mut total = 0u64;
    for word in 0..K::EVALUATIONS {
        put(word, inputs);
        let _ = evaluate(circuit, &rows[..m], &inputs[..n], nets);
        total = total.wrapping_add(ones(nets[n]));
    }
    total
}

/// One input word at a time.
fn by_bits(circuit: &Circuit) -> u64 {
    let rows = [Bit::truth(); 64];
    let mut inputs = [Bit::falsity(); 16];
    let mut nets = [Bit::falsity(); 216];
    let ones = |bit: Bit| u64::from(bit.value);
    evaluations(circuit, &rows, &mut inputs, &mut nets, ones)
}

/// In 64 lanes at a time.
fn by_words(circuit: &Circuit) -> u64 {
    let rows = [Word::truth(); 64];
    let mut inputs = [Word::falsity(); 16];
    let mut nets = [Word::falsity(); 216];
    let ones = |word: Word| u64::from(word.bits.count_ones());
    evaluations(circuit, &rows, &mut inputs, &mut nets, ones)
}

/// Gate evaluations a second.
fn rate(gates: usize, nanos: u128) -> u128 {
    (gates as u128)
        .saturating_mul(u128::from(WORDS))
        .saturating_mul(1_000_000_000)
        / nanos.max(1)
}

/// In how many lanes the first gate's net was 1, as `work` answers, and the gate evaluations a second.
fn timed<F: FnOnce(&Circuit) -> u64>(
    rt: &HostRuntime,
    circuit: &Circuit,
    work: F,
) -> io::Result<(u64, u128)>
    requires { F.IsAlwaysCallable work }
{
    let start = Instant::now(rt)?;
    let total = work(circuit);
    let nanos = start.elapsed(rt)?.as_nanos();
    Ok((total, rate(circuit.gates.len(), nanos)))
}

fn measure(rt: &HostRuntime, circuit: &Circuit) -> io::Result<()> {
    let gates = circuit.gates.len();
    let (a, slow) = timed(rt, circuit, by_bits)?;
    let (b, fast) = timed(rt, circuit, by_words)?;
    let times = fast / slow.max(1);
    eprintln!(rt; "{gates} gates, {WORDS} evaluations ({a}, {b})")?;
    eprintln!(rt; "one at a time: {slow} gate evaluations a second")?;
    eprintln!(rt; "64 at a time: {fast} gate evaluations a second, {times} times as many")
}

fn main(rt: HostRuntime) -> io::Result<()> {
    let bytes = read_bytes(rt.alloc(), rt.stdin())?;
    match load_pair(rt.alloc(), bytes.as_slice()) {
        Ok(pair) => measure(&rt, &pair.target),
        Err(fault) => eprintln!(rt; "{fault}"),
    }
}
