// The bench check: at which input words does a written setting differ from the specification?
#![tactic(auto)]

ghost use Rattle.circuit.specs.View.{drawn};
ghost use Rattle.verify.specs.Count.{Counted};

use anyhow::anyhow;
use circuit::pair::Pair;
use matching::differing::differences;
use matching::outputs::outputs;
use refusal::refusal::Refusal;
use sheet::read::load_pair;
use std::process::ExitCode;
use std::{env, io};
use streams::{read_bytes, write_fault};

/// How many differing words are shown.
const SHOWN: usize = 16;

/// The one argument: the setting as a number.
fn argument(rt: &HostRuntime) -> anyhow::Result<u64> {
    let mut args = env::args(rt)?;
    let _program = args.next();
    let Some(text) = args.next() else {
        return Err(anyhow!("verify: the setting is missing: verify SETTING < pair"));
    };
    if args.next().is_some() {
        return Err(anyhow!("verify: one argument is wanted: verify SETTING < pair"));
    }
    text.as_str()
        .parse::<u64>()
        .map_err(|_| anyhow!("verify: the setting is no number below 2^64"))
}

/// How many input words give outputs that differ.
fn count(pair: &Pair, setting: u64) -> Result<usize, Refusal>
    ensures { Counted (drawn pair.now.target) (drawn pair.now.specification) setting result }
{
    Ok(differences(pair, setting)?.count())
}

// A pair and a setting are handed on as two: a struct of them would hold what `matching` makes of them at each call.

/// What the target gives at the word, and what the specification wants.
fn print_word(rt: &HostRuntime, pair: &Pair, setting: u64, word: u64) -> io::Result<()> {
    match (
        outputs(&pair.target, setting, word),
        outputs(&pair.specification, 0, word),
    ) {
        (Ok(given), Ok(wanted)) => println!(rt; "word {word}: outputs {given}, wanted {wanted}"),
        (Err(refusal), _) | (_, Err(refusal)) => eprintln!(rt; "word {word}: {refusal}"),
    }
}

/// A line for each of the first differing words, in rising order.
fn print_words(rt: &HostRuntime, pair: &Pair, setting: u64) -> io::Result<()> {
    if let Ok(words) = differences(pair, setting) {
        for word in words.take(SHOWN) {
            print_word(rt, pair, setting, word)?;
        }
    }
    Ok(())
}

fn print_verdict(rt: &HostRuntime, pair: &Pair, setting: u64, differing: usize) -> io::Result<()> {
    let words = 1u64 << pair.target.inputs;
    if differing == 0 {
        return println!(rt; "setting {setting} matches at all {words} input words");
    }
    println!(rt; "setting {setting} differs at {differing} of {words} input words")?;
    print_words(rt, pair, setting)
}

fn verify(rt: &HostRuntime, setting: u64) -> io::Result<()> {
    let bytes = read_bytes(rt.alloc(), rt.stdin())?;
    let pair = match load_pair(rt.alloc(), bytes.as_slice()) {
        Ok(pair) => pair,
        Err(fault) => return write_fault(&mut rt.stdout(), &mut rt.stderr(), &fault),
    };
    match count(&pair, setting) {
        Ok(differing) => print_verdict(rt, &pair, setting, differing),
        Err(refusal) => write_fault(&mut rt.stdout(), &mut rt.stderr(), &refusal.into()),
    }
}

fn main(rt: HostRuntime) -> io::Result<ExitCode> {
    match argument(&rt) {
        Ok(setting) => {
            verify(&rt, setting)?;
            Ok(ExitCode::SUCCESS)
        }
        Err(error) => {
            eprintln!(rt; "{error}")?;
            Ok(ExitCode::FAILURE)
        }
    }
}
