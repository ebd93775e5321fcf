// Numbers as rows of bits.
ghost use Rattle.std.specs.Prelude.{◌≡◌, ◌^◌, ◌<◌, ◌≤◌, true, false, MatchResult, nat_lt};
ghost use Rattle.meaning.specs.Meaning.{bit};

use refusal::refusal::Refusal;

/// Bit `i` of a number.
pub(crate) fn bit_of(number: u64, i: u64) -> bool
    requires { i < 64 }
    ensures { result ≡ bit number i }
{
    (number >> i) % 2 == 1
}

/// Whether a number has no more than so many bits.
fn fits(number: u64, bits: usize) -> bool
    requires { bits ≤ 64 }
    ensures { result ≡ nat_lt number (2 ^ bits) }
{
    bits >= 64 || number >> bits == 0
}

/// Refuses a number of more than so many bits.
pub(crate) fn check(number: u64, bits: usize, refusal: Refusal) -> Result<(), Refusal>
    requires { bits ≤ 64 }
    ensures { MatchResult result (λ _. nat_lt number (2 ^ bits) ≡ true) (λ e. (nat_lt number (2 ^ bits) ≡ false) × (e ≡ refusal)) }
{
    if fits(number, bits) {
        Ok(())
    } else {
        Err(refusal)
    }
}
