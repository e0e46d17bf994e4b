//! Numbers in one spelling.
ghost use Rattle.std.specs.Prelude.{◌≡◌, ◌^◌, IsTrue, Some, None, nat_lt, if◌then◌else◌};
ghost use Rattle.std.specs.Char.{is_ascii_digit};
ghost use Rattle.std.specs.List.{list_all};
ghost use Rattle.std.specs.Str.Parse.{digits_value};
ghost use Rattle.script_core.specs.Grammar.{is_number, number_or};

use crate::error::Fault;

#[tactic(auto, unfolding(crate::specs::Grammar::number_or))]
// The number that the bytes spell, below 2^64. If they spell none, the fault is `otherwise`.
pub(crate) fn parse_number(word: &[u8], otherwise: Fault) -> Result<u64, Fault>
    ensures { result ≡ number_or otherwise word.now }
{
    if is_number(word) {
        value_of(word).ok_or(Fault::NumberTooLarge)
    } else {
        Err(otherwise)
    }
}

fn is_number(word: &[u8]) -> bool
    ensures { result ≡ is_number word.now }
{
    match word {
        [] => false,
        [b'0', rest @ ..] => rest.is_empty(),
        [first, rest @ ..] => first.is_ascii_digit() && are_digits(rest),
    }
}

fn are_digits(bytes: &[u8]) -> bool
    ensures { result ≡ list_all is_ascii_digit bytes.now }
{
    bytes.iter().all(|b| b.is_ascii_digit())
}

fn value_of(digits: &[u8]) -> Option<u64>
    requires { IsTrue (list_all is_ascii_digit digits.now) }
    ensures { result ≡ (if nat_lt (digits_value 10 digits.now) (2 ^ 64)
        then Some (digits_value 10 digits.now) else None) }
{
    let mut value = 0u64;
    for digit in digits {
        value = value
            .checked_mul(10)?
            .checked_add(u64::from(*digit - b'0'))?;
    }
    Some(value)
}
