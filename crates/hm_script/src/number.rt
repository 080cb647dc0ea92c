// Words that spell numbers.
ghost use Rattle.std.specs.Prelude.{◌≡◌, ℕ, ◌<◌, ◌≤◌, ◌↔◌, IsTrue, MatchOption, length, slice_index};
ghost use Rattle.hm_model.specs.Words.{IsNumber, IsHexNumber, IsIdWord};
ghost use Rattle.hm_script.specs.Values.{IsNoNumber, IsNoHexNumber, IsNoIdWord, IsNumberBetween, IsNoNumberBetween};

use hm_types::Id;

/// The number that a word spells in decimal, without a sign or a leading zero.
pub(crate) fn read_number(word: &[u8]) -> Option<u64>
    ensures { MatchOption result (IsNoNumber word.now) (IsNumber word.now) }
{
    if word.is_empty() || has_leading_zero(word) {
        return None;
    }
    let mut number = 0u64;
    for digit in word {
        let value = char::from(*digit).to_digit(10)?;
        number = number.checked_mul(10)?.checked_add(u64::from(value))?;
    }
    Some(number)
}

/// The number that a word spells in decimal, if it lies between these two.
pub(crate) fn read_number_between(word: &[u8], least: u64, most: u64) -> Option<u64>
    ensures { MatchOption result
        (IsNoNumberBetween least most word.now) (IsNumberBetween least most word.now) }
{
    let number = read_number(word)?;
    if least <= number && number <= most {
        Some(number)
    } else {
        None
    }
}

/// The number that a word of so many hexadecimal digits spells. Digits are of either case.
pub(crate) fn read_hex_number(word: &[u8], size: usize) -> Option<u64>
    requires { size ≤ 16 }
    ensures { MatchOption result (IsNoHexNumber size word.now) (IsHexNumber size word.now) }
{
    if word.len() != size {
        return None;
    }
    let mut number = 0u64;
    for digit in word {
        number = number * 16 + u64::from(char::from(*digit).to_digit(16)?);
    }
    Some(number)
}

/// The id that a word spells: `0x` and 16 hexadecimal digits.
pub(crate) fn read_id_word(word: &[u8]) -> Option<Id>
    ensures { MatchOption result (IsNoIdWord word.now) (λ id. IsIdWord word.now id.0) }
{
    let digits = word.strip_prefix(b"0x")?;
    Some(Id(read_hex_number(digits, 16)?))
}

fn has_leading_zero(word: &[u8]) -> bool
    ensures { IsTrue result ↔ ((1 < length word.now) × (slice_index word.now 0 ≡ 0x30)) }
{
    word.len() > 1 && word[0] == b'0'
}
