//! Programs: the numbers that words of a command line write.

ghost use Rattle.std.specs.Prelude.{◌≡◌, ◌≤◌, length, All, IsTrue};
ghost use Rattle.std.specs.List.{list_all};
ghost use Rattle.std.specs.Char.{IsAsciiDigit, is_ascii_digit};
ghost use Rattle.front_end.specs.NumberWords.{are_few_digits, number_of_word, value_of};

/// The number that a word of one to ten digits writes, if 32 bits hold it.
pub fn number_of(word: &[u8]) -> Option<u32>
    ensures { result ≡ number_of_word word.now }
{
    if !are_few_digits(word) {
        return None;
    }
    let value = value_of(word);
    if value <= u64::from(u32::MAX) {
        Some(value as u32)
    } else {
        None
    }
}

// Whether a word is one to ten digits.
fn are_few_digits(word: &[u8]) -> bool
    ensures test { result ≡ are_few_digits word.now }
    ensures few { IsTrue result → length word.now ≤ 10 }
    ensures digits { IsTrue result → All IsAsciiDigit word.now }
{
    if word.is_empty() || word.len() > 10 {
        return false;
    }
    are_digits(word)
}

fn are_digits(word: &[u8]) -> bool
    ensures test { result ≡ list_all is_ascii_digit word.now }
    ensures digits { IsTrue result → All IsAsciiDigit word.now }
{
    word.iter().all(|byte| byte.is_ascii_digit())
}

// The number that decimal digits write.
fn value_of(digits: &[u8]) -> u64
    requires few { length digits.now ≤ 10 }
    requires digits { All IsAsciiDigit digits.now }
    ensures { result ≡ value_of digits.now }
{
    let mut value = 0;
    for digit in digits {
        value = 10 * value + u64::from(digit - b'0');
    }
    value
}
