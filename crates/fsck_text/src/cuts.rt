// Cuts of a text in two, and numbers in decimal digits.
ghost use Rattle.std.specs.Prelude.{◌≡◌, ◌<◌, option_map};
ghost use Rattle.fsck_text.specs.Cuts.{cut_at, last_cut_at, after_prefix, after_first, before_last, word_and_rest, column_of, first_column_of, number_of, with_digit, small_number_of};

use crate::line::ends;

/// The text before the first `mark`, and the text after it.
pub fn cut_at(text: &str, mark: char) -> Option<(&str, &str)>
    requires { mark < 128 }
    ensures { option_map (λ p. (p.0.now, p.1.now)) result ≡ cut_at mark text.now }
{
    text.split_once(mark)
}

/// The text before the last `mark`, and the text after it.
pub fn last_cut_at(text: &str, mark: char) -> Option<(&str, &str)>
    requires { mark < 128 }
    ensures { option_map (λ p. (p.0.now, p.1.now)) result ≡ last_cut_at mark text.now }
{
    text.rsplit_once(mark)
}

/// The text after `prefix`, if it begins with that.
pub fn after_prefix<'a>(text: &'a str, prefix: &str) -> Option<&'a str>
    ensures { option_map (λ t. t.now) result ≡ after_prefix prefix.now text.entry.now }
{
    text.strip_prefix(prefix)
}

/// The text after `mark`, if it begins with it.
pub fn after_first(text: &str, mark: char) -> Option<&str>
    requires { mark < 128 }
    ensures { option_map (λ t. t.now) result ≡ after_first mark text.now }
{
    match cut_at(text, mark) {
        Some((before, after)) if before.is_empty() => Some(after),
        _ => None,
    }
}

/// The text before `mark`, if it ends with it.
pub fn before_last(text: &str, mark: char) -> Option<&str>
    requires { mark < 128 }
    ensures { option_map (λ t. t.now) result ≡ before_last mark text.now }
{
    match last_cut_at(text, mark) {
        Some((before, after)) if after.is_empty() => Some(before),
        _ => None,
    }
}

/// The text before the first space, and the text after it; the whole text and nothing if it has no
/// space.
pub fn word_and_rest(text: &str) -> (&str, &str)
    ensures { (result.0.now, result.1.now) ≡ word_and_rest text.now }
{
    match cut_at(text, ' ') {
        Some(parts) => parts,
        None => (text, ""),
    }
}

/// The column of a word in a line, in bytes from 1: at the end of the line if the line ends with
/// it, else at its first occurrence.
pub fn column_of(line: &str, word: &str) -> usize
    ensures { result ≡ column_of word.now line.now }
{
    if ends(line, word) {
        line.len().saturating_sub(word.len()) + 1
    } else {
        first_column_of(line, word)
    }
}

/// The column of the first occurrence of a word in a line; past the end if it does not occur.
fn first_column_of(line: &str, word: &str) -> usize
    ensures { result ≡ first_column_of word.now line.now }
{
    line.find(word).unwrap_or(line.len()) + 1
}

/// The number in a text of decimal digits, if it is below 2^64.
pub fn parse_number(text: &str) -> Option<u64>
    ensures { result ≡ number_of text.now }
{
    if text.is_empty() {
        return None;
    }
    let mut value = 0u64;
    for digit in text.as_bytes() {
        value = with_digit(value, *digit)?;
    }
    Some(value)
}

/// The value with one more digit.
fn with_digit(value: u64, digit: u8) -> Option<u64>
    ensures { result ≡ with_digit value digit }
{
    if digit < b'0' || digit > b'9' {
        return None;
    }
    value.checked_mul(10)?.checked_add(u64::from(digit - b'0'))
}

/// The number in a text of decimal digits, if it is below 2^32.
pub fn parse_small_number(text: &str) -> Option<u32>
    ensures { result ≡ small_number_of text.now }
{
    u32::try_from(parse_number(text)?).ok()
}
