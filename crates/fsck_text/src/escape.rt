// Names and words as they are printed.
ghost use Rattle.std.specs.Prelude.{◌≡◌, ◌++◌, ◌<◌, IfOk, OnOk, string_bytes};
ghost use Rattle.std.specs.Char.{digit_char};
ghost use Rattle.fsck_text.specs.Escapes.{is_escaped, in_digits, printed, escaped};

use std::alloc::{AllocError, Global};

/// A name or a word as it is printed. Each control character and each backslash is `\x` and the two
/// hexadecimal digits of its number, so that no name can move a terminal's cursor or end a column.
pub fn escaped(alloc: Global, text: &str) -> Result<String, AllocError>
    ensures { IfOk result (λ s. string_bytes s ≡ escaped text.now) }
{
    let mut printed = String::new(alloc);
    for letter in text.chars() {
        push_printed(&mut printed, letter)?;
    }
    Ok(printed)
}

fn push_printed(text: &mut String, letter: char) -> Result<(), AllocError>
    ensures { OnOk result (string_bytes text.new ≡ string_bytes text.old ++ printed letter) }
{
    if is_escaped(letter) {
        push_number(text, letter as u32)
    } else {
        text.push(letter)
    }
}

fn is_escaped(letter: char) -> bool
    ensures { result ≡ is_escaped letter }
{
    matches!(letter, '\0'..='\x1f' | '\x7f'..='\u{9f}' | '\\')
}

/// Appends the number of a character below U+00A0.
fn push_number(text: &mut String, number: u32) -> Result<(), AllocError>
    requires { number < 256 }
    ensures { OnOk result (string_bytes text.new ≡ string_bytes text.old ++ in_digits number) }
{
    text.push_str("\\x")?;
    text.push(digit(number / 16))?;
    text.push(digit(number % 16))
}

fn digit(number: u32) -> char
    requires { number < 16 }
    ensures { result ≡ digit_char number }
{
    char::from_digit(number, 16).unwrap_or('0')
}
