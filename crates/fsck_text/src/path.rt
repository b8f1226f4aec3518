// The path in the heading of a file.
ghost use Rattle.std.specs.Prelude.{◌≡◌, option_map};
ghost use Rattle.fsck_text.specs.Paths.{without_word, before_size, heading_path, path_of};

use crate::cuts::{after_prefix, cut_at, last_cut_at};

/// The path of a file, if this line is its heading: the text before the size, which is two words.
pub fn parse_path(line: &str) -> Option<&str>
    ensures { option_map (λ t. t.now) result ≡ path_of line.now }
{
    let (before, after) = cut_at(line, ':')?;
    if after_prefix(line, "/").is_none() || after_prefix(after, " CORRUPT blockpool ").is_some() {
        return None;
    }
    heading_path(before)
}

/// The path, from the text before the first colon.
fn heading_path(before: &str) -> Option<&str>
    ensures { option_map (λ t. t.now) result ≡ heading_path before.now }
{
    let (front, last) = last_cut_at(before, ' ')?;
    match last {
        "block(s)" => without_word(front).and_then(before_size),
        "OPENFORWRITE" => without_word(front)
            .and_then(without_word)
            .and_then(before_size),
        _ => before_size(front),
    }
}

/// The text before the last two words.
fn before_size(text: &str) -> Option<&str>
    ensures { option_map (λ t. t.now) result ≡ before_size text.now }
{
    without_word(text).and_then(without_word)
}

/// The text before the last word.
fn without_word(text: &str) -> Option<&str>
    ensures { option_map (λ t. t.now) result ≡ without_word text.now }
{
    let (before, _) = last_cut_at(text, ' ')?;
    Some(before)
}
