// The lines of a path that has a line feed.
ghost use Rattle.std.specs.Prelude.{◌≡◌};
ghost use Rattle.fsck_text.specs.Lines.{line_of};
ghost use Rattle.fsck_text.specs.Feeds.{goes_on, is_of_file, whole_line};

use crate::cuts::cut_at;
use crate::line::{Line, begins, ends, parse_line};

/// The number of bytes up to which the lines of a path are joined.
const MOST_BYTES: usize = 4_194_304;

/// Whether a path goes on in the next line. A path of HDFS has no colon, and each line with a path
/// of a file has one after it.
pub fn goes_on(path: &str) -> bool
    ensures { result ≡ goes_on path.now }
{
    begins(path, "/")
        && cut_at(path, ':').is_none()
        && !ends(path, " <dir>")
        && !ends(path, " <symlink>")
        && path.len() <= MOST_BYTES
}

/// The lines of a path as one, if that is about a file; else the last of them alone.
pub fn whole_line<'a>(path: &'a str, last: &'a str) -> &'a str
    ensures { result.now ≡ whole_line path.entry.now last.entry.now }
{
    if is_of_file(path) { path } else { last }
}

/// Whether a line is the heading of a file, or reports a corrupt block of it.
fn is_of_file(line: &str) -> bool
    ensures { result ≡ is_of_file (line_of line.now) }
{
    match parse_line(line) {
        Ok(Line::Heading(_)) | Ok(Line::Corrupt(_)) => true,
        _ => false,
    }
}
