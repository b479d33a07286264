//! The lines of a script, and which are no command.
ghost use Rattle.std.specs.Prelude.{◌≡◌, ◌<◌, ◌∷◌, [], length, MatchOption, IfSome};
ghost use Rattle.std.specs.List.{list_all, position};
ghost use Rattle.std.specs.Str.Lines.{lines, strip_carriage_return};
ghost use Rattle.hr_script.specs.Language.{begins_comment, is_linefeed, is_skipped, is_space};

use crate::texts::is_utf8;

/// The first line, and what stands behind it; none at the end.
pub(crate) fn next_line(bytes: &[u8]) -> Option<(&[u8], &[u8])>
    ensures lines { MatchOption result (lines bytes.now ≡ []) (λ found. lines bytes.now ≡ found.0.now ∷ lines found.1.now) }
    ensures shorter { IfSome result (λ found. length found.1.now < length bytes.now) }
{
    match line_end(bytes) {
        Some(end) => {
            let line = without_return(bytes.split_at(end).0);
            Some((line, bytes.split_at(end + 1).1))
        }
        None if bytes.is_empty() => None,
        None => Some((bytes, &[])),
    }
}

/// Where the first linefeed stands.
fn line_end(bytes: &[u8]) -> Option<usize>
    ensures place { result ≡ position is_linefeed bytes.now }
    ensures within { IfSome result (λ place. place < length bytes.now) }
{
    bytes.iter().position(|byte| *byte == b'\n')
}

/// The line without the one return at its end, if it has one.
fn without_return(line: &[u8]) -> &[u8]
    ensures { result.now ≡ strip_carriage_return line.now }
{
    match line {
        [front @ .., b'\r'] => front,
        _ => line,
    }
}

/// Whether the line is no command: nothing, spaces and tabs alone, or a comment.
pub(crate) fn is_skipped(line: &[u8]) -> bool
    ensures { result ≡ is_skipped line.now }
{
    is_utf8(line) && (begins_comment(line) || is_blank(line))
}

fn begins_comment(line: &[u8]) -> bool
    ensures { result ≡ begins_comment line.now }
{
    match line {
        [first, ..] => *first == b'#',
        [] => false,
    }
}

fn is_blank(line: &[u8]) -> bool
    ensures { result ≡ list_all is_space line.now }
{
    line.iter().all(|byte| *byte == b' ' || *byte == b'\t')
}
