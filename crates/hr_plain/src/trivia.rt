ghost use Rattle.std.specs.Prelude.{◌≡◌, ◌&&◌};
ghost use Rattle.std.specs.List.{list_all};
ghost use Rattle.hr_plain.specs.Form as spec;
ghost use Rattle.hr_plain.specs.Reading.{plain_behind};

use hr_base::Items;

/// Whether what stands between the lexemes, and behind them, is spaces, linefeeds and line comments.
pub fn are_plain(items: &Items) -> bool
    ensures { result ≡ (list_all (λ item. spec.is_plain_trivia item.trivia) items.now.list && spec.is_plain_trivia items.now.tail) }
{
    for item in items.list.as_slice() {
        if !is_plain_trivia(item.trivia.as_slice()) {
            return false;
        }
    }
    is_plain_trivia(items.tail.as_slice())
}

/// The same of what stands before one lexeme.
fn is_plain_trivia(trivia: &[u8]) -> bool
    ensures { result ≡ spec.is_plain_trivia trivia.now }
{
    let mut inside = false;
    for b in trivia {
        match behind(inside, *b) {
            Some(next) => inside = next,
            None => return false,
        }
    }
    true
}

/// Whether what follows the byte is inside a line comment, as the byte may be or not; none where it
/// can't stand there.
fn behind(inside: bool, b: u8) -> Option<bool>
    ensures { result ≡ plain_behind inside b }
{
    if inside {
        match b {
            b'\n' => Some(false),
            b'\r' => None,
            b'\x0C' => None,
            _ => Some(true),
        }
    } else {
        match b {
            b'-' => Some(true),
            b' ' => Some(false),
            b'\n' => Some(false),
            _ => None,
        }
    }
}
