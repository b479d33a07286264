//! Where one is in a text.
ghost use Rattle.std.specs.Prelude.{◌≡◌, ◌+◌, ◌*◌, ◌/◌, min};
ghost use Rattle.hr_base.specs.declared.place.Pos.{Pos};
ghost use Rattle.hr_scan.specs.Characters.{char_at};
ghost use Rattle.hr_scan.specs.Columns.{next_column};
ghost use Rattle.hr_rules.specs.Counted.{counted, greatest, pos_of};
ghost use Rattle.hr_rules.specs.Positions.{behind, behind_front, has_newline, is_same_pos, origin};

use hr_base::Pos;
use hr_scan::{Character, cell_len, character_at, ends_newline};

const TAB: u32 = 0x09;

const FORM_FEED: u8 = 0x0C;

const BYTE_ORDER_MARK: u32 = 0xFEFF;

/// A position in a text of any length, where a `Pos` may be too small: a line and a column, each
/// from 1, of which one beyond 64 bits stays at the greatest number.
#[derive(Clone, Copy, Debug, PartialEq, Eq)]
pub struct Reached {
    pub line: u64,
    pub col: u64,
}

impl Reached {
    /// Where a text begins.
    pub fn origin() -> Reached
        ensures { result ≡ counted origin }
    {
        Reached { line: 1, col: 1 }
    }

    /// The position behind bytes whose first one stands here.
    pub fn behind(self, bytes: &[u8]) -> Reached
        ensures { result ≡ counted (behind (pos_of self) bytes.now) }
    {
        let mut reached = self;
        let mut place = 0;
        while place < bytes.len() {
            let (_, rest) = bytes.split_at(place);
            let cell = character_at(bytes, place);
            let len = cell_len(cell);
            reached = reached.behind_cell(rest, cell);
            place += len;
        }
        reached
    }

    /// Whether this is the position.
    pub fn is_at(self, pos: Pos) -> bool
        ensures { result ≡ is_same_pos pos (pos_of self) }
    {
        u64::from(pos.line) == self.line && u64::from(pos.col) == self.col
    }

    /// The position behind the cell at the front of the bytes.
    fn behind_cell(self, bytes: &[u8], cell: Option<Character>) -> Reached
        requires { cell ≡ char_at bytes.now }
        ensures { result ≡ counted (behind_front (pos_of self) bytes.now) }
    {
        if ends_newline(bytes) {
            Reached {
                line: self.line.saturating_add(1),
                col: 1,
            }
        } else {
            Reached {
                line: self.line,
                col: next_column(self.col, cell),
            }
        }
    }
}

/// Whether the bytes have a newline.
pub fn has_newline(bytes: &[u8]) -> bool
    ensures { result ≡ has_newline bytes.now }
{
    bytes
        .iter()
        .any(|byte| matches!(*byte, b'\n' | FORM_FEED | b'\r'))
}

/// The column behind a cell that stands at this column.
fn next_column(column: u64, cell: Option<Character>) -> u64
    ensures { result ≡ min greatest (next_column column cell) }
{
    match cell {
        Some(Character { code: TAB, .. }) => next_tab_stop(column),
        Some(
            Character {
                code: BYTE_ORDER_MARK,
                ..
            },
        ) => column,
        _ => column.saturating_add(1),
    }
}

/// The next column of the form 8k + 1.
fn next_tab_stop(column: u64) -> u64
    ensures { result ≡ min greatest ((column + 7) / 8 * 8 + 1) }
{
    column.div_ceil(8).saturating_mul(8).saturating_add(1)
}

#[cfg(test)]
mod tests {
    use crate::{Reached, has_newline};
    use hr_base::Pos;
    use std::test::Fail;

    #[test]
    fn positions_follow_lines_characters_and_tab_stops(rt: HostRuntime) -> Result<(), Fail> {
        let found = [
            (b"".as_slice(), 1, 1),
            (b"ab", 1, 3),
            (b"a\t", 1, 9),
            (b"12345678\t", 1, 17),
            (b"\xEF\xBB\xBFab", 1, 3),
            (b"\xC3\xA9\xFF", 1, 3),
            (b"ab\r\nc", 2, 2),
            (b"ab\r", 2, 1),
            (b"\r\r\n\n\x0C", 5, 1),
        ];
        for (bytes, line, col) in found {
            let reached = Reached::origin().behind(bytes);
            assert_eq!(rt; reached, Reached { line, col });
        }
        Ok(())
    }

    #[test]
    fn a_position_is_told_from_others(rt: HostRuntime) -> Result<(), Fail> {
        let reached = Reached { line: 2, col: 5 };
        assert!(rt; reached.is_at(Pos { line: 2, col: 5 }));
        assert!(rt; !reached.is_at(Pos { line: 2, col: 6 }));
        assert!(rt; !reached.is_at(Pos { line: 1, col: 5 }));
        Ok(())
    }

    #[test]
    fn numbers_stay_at_the_greatest_one(rt: HostRuntime) -> Result<(), Fail> {
        let last = Reached {
            line: u64::MAX,
            col: u64::MAX,
        };
        assert_eq!(rt; last.behind(b"a\t"), last);
        assert_eq!(rt;
            last.behind(b"\na"),
            Reached {
                line: u64::MAX,
                col: 2
            }
        );
        assert!(rt;
            !last.is_at(Pos {
                line: u32::MAX,
                col: u32::MAX
            })
        );
        Ok(())
    }

    #[test]
    fn a_newline_is_a_return_a_linefeed_or_a_form_feed(rt: HostRuntime) -> Result<(), Fail> {
        assert!(rt; has_newline(b"a\r") && has_newline(b"a\nb") && has_newline(b"\x0C"));
        assert!(rt; !has_newline(b"a\t\x0B ") && !has_newline(b""));
        Ok(())
    }
}
