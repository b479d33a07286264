//! Single lexemes by their kind, and depths.
ghost use Rattle.std.specs.Prelude.{◌≡◌, Some, IfOk};
ghost use Rattle.hr_layout.specs.Standing.{next_of, taken};
ghost use Rattle.hr_parse_lexeme.specs.Reads.{Takes};
ghost use Rattle.hr_parse_pattern.specs.Kinds.{IsSymbolOf};
ghost use Rattle.hr_parse_pattern.specs.Nodes.{deeper};

use hr_base::Item;
use hr_layout::Cursor;
use hr_parse_lexeme::{Kind, Mark, Sort, Stop, accept, expect, expect_sort};

/// The nesting of a node that stands right below one with this nesting.
pub fn below(depth: u32) -> u32
    ensures { result ≡ deeper depth }
{
    depth.saturating_add(1)
}

/// Takes the next lexeme, which has to go on and to be an operator's of the kind.
pub fn expect_kind(cursor: &mut Cursor, kind: Kind) -> Result<Item, Stop>
    ensures { IfOk result (λ item. Takes (IsSymbolOf kind) item cursor.old cursor.new) }
{
    match kind {
        Kind::VariableSymbol => expect_sort(cursor, Sort::VariableSymbol),
        Kind::QualifiedVariableSymbol => expect_sort(cursor, Sort::NamedVariableSymbol),
        Kind::ConstructorSymbol => expect_sort(cursor, Sort::ConstructorSymbol),
        Kind::QualifiedConstructorSymbol => {
            expect_sort(cursor, Sort::QualifiedConstructorSymbol)
        }
        Kind::Minus => expect(cursor, Mark::Minus),
        Kind::Colon => expect(cursor, Mark::Colon),
        Kind::Backquote => expect(cursor, Mark::Backquote),
        _ => Err(Stop::Syntax),
    }
}

/// Takes the next lexeme, wherever it stands.
pub fn past(cursor: &mut Cursor) -> Result<Item, Stop>
    ensures item { IfOk result (λ item. next_of cursor.old.rest ≡ Some item) }
    ensures goes_on { cursor.new ≡ taken cursor.old }
{
    match cursor.take() {
        None => Err(Stop::Syntax),
        Some(item) => Ok(item),
    }
}
