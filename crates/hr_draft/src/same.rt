ghost use Rattle.std.specs.Prelude.{◌≡◌};
ghost use Rattle.hr_draft.specs.Same.{class_number, same_lexeme};

use hr_base::{Class, Lexeme};

/// Whether two lexemes are of one class and have one text.
pub fn is_same_lexeme(left: &Lexeme, right: &Lexeme) -> bool
    ensures { result ≡ same_lexeme left.now right.now }
{
    class_number(left.class) == class_number(right.class) && left.text == right.text
}

/// A number of each class.
fn class_number(class: Class) -> u8
    ensures { result ≡ class_number class }
{
    match class {
        Class::VarId => 0,
        Class::ConId => 1,
        Class::QVarId => 2,
        Class::QConId => 3,
        Class::VarSym => 4,
        Class::ConSym => 5,
        Class::QVarSym => 6,
        Class::QConSym => 7,
        Class::Integer => 8,
        Class::Float => 9,
        Class::Char => 10,
        Class::Str => 11,
        Class::ReservedId => 12,
        Class::ReservedOp => 13,
        Class::Special => 14,
    }
}
