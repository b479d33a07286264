//! Lexemes of a class, or of one of several.
ghost use Rattle.std.specs.Prelude.{◌≡◌};
ghost use Rattle.hr_parse_lexeme.specs.Sorts.{has_sort};

use hr_base::{Class, Lexeme};

/// A sort of lexemes whose spelling is free. The sorts that begin with `Named` have qualified names too.
#[derive(Clone, Copy, Debug, PartialEq, Eq)]
pub enum Sort {
    Variable,
    Constructor,
    VariableSymbol,
    ConstructorSymbol,
    NamedVariable,
    NamedConstructor,
    NamedVariableSymbol,
    QualifiedConstructorSymbol,
    Integer,
    Literal,
    Word,
}

impl Sort {
    /// Whether the lexeme is of this sort.
    pub fn has(self, lexeme: &Lexeme) -> bool
        ensures { result ≡ has_sort self lexeme.now.class }
    {
        let class = lexeme.class;
        match self {
            Sort::Variable => matches!(class, Class::VarId),
            Sort::Constructor => matches!(class, Class::ConId),
            Sort::VariableSymbol => matches!(class, Class::VarSym),
            Sort::ConstructorSymbol => matches!(class, Class::ConSym),
            Sort::NamedVariable => matches!(class, Class::VarId | Class::QVarId),
            Sort::NamedConstructor => matches!(class, Class::ConId | Class::QConId),
            Sort::NamedVariableSymbol => matches!(class, Class::VarSym | Class::QVarSym),
            Sort::QualifiedConstructorSymbol => matches!(class, Class::QConSym),
            Sort::Integer => matches!(class, Class::Integer),
            Sort::Literal => matches!(class, Class::Integer | Class::Char | Class::Str),
            Sort::Word => matches!(class, Class::ReservedId),
        }
    }
}
