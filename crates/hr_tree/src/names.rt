use hr_base::{Item, Seq};

/// A variable that stands for itself: a name, or an operator in parentheses.
pub enum Variable {
    Name(Item),
    Symbol(Item, Item, Item),
}

/// A constructor, or a type's constructor: a name, an operator (or `->`) in parentheses, `()`, `[]`,
/// or commas in parentheses.
pub enum Constructor {
    Name(Item),
    Symbol(Item, Item, Item),
    Unit(Item, Item),
    EmptyList(Item, Item),
    Tuple(Item, Seq<Item>, Item),
}

/// An operator that stands between operands: of symbols, or a name in backquotes.
pub enum Operator {
    Symbol(Item),
    Quoted(Item, Item, Item),
}

impl Drop for Variable {
    fn drop(self) {
        match self {
            Variable::Name(name) => let_go!(name),
            Variable::Symbol(left, symbol, right) => let_go!(left, symbol, right),
        }
    }
}

impl Drop for Constructor {
    fn drop(self) {
        match self {
            Constructor::Name(name) => let_go!(name),
            Constructor::Symbol(left, symbol, right) => let_go!(left, symbol, right),
            Constructor::Unit(left, right) => let_go!(left, right),
            Constructor::EmptyList(left, right) => let_go!(left, right),
            Constructor::Tuple(left, commas, right) => let_go!(left, commas, right),
        }
    }
}

impl Drop for Operator {
    fn drop(self) {
        match self {
            Operator::Symbol(symbol) => let_go!(symbol),
            Operator::Quoted(left, name, right) => let_go!(left, name, right),
        }
    }
}
