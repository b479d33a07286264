use crate::{Constructor, Field, Listed, Operand, Variable};
use hr_base::Item;
use sqlite_items::{Boxed, Items as Children};

/// A pattern: the Haskell 98 Report, section 3.17.
pub enum Pat {
    Variable(Variable),
    Wildcard(Item),
    Literal(Item),
    /// A minus and an integer.
    Negative(Item, Item),
    Constructor(Constructor),
    /// `x@p`
    As(Variable, Item, Boxed<Pat>),
    /// `~p`
    Lazy(Item, Boxed<Pat>),
    /// A constructor with one pattern or more.
    Apply(Constructor, Children<Pat>),
    /// Two operands or more with constructor operators between them.
    Infix(Children<Operand<Pat>>),
    Tuple(Item, Children<Listed<Pat>>, Item),
    List(Item, Children<Listed<Pat>>, Item),
    Group(Item, Boxed<Pat>, Item),
    /// `C {x = p}`, which is not read yet.
    Fields(Constructor, Item, Children<Listed<Field<Pat>>>, Item),
}

impl Drop for Pat {
    fn drop(self) {
        match self {
            Pat::Variable(variable) => let_go!(variable),
            Pat::Wildcard(item) => let_go!(item),
            Pat::Literal(item) => let_go!(item),
            Pat::Negative(minus, number) => let_go!(minus, number),
            Pat::Constructor(constructor) => let_go!(constructor),
            Pat::As(variable, at, pattern) => let_go!(variable, at, pattern),
            Pat::Lazy(tilde, pattern) => let_go!(tilde, pattern),
            Pat::Apply(constructor, patterns) => let_go!(constructor, patterns),
            Pat::Infix(operands) => let_go!(operands),
            Pat::Tuple(left, parts, right) => let_go!(left, parts, right),
            Pat::List(left, parts, right) => let_go!(left, parts, right),
            Pat::Group(left, inside, right) => let_go!(left, inside, right),
            Pat::Fields(constructor, left, fields, right) => let_go!(
                constructor,
                left,
                fields,
                right
            ),
        }
    }
}
