use crate::{Constructor, Listed};
use hr_base::Item;
use sqlite_items::{Boxed, Items as Children};

/// A type: the Haskell 98 Report, section 4.1.2. An applied constructor has one argument or more.
pub enum Ty {
    Variable(Item),
    Constructor(Constructor),
    Apply(Constructor, Children<Ty>),
    Function(Boxed<Ty>, Item, Boxed<Ty>),
    Tuple(Item, Children<Listed<Ty>>, Item),
    List(Item, Boxed<Ty>, Item),
    Group(Item, Boxed<Ty>, Item),
}

impl Drop for Ty {
    fn drop(self) {
        match self {
            Ty::Variable(item) => let_go!(item),
            Ty::Constructor(constructor) => let_go!(constructor),
            Ty::Apply(constructor, types) => let_go!(constructor, types),
            Ty::Function(from, arrow, to) => let_go!(from, arrow, to),
            Ty::Tuple(left, parts, right) => let_go!(left, parts, right),
            Ty::List(left, part, right) => let_go!(left, part, right),
            Ty::Group(left, inside, right) => let_go!(left, inside, right),
        }
    }
}
