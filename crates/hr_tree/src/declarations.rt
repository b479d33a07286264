use crate::{Block, Constructor, Import, Listed, Operator, Pat, Ty, Variable};
use hr_base::{Item, Seq};
use sqlite_items::Items as Children;

/// What a `type`, `data` or `newtype` declares: a type's constructor and its variables.
#[derive(Drop)]
pub struct TypeHead {
    pub name: Item,
    pub variables: Seq<Item>,
}

/// A constructor as a `data` or `newtype` declares it.
pub enum Construction {
    Prefix(Constructor, Children<Ty>),
    Infix(Ty, Operator, Ty),
    /// `C {x, y :: t}`, which is not read yet.
    Fields(Constructor, Item, Seq<Listed<FieldType>>, Item),
}

impl Drop for Construction {
    fn drop(self) {
        match self {
            Construction::Prefix(constructor, types) => let_go!(constructor, types),
            Construction::Infix(first, operator, second) => let_go!(first, operator, second),
            Construction::Fields(constructor, left, fields, right) => let_go!(
                constructor,
                left,
                fields,
                right
            ),
        }
    }
}

/// The type of labelled fields.
#[derive(Drop)]
pub struct FieldType {
    pub names: Seq<Listed<Variable>>,
    pub colons: Item,
    pub ty: Ty,
}

/// The left side of an equation: parentheses that left, the innermost left side, and behind each
/// parenthesis that closes one pattern or more.
pub struct LeftSide {
    pub opens: Seq<Item>,
    pub head: LeftHead,
    pub closes: Seq<Closed>,
}

impl Drop for LeftSide {
    fn drop(self) {
        let LeftSide {
            opens,
            head,
            closes,
        } = self;
        let_go!(opens, head, closes);
    }
}

/// A left side without parentheses round it.
pub enum LeftHead {
    /// A variable and one pattern or more.
    Prefix(Variable, Children<Pat>),
    /// Two patterns and a variable operator between them.
    Infix(Pat, Operator, Pat),
}

impl Drop for LeftHead {
    fn drop(self) {
        match self {
            LeftHead::Prefix(variable, patterns) => let_go!(variable, patterns),
            LeftHead::Infix(first, operator, second) => let_go!(first, operator, second),
        }
    }
}

/// A closing parenthesis of a left side, with the patterns behind it.
#[derive(Drop)]
pub struct Closed {
    pub right: Item,
    pub patterns: Children<Pat>,
}

/// A body behind `=` or `->`, or one or more of them under guards.
#[derive(Drop)]
pub enum Body<E> {
    Plain(Item, E),
    Guarded(Children<Guarded<E>>),
}

/// `| guard = body`, or with `->`.
#[derive(Drop)]
pub struct Guarded<E> {
    pub bar: Item,
    pub guard: E,
    pub mark: Item,
    pub body: E,
}

/// `where` and its block.
#[derive(Drop)]
pub struct Where<D> {
    pub word: Item,
    pub block: Block<D>,
}
