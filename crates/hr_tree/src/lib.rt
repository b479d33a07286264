//! The lossless tree of a module, what it yields, and which lexeme begins at a position.
#![tactic(auto)]

/// Ends the values one after another. The types of the tree that contain themselves are let go by hand, so that the
/// crates above call these functions; a derived drop would be proved again in each of them.
macro_rules! let_go {
    ($($part:ident),*) => {{ $(drop($part);)* }};
}

mod declarations;
mod expressions;
mod lists;
mod modules;
mod names;
mod patterns;
mod search;
mod types;
mod walk;
mod yields;

pub use declarations::{
    Body, Closed, Construction, FieldType, Guarded, LeftHead, LeftSide, TypeHead, Where,
};
pub use expressions::{Alt, Decl, Exp, Qualifier};
pub use lists::{Block, Field, Layout, Listed, Operand, Piece};
pub use modules::{
    Alias, Export, Header, Import, ImportNames, Imported, Member, Members, Module, NameList,
};
pub use names::{Constructor, Operator, Variable};
pub use patterns::Pat;
pub use search::at;
pub use types::Ty;
pub use yields::items;
