//! What a walk over a module's tree meets that says something of types: the rules of typing that it calls for, and
//! the types that are written.
#![tactic(auto)]

/// Ends the values one after another. The wide types are let go by hand, so that the crates above call these functions;
/// a derived drop would be proved again in each of them.
macro_rules! let_go {
    ($($part:ident),*) => {{ $(drop($part);)* }};
}

mod declared;
mod heads;
mod names;
mod rule;
mod types;
mod walk;
mod written;

pub use declared::{data, newtype, synonym};
pub use heads::{pass_header, pass_import};
pub use names::{
    constructor_used, literal, operator_at, use_constructor, use_operator, use_variable,
    variable_at,
};
pub use rule::{Literal, Rule, Signed, Used};
pub use types::annotation;
pub use walk::Walk;
pub use written::{Construction, Head, TypeMark, Written};
