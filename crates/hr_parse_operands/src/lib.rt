//! Operands, and infix sequences of them: the Haskell 98 Report, sections 3.3, 3.4, 3.6, 3.12, 3.13 and 3.16. What the next
//! lexeme can begin decides, so each choice leaves one production.
#![tactic(auto)]

mod applications;
mod atoms;
mod forms;
mod sequences;

pub use applications::{behind_argument, behind_head, operand};
pub use atoms::atom;
pub use forms::{behind_form, body_of_let};
pub use sequences::{begin_sequence, behind_operand};
