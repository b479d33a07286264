//! What the readers of expressions, declarations and blocks share: what is read next and what waits for it, what was
//! read, patterns that have the lexemes of an expression, and the pieces of blocks.
#![tactic(auto)]

mod blocks;
mod brackets;
mod operands;
mod pieces;
mod place;
mod read;
mod starts;
mod steps;
mod twins;
mod words;

pub use blocks::{Alts, Decls, GuardedBy, Guards, Left, Position, Side, Siding, Whole};
pub use brackets::{
    Bracket, Comprehension, Dots, Generator, ListParts, Locals, Parenthesis, Second,
};
pub use operands::{Arguments, Condition, Form, LetBody, Sequence};
pub use pieces::{Ahead, Blocked, Pieces, Start, fits, opened_by, piece_ahead};
pub use place::{Annotations, Place};
pub use read::{
    APPLIED, CLOSED, Inside, Next, Read, Tail, alone, followed, goes_on, open, operand, part, typed,
};
pub use starts::{
    begins_atom, begins_declaration, begins_pattern_alone, begins_sequence, is_operator_symbol,
};
pub use steps::{
    Frame, Goal, Mixed, Step, Value, alternatives_of, declarations_of, done_alternatives,
    done_declarations, done_expression, done_pattern, done_side, ends_in_type_variable, expression,
    go, mixed_of, side_of, wait,
};
pub use twins::{
    Applied, Twin, applied_of, bound_twin, group_of, head_of, is_named, list_of, literal_twin,
    named_twin, no_operands, no_parts, number_twin, one_more, one_operand_more, one_part_more,
    pattern_of, refused, sequence_of, tuple_of,
};
pub use words::{accept_before_block, before_alternatives, before_block};
