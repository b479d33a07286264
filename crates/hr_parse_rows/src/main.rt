//! Rows of the parser: what a text is read as.
//!
//!     read ;; f x = let y = 1 in y       the lexemes, with `{n:` and `}` round the blocks without braces
//!     tree ;; f x = (+ 1)                and `<` with a name and `>` round the nodes
//!     fits ;; f = \253{(}1\253{)}        whether it is read
//!     lexes ;; f = )                     whether it has lexemes
//!
//! A refusal is `6 line:col`, `7 line:col` or `8 text line:col`, or `lexer` where the text has no items. Trees are
//! never dropped: a program that drops a tree proves the drops of all nodes, which takes many minutes.
#![tactic(auto)]

mod answers;
mod declarations;
mod expressions;
mod modules;
mod names;
mod patterns;
mod shown;

use hr_rows::answer_all;
use std::io;

fn main(rt: HostRuntime) -> io::Result<()> {
    answer_all(&rt, rt.alloc(), answers::answer)
}
