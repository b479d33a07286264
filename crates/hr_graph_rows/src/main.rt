//! Rows of hr_graph: graphs in a short notation, with the order of their modules or their components.
//!
//!     order ;; A B C ;; 0:B 1:C        modules, and imports: the number of the importing module and a name
//!     order ;; 200 ;; 0..198>1..25     so many modules that are named by two letters
//!     components ;; 3 ;; 0:1 1:0 1>1   nodes, and edges
//!
//! `0..198>1..25` is an edge from each node of the first range to each that stands so many places behind it, or
//! to the last node where it is nearer; a range may be one number. Shown are numbers, three or more that rise or
//! fall by one as `4..9`; a component of several nodes stands in brackets.
#![tactic(auto)]

mod edges;
mod modules;
mod notation;
mod shown;

use hr_rows::answer_all;
use std::alloc::{AllocError, Global};
use std::io;

/// The answer of a case.
fn answer(alloc: Global, fields: &[Vec<u8>]) -> Result<String, AllocError> {
    let said = match fields {
        [kind, names, imports] if kind.as_slice() == b"order".as_slice() => {
            modules::answer(alloc, names.as_slice(), imports.as_slice())?
        }
        [kind, nodes, edges] if kind.as_slice() == b"components".as_slice() => {
            edges::answer(alloc, nodes.as_slice(), edges.as_slice())?
        }
        _ => None,
    };
    match said {
        Some(said) => Ok(said),
        None => String::from_str(alloc, "no case"),
    }
}

fn main(rt: HostRuntime) -> io::Result<()> {
    answer_all(&rt, rt.alloc(), answer)
}
