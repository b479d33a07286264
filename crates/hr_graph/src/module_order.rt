ghost use Rattle.std.specs.Prelude.{◌<◌, length, All, IfOk, IfErr, IfNone, IfSome};
ghost use Rattle.hr_graph.specs.Graph.{IsWithin};
ghost use Rattle.hr_graph.specs.Cycle.{IsNumbered};
ghost use Rattle.hr_graph.specs.Modules.{IsReadingOrder, IsOrderRefusal, ShowsCycle};

use crate::cycle::{first_on_cycle, least_cycle};
use crate::module_names::{edges, places, shown};
use crate::ready::first_ready;
use hr_base::{Place, Seq, Text};
use std::alloc::{AllocError, Global};
use thiserror::Error;

/// An import: the module that has it, by its number in the list of names, the imported module's
/// name, and where it stands.
#[derive(Clone, Debug, Drop, PartialEq, Eq)]
pub struct ImportEdge {
    pub from: usize,
    pub to: Text,
    pub place: Place,
}

/// Why the modules have no order.
#[derive(Debug, Drop, Error)]
pub enum GraphError {
    #[error("two modules have one name")]
    DuplicateModule { name: Text },
    #[error("an import names no module")]
    NoModule { name: Text, place: Place },
    #[error("the imports form a cycle")]
    ImportCycle { names: Seq<Text> },
    #[error(transparent)]
    Memory(AllocError),
}

/// The order in which the modules are read: each after those that it imports, and of those that may
/// come next the first one in the list of names. A repeated name is refused first, then an import of
/// no module, and then a cycle.
pub fn order(
    alloc: Global,
    names: &[Text],
    imports: &[ImportEdge],
) -> Result<Vec<usize>, GraphError>
    requires { All (λ one. one.from < length names.now) imports.now }
    ensures order { IfOk result (λ order. IsReadingOrder names.now imports.now order.items) }
    ensures refused { IfErr result (IsOrderRefusal names.now imports.now) }
{
    let places = places(alloc, names)?;
    let edges = edges(alloc, names, &places, imports)?;
    let Ok(cycle) = cycle_names(alloc, names, &edges) else {
        return Err(GraphError::Memory(AllocError));
    };
    if let Some(names) = cycle {
        return Err(GraphError::ImportCycle { names });
    }
    let Ok(order) = first_ready(alloc, names.len(), &edges) else {
        return Err(GraphError::Memory(AllocError));
    };
    Ok(order)
}

/// The names of the modules on the first cycle, if there is one.
fn cycle_names(
    alloc: Global,
    names: &[Text],
    edges: &[(usize, usize)],
) -> Result<Option<Seq<Text>>, AllocError>
    requires { IsWithin (length names.now) edges.now }
    ensures none { IfOk result (λ shown. IfNone shown (IsNumbered edges.now)) }
    ensures some { IfOk result (λ shown. IfSome shown (ShowsCycle names.now edges.now)) }
{
    let Some(first) = first_on_cycle(alloc, names.len(), edges)? else {
        return Ok(None);
    };
    let cycle = least_cycle(alloc, names.len(), edges, first)?;
    let shown = shown(alloc, names, &cycle)?;
    Ok(Some(shown))
}
