ghost use Rattle.std.specs.Prelude.{◌≡◌, ◌<◌, ℕ, [], length, map, All, Some, IfOk, IfErr, OnOk, slice_index_or};
ghost use Rattle.std.specs.BTreeMap.{Updates};
ghost use Rattle.std.specs.Cmp.Lexicographic.{slice_cmp};
ghost use Rattle.std.specs.Ordering.{nat_cmp};
ghost use Rattle.hr_graph.specs.Modules.{HasNoRepeat, ArePlaces, AreEdges, IsRepeatRefused, ShowsRepeat, IsUnknownRefused, ShowsUnknown};

use crate::module_order::{GraphError, ImportEdge};
use hr_base::{Seq, Text};
use std::alloc::{AllocError, Global};
use std::collections::BTreeMap;

/// The place of each name in the list.
pub(crate) fn places(alloc: Global, names: &[Text]) -> Result<BTreeMap<Text, usize>, GraphError>
    ensures distinct { IfOk result (λ places. HasNoRepeat names.now) }
    ensures places { IfOk result (λ places. ArePlaces names.now places) }
    ensures refused { IfErr result (IsRepeatRefused names.now) }
{
    let mut places = BTreeMap::new(alloc);
    for (place, name) in names.iter().enumerate() {
        if places.contains_key(name) {
            return Err(duplicate(name));
        }
        let Ok(()) = place_name(&mut places, name, place) else {
            return Err(GraphError::Memory(AllocError));
        };
    }
    Ok(places)
}

fn place_name(
    places: &mut BTreeMap<Text, usize>,
    name: &Text,
    place: usize,
) -> Result<(), AllocError>
    ensures { OnOk result (Updates (slice_cmp nat_cmp) places.old places.new name.now (Some place)) }
{
    let key = copy_of(name)?;
    places.insert(key, place)?;
    Ok(())
}

fn copy_of(name: &Text) -> Result<Text, AllocError>
    ensures { IfOk result (λ copy. copy ≡ name.now) }
{
    let copy = name.clone()?;
    Ok(copy)
}

fn duplicate(name: &Text) -> GraphError
    ensures { ShowsRepeat name.now result }
{
    match name.clone() {
        Ok(name) => GraphError::DuplicateModule { name },
        Err(reason) => GraphError::Memory(reason),
    }
}

/// The edges of the import graph.
pub(crate) fn edges(
    alloc: Global,
    names: &[Text],
    places: &BTreeMap<Text, usize>,
    imports: &[ImportEdge],
) -> Result<Vec<(usize, usize)>, GraphError>
    requires { ArePlaces names.now places.now }
    ensures edges { IfOk result (λ edges. AreEdges names.now imports.now edges.items) }
    ensures refused { IfErr result (IsUnknownRefused names.now imports.now) }
{
    let mut edges = Vec::new(alloc);
    for import in imports {
        let Some(to) = places.get(&import.to).copied() else {
            return Err(unknown(import));
        };
        let Ok(()) = edges.push((import.from, to)) else {
            return Err(GraphError::Memory(AllocError));
        };
    }
    Ok(edges)
}

fn unknown(import: &ImportEdge) -> GraphError
    ensures { ShowsUnknown import.now result }
{
    let Ok(name) = import.to.clone() else {
        return GraphError::Memory(AllocError);
    };
    match import.place.clone() {
        Ok(place) => GraphError::NoModule { name, place },
        Err(reason) => GraphError::Memory(reason),
    }
}

/// The names of the modules at these places.
pub(crate) fn shown(
    alloc: Global,
    names: &[Text],
    places: &[usize],
) -> Result<Seq<Text>, AllocError>
    requires { All (λ place. place < length names.now) places.now }
    ensures { IfOk result (λ list. list ≡ map (λ place. slice_index_or names.now place []) places.now) }
{
    let mut list = Vec::new(alloc);
    for place in places {
        list.push(copy_of(&names[*place])?)?;
    }
    Ok(Seq { list })
}
