//! Which module imports which: the Haskell 98 Report, sections 5.3 and 5.6.
ghost use Rattle.std.specs.Prelude.{◌≡◌, ◌<◌, ◌++◌, ◌∷◌, [], All, IfOk, OnOk, length};
ghost use Rattle.hr_check.specs.Edges.{StaysWithin};

use hr_base::{Class, Lexeme, Place, Pos, Text};
use hr_grading::positions;
use hr_graph::ImportEdge;
use hr_outline::{Outline, module_name, outline_of};
use hr_tree::Module;
use std::alloc::{AllocError, Global};

/// The names of the modules.
pub fn names(alloc: Global, modules: &[Module]) -> Result<Vec<Text>, AllocError> {
    let mut names = Vec::new(alloc);
    for tree in modules {
        names.push(module_name(alloc, tree)?)?;
    }
    Ok(names)
}

/// The imports of the modules, with that of Prelude where it isn't written.
pub fn edges(
    alloc: Global,
    modules: &[Module],
    names: &[Text],
) -> Result<Vec<ImportEdge>, AllocError>
    ensures { IfOk result (λ edges. All (λ one. one.from < length names.now) edges.items) }
{
    let mut edges = Vec::new(alloc);
    for (from, name) in names.iter().enumerate() {
        add_module(alloc, &mut edges, from, modules.get(from), name)?;
    }
    Ok(edges)
}

/// Adds the imports of the module with that number, if there is one.
fn add_module(
    alloc: Global,
    edges: &mut Vec<ImportEdge>,
    from: usize,
    tree: Option<&Module>,
    name: &Text,
) -> Result<(), AllocError>
    ensures { OnOk result (StaysWithin from edges.old.items edges.new.items) }
{
    match tree {
        Some(tree) => add_edges(edges, from, targets_of(alloc, tree, name)?),
        None => Ok(()),
    }
}

/// What a module imports, and where its name stands there.
#[derive(Drop)]
struct Target {
    to: Text,
    place: Place,
}

fn add_edges(
    edges: &mut Vec<ImportEdge>,
    from: usize,
    targets: Vec<Target>,
) -> Result<(), AllocError>
    ensures { OnOk result (StaysWithin from edges.old.items edges.new.items) }
{
    for target in targets {
        let Target { to, place } = target;
        keep(edges, ImportEdge { from, to, place })?;
    }
    Ok(())
}

fn keep(edges: &mut Vec<ImportEdge>, edge: ImportEdge) -> Result<(), AllocError>
    ensures { OnOk result (edges.new.items ≡ edges.old.items ++ edge ∷ []) }
{
    Ok(edges.push(edge)?)
}

/// The imports that a module has in its text, and that of Prelude where it isn't written.
fn targets_of(alloc: Global, tree: &Module, name: &Text) -> Result<Vec<Target>, AllocError> {
    let outline = outline_of(alloc, tree)?;
    let mut targets = Vec::new(alloc);
    let written = add_written(alloc, &mut targets, name, &outline)?;
    if !written && !name.is(b"Prelude") {
        targets.push(implicit(alloc, name)?)?;
    }
    Ok(targets)
}

/// Adds the imports that a module has in its text. The answer says whether one of them is of Prelude.
fn add_written(
    alloc: Global,
    targets: &mut Vec<Target>,
    name: &Text,
    outline: &Outline<'_>,
) -> Result<bool, AllocError> {
    let places = positions(alloc, outline)?;
    let mut has_prelude = false;
    let mut awaits_name = false;
    for (mark, pos) in outline.marks.iter().zip(places) {
        let lexeme = &mark.item.lexeme;
        if awaits_name && lexeme.class == Class::ConId {
            awaits_name = false;
            has_prelude = has_prelude || lexeme.text.is(b"Prelude");
            targets.push(target_at(&lexeme.text, name, pos)?)?;
        } else if is_import(lexeme) {
            awaits_name = true;
        }
    }
    Ok(has_prelude)
}

/// The import of Prelude that isn't written.
fn implicit(alloc: Global, name: &Text) -> Result<Target, AllocError> {
    let prelude = Text::from_slice(alloc, b"Prelude")?;
    target_at(&prelude, name, Pos { line: 1, col: 1 })
}

fn target_at(to: &Text, name: &Text, pos: Pos) -> Result<Target, AllocError> {
    Ok(Target {
        to: to.clone()?,
        place: Place {
            module: name.clone()?,
            pos,
        },
    })
}

fn is_import(lexeme: &Lexeme) -> bool {
    lexeme.class == Class::ReservedId && lexeme.text.is(b"import")
}
