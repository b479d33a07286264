ghost use Rattle.std.specs.Prelude.{◌≡◌, IfOk};
ghost use Rattle.hr_check.specs.Projects.{modules_of, texts_of};
ghost use Rattle.hr_tree_items.specs.Texts.{AreTextsOf};

use crate::imports::{edges, names};
use crate::reading::read_all;
use crate::{LoadError, Project};
use hr_base::Text;
use hr_exports::close;
use hr_grading::{Fixities, grade};
use hr_graph::order;
use hr_scope::bind;
use hr_tables::{Bindings, Interfaces};
use hr_tree::Module;
use std::alloc::{AllocError, Global};

/// The project of the texts, or the refusal of the first layer that refuses: lexemes and trees text by text; then
/// the order of imports, exports, names, and fixities.
pub fn check(alloc: Global, texts: &[Text]) -> Result<Project, LoadError>
    ensures texts { IfOk result (λ project. texts_of project ≡ texts.now) }
    ensures read { IfOk result (λ project. AreTextsOf (texts_of project) (modules_of project)) }
{
    let trees = read_all(alloc, texts)?;
    let (interfaces, bindings) = check_trees(alloc, trees.as_slice())?;
    Ok(Project {
        texts: copies(alloc, texts)?,
        trees,
        interfaces,
        bindings,
    })
}

/// What the modules export and see, and what their names are bound to.
fn check_trees(alloc: Global, modules: &[Module]) -> Result<(Interfaces, Bindings), LoadError> {
    let names = names(alloc, modules)?;
    let edges = edges(alloc, modules, names.as_slice())?;
    let order = order(alloc, names.as_slice(), edges.as_slice()).map_err(LoadError::ordering)?;
    let interfaces = close(alloc, modules, order.as_slice()).map_err(LoadError::exporting)?;
    let bindings = bind(alloc, modules, &interfaces).map_err(LoadError::binding)?;
    grade_all(alloc, modules, names.as_slice(), &bindings)?;
    Ok((interfaces, bindings))
}

/// Resolves the sequences of all modules, in the order of the list.
fn grade_all(
    alloc: Global,
    modules: &[Module],
    names: &[Text],
    bindings: &Bindings,
) -> Result<(), LoadError> {
    let fixities = Fixities::new(alloc, modules, bindings)?;
    for (tree, (name, entries)) in modules
        .iter()
        .zip(names.iter().zip(bindings.modules.as_slice()))
    {
        grade(alloc, name, tree, entries.as_slice(), &fixities).map_err(LoadError::grading)?;
    }
    Ok(())
}

fn copies(alloc: Global, texts: &[Text]) -> Result<Vec<Text>, AllocError>
    ensures { IfOk result (λ list. list.items ≡ texts.now) }
{
    let mut list = Vec::new(alloc);
    for text in texts {
        list.push(text.clone()?)?;
    }
    Ok(list)
}
