use crate::TypingError;
use hr_base::{Binder, Seq};
use hr_fixity::Graded;
use hr_infer::{Resolved, Typing, infer};
use hr_tables::Bindings;
use hr_tree::Module;
use hr_tydecl::{Declared, declarations};
use hr_typing_code::{ModuleRules, module_rules};
use std::alloc::{AllocError, Global};

/// The types of all modules, each of which stands in `order` behind those that it imports, and what they declare of
/// types. `graded` has the graded trees of each module's infix sequences.
pub fn type_modules(
    alloc: Global,
    modules: &[Module],
    order: &[usize],
    bindings: &Bindings,
    graded: &[Seq<Graded>],
) -> Result<(Declared, Typing), TypingError> {
    let rules = all_rules(alloc, modules, bindings)?;
    let declared = declarations(alloc, modules, rules.as_slice(), bindings).map_err(
        TypingError::Declared,
    )?;
    let resolved = Resolved {
        modules,
        order,
        rules: rules.as_slice(),
        bindings,
        graded,
    };
    let typing = infer(alloc, resolved, &declared).map_err(TypingError::Defined)?;
    Ok((declared, typing))
}

fn all_rules(
    alloc: Global,
    modules: &[Module],
    bindings: &Bindings,
) -> Result<Vec<ModuleRules>, AllocError> {
    let mut rules = Vec::new(alloc);
    for (number, module) in modules.iter().enumerate() {
        let own = entries_of(bindings, number);
        rules.push(module_rules(alloc, module, own)?)?;
    }
    Ok(rules)
}

fn entries_of(bindings: &Bindings, module: usize) -> &[Option<Binder>] {
    match bindings.modules.as_slice().get(module) {
        Some(entries) => entries.as_slice(),
        None => &[],
    }
}
