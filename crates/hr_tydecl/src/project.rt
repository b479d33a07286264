use crate::building::Builder;
use crate::checking::{Context, Fault, fault_of, name_text};
use crate::constructors::put_declared;
use crate::cycles::{Order, synonym_order};
use crate::declared::{DeclError, Declared};
use crate::known::{Stated, Types, entity_at, entries_of, types_of};
use crate::shown::place_at;
use crate::synonyms::{bound_of, expand_all};
use hr_base::{Binder, Entity, Seq, Text};
use hr_tables::Bindings;
use hr_tree::Module;
use hr_type::Scheme;
use hr_typing_code::ModuleRules;
use hr_typing_walk::Written;
use std::alloc::{AllocError, Global};

/// What the modules declare of types, by what `module_rules` answers of each. Of several faults the first in text order is
/// shown, module by module.
pub fn declarations(
    alloc: Global,
    modules: &[Module],
    rules: &[ModuleRules],
    bindings: &Bindings,
) -> Result<Declared, DeclError> {
    let entries = all_entries(alloc, bindings)?;
    let entries = entries.as_slice();
    let types = types_of(alloc, rules, entries)?;
    let order = synonym_order(alloc, &types, rules, entries)?;
    check_all(alloc, modules, rules, &types, &order, entries)?;
    let declared = all_declared(alloc, rules, &types, &order, entries)?;
    Ok(declared)
}

fn all_entries(alloc: Global, bindings: &Bindings) -> Result<Vec<&[Option<Binder>]>, AllocError> {
    let mut entries = Vec::new(alloc);
    for own in bindings.modules.as_slice() {
        entries.push(own.as_slice())?;
    }
    Ok(entries)
}

/// Refuses the first fault.
fn check_all(
    alloc: Global,
    modules: &[Module],
    rules: &[ModuleRules],
    types: &Types,
    order: &Order,
    entries: &[&[Option<Binder>]],
) -> Result<(), DeclError> {
    for (number, module) in modules.iter().enumerate() {
        let Some(own) = rules.get(number) else {
            return Ok(());
        };
        let context = Context {
            types,
            order,
            entries: entries_of(entries, number),
        };
        for written in own.written.as_slice() {
            if let Some(fault) = fault_of(alloc, written, context)? {
                return Err(refusal(alloc, module, context.entries, fault));
            }
        }
    }
    Ok(())
}

fn refusal(alloc: Global, module: &Module, entries: &[Option<Binder>], fault: Fault) -> DeclError {
    match refused(alloc, module, entries, fault) {
        Ok(error) => error,
        Err(error) => DeclError::Memory(error),
    }
}

fn refused(
    alloc: Global,
    module: &Module,
    entries: &[Option<Binder>],
    fault: Fault,
) -> Result<DeclError, AllocError> {
    match fault {
        Fault::Cycle(lexeme) => Ok(DeclError::SynonymCycle {
            name: shown(alloc, entries, lexeme)?,
        }),
        Fault::Arity(lexeme) => Ok(DeclError::WrongArity {
            place: place_at(alloc, module, lexeme)?,
        }),
        Fault::Variable(lexeme) => Ok(DeclError::UnboundTypeVariable {
            place: place_at(alloc, module, lexeme)?,
        }),
    }
}

fn shown(alloc: Global, entries: &[Option<Binder>], lexeme: usize) -> Result<Text, AllocError> {
    match name_text(entries, lexeme) {
        Some(text) => text.clone(),
        None => Text::from_slice(alloc, b""),
    }
}

fn all_declared(
    alloc: Global,
    rules: &[ModuleRules],
    types: &Types,
    order: &Order,
    entries: &[&[Option<Binder>]],
) -> Result<Declared, AllocError> {
    let mut builder = Builder {
        alloc,
        types,
        expansions: Vec::new(alloc),
        built: 0,
    };
    expand_all(order, rules, entries, &mut builder)?;
    let mut declared = Declared::new(alloc);
    for (number, own) in rules.iter().enumerate() {
        let bound = entries_of(entries, number);
        for written in own.written.as_slice() {
            put_declared(written, number, bound, &mut builder, &mut declared)?;
        }
    }
    put_arities(types, &mut declared)?;
    let Builder { expansions, .. } = builder;
    put_synonyms(rules, types, entries, expansions, &mut declared)?;
    Ok(declared)
}

/// The numbers of arguments of all types, those without a declaration first.
fn put_arities(types: &Types, declared: &mut Declared) -> Result<(), AllocError> {
    for (entity, known) in types.known.iter() {
        declared
            .arities
            .list
            .push((entity.clone()?, bound_of(known.arity)?))?;
    }
    Ok(())
}

/// The expansions of synonyms, in text order.
fn put_synonyms(
    rules: &[ModuleRules],
    types: &Types,
    entries: &[&[Option<Binder>]],
    expansions: Vec<Option<Scheme>>,
    declared: &mut Declared,
) -> Result<(), AllocError> {
    let mut number = 0usize;
    for expansion in expansions {
        let entity = match types.synonyms.get(number) {
            Some(stated) => synonym_entity(*stated, rules, entries),
            None => None,
        };
        if let (Some(entity), Some(scheme)) = (entity, expansion) {
            declared.synonyms.list.push((entity.clone()?, scheme))?;
        }
        number = number.saturating_add(1);
    }
    Ok(())
}

/// What a synonym is called.
fn synonym_entity<'a>(
    stated: Stated,
    rules: &[ModuleRules],
    entries: &[&'a [Option<Binder>]],
) -> Option<&'a Entity> {
    match rules.get(stated.module)?.written.get(stated.number) {
        Some(Written::Synonym { name, .. }) => entity_at(entries_of(entries, stated.module), *name),
        _ => None,
    }
}
