//! How many lexemes the heads of modules and imports have, which say nothing of types.
use crate::names::{constructor_used, variable_at};
use crate::walk::Walk;
use hr_tree::{Export, Header, Import, ImportNames, Imported, Member, Members};

/// Passes `import qualified M as N hiding (..)`.
pub fn pass_import(import: &Import, walk: &mut Walk) {
    walk.pass(2);
    walk.maybe(&import.qualified);
    if import.alias.is_some() {
        walk.pass(2);
    }
    if let Some(names) = &import.names {
        pass_names(names, walk);
    }
}

fn pass_names(names: &ImportNames, walk: &mut Walk) {
    walk.maybe(&names.hiding);
    walk.pass(1);
    for imported in names.list.list.as_slice() {
        match &imported.part {
            Imported::Variable(variable) => {
                let _at = variable_at(variable, walk);
            }
            Imported::Type(_, members) => pass_type(members, walk),
        }
        walk.maybe(&imported.separator);
    }
    walk.maybe(&names.list.last_comma);
    walk.pass(1);
}

fn pass_type(members: &Option<Members>, walk: &mut Walk) {
    walk.pass(1);
    match members {
        Some(Members::All(_, _, _)) => walk.pass(3),
        Some(Members::Named(_, list, _)) => {
            walk.pass(1);
            for member in list.as_slice() {
                pass_member(&member.part, walk);
                walk.maybe(&member.separator);
            }
            walk.pass(1);
        }
        None => {}
    }
}

fn pass_member(member: &Member, walk: &mut Walk) {
    match member {
        Member::Constructor(constructor) => {
            let _used = constructor_used(constructor, walk);
        }
        Member::Field(variable) => {
            let _at = variable_at(variable, walk);
        }
    }
}

/// Passes `module M (..) where`.
pub fn pass_header(header: &Header, walk: &mut Walk) {
    walk.pass(2);
    if let Some(exports) = &header.exports {
        walk.pass(1);
        for export in exports.list.as_slice() {
            pass_export(&export.part, walk);
            walk.maybe(&export.separator);
        }
        walk.maybe(&exports.last_comma);
        walk.pass(1);
    }
    walk.pass(1);
}

fn pass_export(export: &Export, walk: &mut Walk) {
    match export {
        Export::Variable(variable) => {
            let _at = variable_at(variable, walk);
        }
        Export::Type(_, members) => pass_type(members, walk),
        Export::Module(_, _) => walk.pass(2),
    }
}
