//! How many lexemes stand in a module's header and in an import.

use crate::counts::{constructor_len, maybe_len, variable_len};
use hr_tree::{
    Alias, Export, Header, Import, ImportNames, Imported, Listed, Member, Members, NameList,
};

/// With the words `module` and `where`.
pub fn header_len(header: &Option<Header>) -> usize {
    match header {
        Some(header) => exports_len(&header.exports).saturating_add(3),
        None => 0,
    }
}

fn exports_len(exports: &Option<NameList<Export>>) -> usize {
    let Some(exports) = exports else {
        return 0;
    };
    let mut sum = maybe_len(&exports.last_comma).saturating_add(2);
    for export in exports.list.as_slice() {
        sum = sum
            .saturating_add(export_len(&export.part))
            .saturating_add(maybe_len(&export.separator));
    }
    sum
}

fn export_len(export: &Export) -> usize {
    match export {
        Export::Variable(variable) => variable_len(variable),
        Export::Type(_, members) => members_len(members).saturating_add(1),
        Export::Module(_, _) => 2,
    }
}

fn members_len(members: &Option<Members>) -> usize {
    match members {
        Some(Members::All(_, _, _)) => 3,
        Some(Members::Named(_, list, _)) => named_len(list.as_slice()),
        None => 0,
    }
}

/// With the parentheses.
fn named_len(list: &[Listed<Member>]) -> usize {
    let mut sum = 2usize;
    for member in list {
        sum = sum
            .saturating_add(member_len(&member.part))
            .saturating_add(maybe_len(&member.separator));
    }
    sum
}

fn member_len(member: &Member) -> usize {
    match member {
        Member::Constructor(constructor) => constructor_len(constructor),
        Member::Field(variable) => variable_len(variable),
    }
}

/// With the words and the module's name.
pub fn import_len(import: &Import) -> usize {
    maybe_len(&import.qualified)
        .saturating_add(alias_len(&import.alias))
        .saturating_add(import_names_len(&import.names))
        .saturating_add(2)
}

fn alias_len(alias: &Option<Alias>) -> usize {
    match alias {
        Some(_) => 2,
        None => 0,
    }
}

fn import_names_len(names: &Option<ImportNames>) -> usize {
    let Some(names) = names else {
        return 0;
    };
    let mut sum = maybe_len(&names.hiding)
        .saturating_add(maybe_len(&names.list.last_comma))
        .saturating_add(2);
    for imported in names.list.list.as_slice() {
        sum = sum
            .saturating_add(imported_len(&imported.part))
            .saturating_add(maybe_len(&imported.separator));
    }
    sum
}

fn imported_len(imported: &Imported) -> usize {
    match imported {
        Imported::Variable(variable) => variable_len(variable),
        Imported::Type(_, members) => members_len(members).saturating_add(1),
    }
}
