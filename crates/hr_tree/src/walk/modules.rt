//! A module, its header and its imports.
ghost use Rattle.std.specs.Prelude.{◌≡◌, OnOk, fold};
ghost use Rattle.std.specs.List.{flat_map};
ghost use Rattle.hr_tree.specs.Lists.{listed_items};
ghost use Rattle.hr_tree.specs.Yields.{export_items, header_items, import_items, imported_items, maybe_alias, maybe_exports, maybe_import_names, maybe_members, member_items, module_items, name_list_items};

use crate::walk::Visitor;
use crate::walk::expressions::walk_decls;
use crate::walk::names::{visit_maybe, visit_two, walk_constructor, walk_variable};
use crate::{
    Alias, Export, Header, Import, ImportNames, Imported, Listed, Member, Members, Module, NameList,
};

pub fn walk_module<V: Visitor>(tree: &Module, visitor: &mut V) -> Result<(), V::Fault>
    ensures { OnOk result (visitor.new ≡ fold V.behind visitor.old (module_items tree.now)) }
{
    walk_header(&tree.header, visitor)?;
    walk_decls(&tree.body, visitor)
}

fn walk_header<V: Visitor>(header: &Option<Header>, visitor: &mut V) -> Result<(), V::Fault>
    ensures { OnOk result (visitor.new ≡ fold V.behind visitor.old (header_items header.now)) }
{
    match header {
        Some(header) => {
            visitor.visit(&header.word)?;
            visitor.visit(&header.name)?;
            walk_maybe_exports(&header.exports, visitor)?;
            visitor.visit(&header.opening)
        }
        None => Ok(()),
    }
}

fn walk_maybe_exports<V: Visitor>(
    exports: &Option<NameList<Export>>,
    visitor: &mut V,
) -> Result<(), V::Fault>
    ensures { OnOk result (visitor.new ≡ fold V.behind visitor.old (maybe_exports exports.now)) }
{
    match exports {
        Some(exports) => {
            visitor.visit(&exports.left)?;
            walk_exports(exports.list.as_slice(), visitor)?;
            visit_maybe(&exports.last_comma, visitor)?;
            visitor.visit(&exports.right)
        }
        None => Ok(()),
    }
}

fn walk_exports<V: Visitor>(exports: &[Listed<Export>], visitor: &mut V) -> Result<(), V::Fault>
    ensures { OnOk result (visitor.new ≡ fold V.behind visitor.old (flat_map (listed_items export_items) exports.now)) }
{
    for export in exports {
        walk_export(&export.part, visitor)?;
        visit_maybe(&export.separator, visitor)?;
    }
    Ok(())
}

fn walk_export<V: Visitor>(export: &Export, visitor: &mut V) -> Result<(), V::Fault>
    ensures { OnOk result (visitor.new ≡ fold V.behind visitor.old (export_items export.now)) }
{
    match export {
        Export::Variable(variable) => walk_variable(variable, visitor),
        Export::Type(name, members) => {
            visitor.visit(name)?;
            walk_maybe_members(members, visitor)
        }
        Export::Module(word, name) => { visit_two(word, name, visitor) }
    }
}

fn walk_maybe_members<V: Visitor>(
    members: &Option<Members>,
    visitor: &mut V,
) -> Result<(), V::Fault>
    ensures { OnOk result (visitor.new ≡ fold V.behind visitor.old (maybe_members members.now)) }
{
    match members {
        Some(Members::All(left, dots, right)) => {
            visitor.visit(left)?;
            visitor.visit(dots)?;
            visitor.visit(right)
        }
        Some(Members::Named(left, list, right)) => {
            visitor.visit(left)?;
            walk_members(list.as_slice(), visitor)?;
            visitor.visit(right)
        }
        None => Ok(()),
    }
}

fn walk_members<V: Visitor>(members: &[Listed<Member>], visitor: &mut V) -> Result<(), V::Fault>
    ensures { OnOk result (visitor.new ≡ fold V.behind visitor.old (flat_map (listed_items member_items) members.now)) }
{
    for member in members {
        walk_member(&member.part, visitor)?;
        visit_maybe(&member.separator, visitor)?;
    }
    Ok(())
}

fn walk_member<V: Visitor>(member: &Member, visitor: &mut V) -> Result<(), V::Fault>
    ensures { OnOk result (visitor.new ≡ fold V.behind visitor.old (member_items member.now)) }
{
    match member {
        Member::Constructor(constructor) => walk_constructor(constructor, visitor),
        Member::Field(variable) => walk_variable(variable, visitor),
    }
}

pub fn walk_import<V: Visitor>(import: &Import, visitor: &mut V) -> Result<(), V::Fault>
    ensures { OnOk result (visitor.new ≡ fold V.behind visitor.old (import_items import.now)) }
{
    visitor.visit(&import.word)?;
    visit_maybe(&import.qualified, visitor)?;
    visitor.visit(&import.module)?;
    walk_maybe_alias(&import.alias, visitor)?;
    walk_maybe_names(&import.names, visitor)?;
    Ok(())
}

fn walk_maybe_alias<V: Visitor>(alias: &Option<Alias>, visitor: &mut V) -> Result<(), V::Fault>
    ensures { OnOk result (visitor.new ≡ fold V.behind visitor.old (maybe_alias alias.now)) }
{
    match alias {
        Some(alias) => { visit_two(&alias.word, &alias.name, visitor) }
        None => Ok(()),
    }
}

fn walk_maybe_names<V: Visitor>(
    names: &Option<ImportNames>,
    visitor: &mut V,
) -> Result<(), V::Fault>
    ensures { OnOk result (visitor.new ≡ fold V.behind visitor.old (maybe_import_names names.now)) }
{
    match names {
        Some(names) => {
            visit_maybe(&names.hiding, visitor)?;
            walk_name_list(&names.list, visitor)
        }
        None => Ok(()),
    }
}

fn walk_name_list<V: Visitor>(names: &NameList<Imported>, visitor: &mut V) -> Result<(), V::Fault>
    ensures { OnOk result (visitor.new ≡ fold V.behind visitor.old (name_list_items imported_items names.now)) }
{
    visitor.visit(&names.left)?;
    walk_imported(names.list.as_slice(), visitor)?;
    visit_maybe(&names.last_comma, visitor)?;
    visitor.visit(&names.right)?;
    Ok(())
}

fn walk_imported<V: Visitor>(list: &[Listed<Imported>], visitor: &mut V) -> Result<(), V::Fault>
    ensures { OnOk result (visitor.new ≡ fold V.behind visitor.old (flat_map (listed_items imported_items) list.now)) }
{
    for imported in list {
        walk_one_imported(&imported.part, visitor)?;
        visit_maybe(&imported.separator, visitor)?;
    }
    Ok(())
}

fn walk_one_imported<V: Visitor>(imported: &Imported, visitor: &mut V) -> Result<(), V::Fault>
    ensures { OnOk result (visitor.new ≡ fold V.behind visitor.old (imported_items imported.now)) }
{
    match imported {
        Imported::Variable(variable) => walk_variable(variable, visitor),
        Imported::Type(name, members) => {
            visitor.visit(name)?;
            walk_maybe_members(members, visitor)
        }
    }
}
