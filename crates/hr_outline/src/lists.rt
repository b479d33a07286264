ghost use Rattle.std.specs.Prelude.{◌≡◌, OnOk, fold};
ghost use Rattle.std.specs.List.{flat_map};
ghost use Rattle.hr_tree.specs.Lists.{closing_items, opening_items};
ghost use Rattle.hr_tree.specs.Yields.{maybe_alias};
ghost use Rattle.hr_scope_rules.specs.Events.{after, plain_events};
ghost use Rattle.hr_scope_rules.specs.Phrases.{listed_events};
ghost use Rattle.hr_scope_rules.specs.Lists.{export_events, exports_events, header_events, hidden_events, import_events, import_names_events, imported_events, listing_events, member_events, members_events};
ghost use Rattle.hr_outline.specs.Seen.{seen};

use crate::Outline;
use crate::names::{read_constructor, read_maybe, read_two, read_variable};
use hr_base::{Item, Space};
use hr_scope_rules::Naming;
use hr_tree::{
    Alias, Export, Header, Import, ImportNames, Imported, Layout, Listed, Member, Members, NameList,
};
use std::alloc::AllocError;

pub(crate) fn read_opening<'a>(layout: &'a Layout, out: &mut Outline<'a>) -> Result<(), AllocError>
    ensures { OnOk result (seen out.new ≡ fold after (seen out.old) (plain_events (opening_items layout.now))) }
{
    match layout {
        Layout::Implicit { .. } => Ok(()),
        Layout::Explicit(left, _) => out.plain(left),
    }
}

pub(crate) fn read_closing<'a>(layout: &'a Layout, out: &mut Outline<'a>) -> Result<(), AllocError>
    ensures { OnOk result (seen out.new ≡ fold after (seen out.old) (plain_events (closing_items layout.now))) }
{
    match layout {
        Layout::Implicit { .. } => Ok(()),
        Layout::Explicit(_, right) => out.plain(right),
    }
}

pub(crate) fn read_header<'a>(
    header: &'a Option<Header>,
    out: &mut Outline<'a>,
) -> Result<(), AllocError>
    ensures { OnOk result (seen out.new ≡ fold after (seen out.old) (header_events header.now)) }
{
    match header {
        Some(header) => {
            read_two(&header.word, &header.name, out)?;
            read_exports(&header.exports, out)?;
            out.plain(&header.opening)
        }
        None => Ok(()),
    }
}

fn read_exports<'a>(
    exports: &'a Option<NameList<Export>>,
    out: &mut Outline<'a>,
) -> Result<(), AllocError>
    ensures { OnOk result (seen out.new ≡ fold after (seen out.old) (exports_events exports.now)) }
{
    match exports {
        Some(names) => {
            out.plain(&names.left)?;
            read_export_items(names.list.as_slice(), out)?;
            read_maybe(&names.last_comma, out)?;
            out.plain(&names.right)
        }
        None => Ok(()),
    }
}

fn read_export_items<'a>(
    list: &'a [Listed<Export>],
    out: &mut Outline<'a>,
) -> Result<(), AllocError>
    ensures { OnOk result (seen out.new ≡ fold after (seen out.old) (flat_map (listed_events export_events) list.now)) }
{
    for listed in list {
        read_export(&listed.part, out)?;
        read_maybe(&listed.separator, out)?;
    }
    Ok(())
}

fn read_export<'a>(export: &'a Export, out: &mut Outline<'a>) -> Result<(), AllocError>
    ensures { OnOk result (seen out.new ≡ fold after (seen out.old) (export_events export.now)) }
{
    match export {
        Export::Variable(variable) => {
            read_variable(variable, Naming::Exported(Space::Value), out)
        }
        Export::Type(name, members) => {
            out.begin()?;
            out.put(name, Naming::Exported(Space::TypeName))?;
            read_members(members, Naming::ExportedPart, out)?;
            out.end();
            Ok(())
        }
        Export::Module(word, name) => read_two(word, name, out),
    }
}

fn read_members<'a>(
    members: &'a Option<Members>,
    naming: Naming,
    out: &mut Outline<'a>,
) -> Result<(), AllocError>
    ensures { OnOk result (seen out.new ≡ fold after (seen out.old) (members_events naming members.now)) }
{
    match members {
        None => Ok(()),
        Some(Members::All(left, dots, right)) => {
            read_two(left, dots, out)?;
            out.plain(right)
        }
        Some(Members::Named(left, list, right)) => {
            out.plain(left)?;
            read_member_items(list.as_slice(), naming, out)?;
            out.plain(right)
        }
    }
}

fn read_member_items<'a>(
    list: &'a [Listed<Member>],
    naming: Naming,
    out: &mut Outline<'a>,
) -> Result<(), AllocError>
    ensures { OnOk result (seen out.new ≡ fold after (seen out.old) (flat_map (listed_events (member_events naming)) list.now)) }
{
    for listed in list {
        read_member(&listed.part, naming, out)?;
        read_maybe(&listed.separator, out)?;
    }
    Ok(())
}

/// A constructor or a field that is named with a type.
fn read_member<'a>(
    member: &'a Member,
    naming: Naming,
    out: &mut Outline<'a>,
) -> Result<(), AllocError>
    ensures { OnOk result (seen out.new ≡ fold after (seen out.old) (member_events naming member.now)) }
{
    match member {
        Member::Constructor(constructor) => read_constructor(constructor, naming, out),
        Member::Field(variable) => read_variable(variable, naming, out),
    }
}

pub(crate) fn read_import<'a>(import: &'a Import, out: &mut Outline<'a>) -> Result<(), AllocError>
    ensures { OnOk result (seen out.new ≡ fold after (seen out.old) (import_events import.now)) }
{
    out.plain(&import.word)?;
    read_maybe(&import.qualified, out)?;
    out.begin()?;
    out.plain(&import.module)?;
    read_alias(&import.alias, out)?;
    read_import_names(&import.names, out)?;
    out.end();
    Ok(())
}

fn read_alias<'a>(alias: &'a Option<Alias>, out: &mut Outline<'a>) -> Result<(), AllocError>
    ensures { OnOk result (seen out.new ≡ fold after (seen out.old) (plain_events (maybe_alias alias.now))) }
{
    match alias {
        Some(alias) => read_two(&alias.word, &alias.name, out),
        None => Ok(()),
    }
}

fn read_import_names<'a>(
    names: &'a Option<ImportNames>,
    out: &mut Outline<'a>,
) -> Result<(), AllocError>
    ensures { OnOk result (seen out.new ≡ fold after (seen out.old) (import_names_events names.now)) }
{
    match names {
        None => Ok(()),
        Some(names) => read_listing(&names.hiding, &names.list, out),
    }
}

fn read_listing<'a>(
    hiding: &'a Option<Item>,
    names: &'a NameList<Imported>,
    out: &mut Outline<'a>,
) -> Result<(), AllocError>
    ensures { OnOk result (seen out.new ≡ fold after (seen out.old) (listing_events hiding.now names.now)) }
{
    match hiding {
        None => {
            out.plain(&names.left)?;
            read_imported_items(names.list.as_slice(), out)?;
        }
        Some(word) => {
            read_two(word, &names.left, out)?;
            read_hidden_items(names.list.as_slice(), out)?;
        }
    }
    read_maybe(&names.last_comma, out)?;
    out.plain(&names.right)
}

fn read_imported_items<'a>(
    list: &'a [Listed<Imported>],
    out: &mut Outline<'a>,
) -> Result<(), AllocError>
    ensures { OnOk result (seen out.new ≡ fold after (seen out.old) (flat_map (listed_events imported_events) list.now)) }
{
    for listed in list {
        read_imported(&listed.part, out)?;
        read_maybe(&listed.separator, out)?;
    }
    Ok(())
}

fn read_hidden_items<'a>(
    list: &'a [Listed<Imported>],
    out: &mut Outline<'a>,
) -> Result<(), AllocError>
    ensures { OnOk result (seen out.new ≡ fold after (seen out.old) (flat_map (listed_events hidden_events) list.now)) }
{
    for listed in list {
        read_hidden(&listed.part, out)?;
        read_maybe(&listed.separator, out)?;
    }
    Ok(())
}

fn read_imported<'a>(imported: &'a Imported, out: &mut Outline<'a>) -> Result<(), AllocError>
    ensures { OnOk result (seen out.new ≡ fold after (seen out.old) (imported_events imported.now)) }
{
    match imported {
        Imported::Variable(variable) => read_variable(variable, Naming::Imported, out),
        Imported::Type(name, members) => {
            out.begin()?;
            out.put(name, Naming::ImportedType)?;
            read_members(members, Naming::ImportedPart, out)?;
            out.end();
            Ok(())
        }
    }
}

fn read_hidden<'a>(imported: &'a Imported, out: &mut Outline<'a>) -> Result<(), AllocError>
    ensures { OnOk result (seen out.new ≡ fold after (seen out.old) (hidden_events imported.now)) }
{
    match imported {
        Imported::Variable(variable) => read_variable(variable, Naming::Hidden, out),
        Imported::Type(name, members) => {
            out.put(name, Naming::Hidden)?;
            read_members(members, Naming::Hidden, out)
        }
    }
}
