//! Modules and imports.

use crate::declarations::block;
use crate::names::{constructor, variable};
use crate::shown::Shown;
use hr_tree::{Export, Header, Import, Imported, Member, Members, Module};
use std::alloc::AllocError;

pub fn module(out: &mut Shown, tree: &Module) -> Result<(), AllocError> {
    if let Some(header) = &tree.header {
        shown_header(out, header)?;
    }
    block(out, &tree.body)
}

fn shown_header(out: &mut Shown, header: &Header) -> Result<(), AllocError> {
    out.item(&header.word)?;
    out.item(&header.name)?;
    if let Some(names) = &header.exports {
        out.item(&names.left)?;
        for listed in names.list.as_slice() {
            export(out, &listed.part)?;
            out.maybe(&listed.separator)?;
        }
        out.maybe(&names.last_comma)?;
        out.item(&names.right)?;
    }
    out.item(&header.opening)
}

fn export(out: &mut Shown, part: &Export) -> Result<(), AllocError> {
    match part {
        Export::Variable(name) => variable(out, name),
        Export::Type(name, of) => {
            out.item(name)?;
            members(out, of)
        }
        Export::Module(word, name) => {
            out.item(word)?;
            out.item(name)
        }
    }
}

fn members(out: &mut Shown, of: &Option<Members>) -> Result<(), AllocError> {
    match of {
        None => Ok(()),
        Some(Members::All(left, dots, right)) => {
            out.item(left)?;
            out.item(dots)?;
            out.item(right)
        }
        Some(Members::Named(left, list, right)) => {
            out.item(left)?;
            for listed in list.as_slice() {
                member(out, &listed.part)?;
                out.maybe(&listed.separator)?;
            }
            out.item(right)
        }
    }
}

fn member(out: &mut Shown, of: &Member) -> Result<(), AllocError> {
    match of {
        Member::Constructor(name) => constructor(out, name),
        Member::Field(name) => variable(out, name),
    }
}

pub fn import(out: &mut Shown, of: &Import) -> Result<(), AllocError> {
    out.item(&of.word)?;
    out.maybe(&of.qualified)?;
    out.item(&of.module)?;
    if let Some(alias) = &of.alias {
        out.item(&alias.word)?;
        out.item(&alias.name)?;
    }
    let Some(names) = &of.names else {
        return Ok(());
    };
    out.maybe(&names.hiding)?;
    out.item(&names.list.left)?;
    for listed in names.list.list.as_slice() {
        match &listed.part {
            Imported::Variable(name) => variable(out, name)?,
            Imported::Type(name, of) => {
                out.item(name)?;
                members(out, of)?;
            }
        }
        out.maybe(&listed.separator)?;
    }
    out.maybe(&names.list.last_comma)?;
    out.item(&names.list.right)
}
