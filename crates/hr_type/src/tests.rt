use crate::{
    Mono, Scheme, TypeScope, depth_of_type, has_arities, instance, print_in, size_of_type,
};
use hr_base::{Entity, Name, Seq, Space, Text};
use hr_items::{Boxed, Items};
use std::alloc::{AllocError, Global};
use std::process::Abort;
use std::test::Fail;

fn entity(alloc: Global, module: &[u8], text: &[u8]) -> Result<Entity, AllocError> {
    Ok(Entity {
        module: Text::from_slice(alloc, module)?,
        space: Space::TypeName,
        text: Text::from_slice(alloc, text)?,
    })
}

fn none(alloc: Global) -> Items<Mono> {
    Items::new(alloc)
}

fn one(alloc: Global, ty: Mono) -> Result<Items<Mono>, AllocError> {
    let mut types = Items::new(alloc);
    types.push(ty)?;
    Ok(types)
}

fn two(alloc: Global, first: Mono, second: Mono) -> Result<Items<Mono>, AllocError> {
    let mut types = one(alloc, first)?;
    types.push(second)?;
    Ok(types)
}

fn con(alloc: Global, text: &[u8], arguments: Items<Mono>) -> Result<Mono, AllocError> {
    Ok(Mono::Con(entity(alloc, b"M", text)?, arguments))
}

fn syntax(alloc: Global, text: &[u8], arguments: Items<Mono>) -> Result<Mono, AllocError> {
    Ok(Mono::Con(entity(alloc, b"Prelude", text)?, arguments))
}

fn int(alloc: Global) -> Result<Mono, AllocError> {
    con(alloc, b"Int", none(alloc))
}

fn maybe(alloc: Global, ty: Mono) -> Result<Mono, AllocError> {
    con(alloc, b"Maybe", one(alloc, ty)?)
}

fn list(alloc: Global, ty: Mono) -> Result<Mono, AllocError> {
    syntax(alloc, b"[]", one(alloc, ty)?)
}

fn fun(alloc: Global, from: Mono, to: Mono) -> Result<Mono, AllocError> {
    Ok(Mono::Fun(Boxed::new(alloc, from)?, Boxed::new(alloc, to)?))
}

fn name(
    alloc: Global,
    of: &[u8],
    qualifier: Option<Text>,
    text: &[u8],
) -> Result<(Entity, Name), AllocError> {
    let name = Name {
        qualifier,
        text: Text::from_slice(alloc, text)?,
    };
    Ok((entity(alloc, b"M", of)?, name))
}

/// Int, Maybe, and Tree as Q.Tree; the variables a, b and c.
fn scope(alloc: Global) -> Result<TypeScope, AllocError> {
    let qualifier = Text::from_slice(alloc, b"Q")?;
    let mut names = Vec::new(alloc);
    names.push(name(alloc, b"Int", None, b"Int")?)?;
    names.push(name(alloc, b"Maybe", None, b"Maybe")?)?;
    names.push(name(alloc, b"Tree", Some(qualifier), b"Tree")?)?;
    let mut variables = Vec::new(alloc);
    variables.push(Text::from_slice(alloc, b"a")?)?;
    variables.push(Text::from_slice(alloc, b"b")?)?;
    variables.push(Text::from_slice(alloc, b"c")?)?;
    Ok(TypeScope {
        names: Seq { list: names },
        variables: Seq { list: variables },
    })
}

#[test]
fn copies_are_the_same_type(rt: HostRuntime) -> Result<(), Fail> {
    let alloc = rt.alloc();
    let ty = fun(
        alloc,
        maybe(alloc, Mono::Var(0))?,
        list(alloc, int(alloc)?)?,
    )?;
    assert!(rt; ty.copied(alloc)?.is_same(alloc, &ty)?);
    assert!(rt; !int(alloc)?.is_same(alloc, &maybe(alloc, int(alloc)?)?)?);
    Ok(())
}

/// `a -> a -> v1`, with the first variable bound.
fn general(alloc: Global) -> Result<Scheme, AllocError> {
    let behind = fun(alloc, Mono::Var(0), Mono::Var(1))?;
    Ok(Scheme {
        bound: 1,
        body: fun(alloc, Mono::Var(0), behind)?,
    })
}

/// `[a] -> [a] -> v1`.
fn one_type(alloc: Global) -> Result<Mono, AllocError> {
    let list_of = list(alloc, Mono::Var(0))?;
    let same = list_of.copied(alloc)?;
    fun(alloc, list_of, fun(alloc, same, Mono::Var(1))?)
}

/// `Int -> a -> v1`.
fn two_types(alloc: Global) -> Result<Mono, AllocError> {
    let behind = fun(alloc, Mono::Var(0), Mono::Var(1))?;
    fun(alloc, int(alloc)?, behind)
}

/// `Int -> Int -> Int`.
fn another_free_type(alloc: Global) -> Result<Mono, AllocError> {
    let behind = fun(alloc, int(alloc)?, int(alloc)?)?;
    fun(alloc, int(alloc)?, behind)
}

#[test]
fn an_instance_gives_each_bound_variable_one_type(rt: HostRuntime) -> Result<(), Fail> {
    let alloc = rt.alloc();
    let general = general(alloc)?;
    assert!(rt; instance(alloc, &general, &one_type(alloc)?)?);
    assert!(rt; !instance(alloc, &general, &two_types(alloc)?)?);
    assert!(rt; !instance(alloc, &general, &another_free_type(alloc)?)?);
    Ok(())
}

/// Whether a type is written so, with the scope above; None for no text.
fn is_written(
    rt: &impl Abort,
    alloc: Global,
    ty: &Mono,
    expected: Option<&[u8]>,
) -> Result<bool, AllocError> {
    if !has_arities(alloc, ty)? {
        return Ok(false);
    }
    let scope = scope(alloc)?;
    let Some(text) = print_in(alloc, ty, &scope)? else {
        return Ok(expected.is_none());
    };
    let Some(expected) = expected else {
        return Ok(false);
    };
    Ok(text.as_slice() == expected)
}

#[test]
fn arguments_stand_in_parentheses_where_they_need_them(rt: HostRuntime) -> Result<(), Fail> {
    let alloc = rt.alloc();
    let nested = maybe(alloc, maybe(alloc, int(alloc)?)?)?;
    assert!(rt; is_written(&rt, alloc, &nested, Some(b"Maybe (Maybe Int)"))?);
    let step = fun(alloc, int(alloc)?, Mono::Var(0))?;
    let tree = con(alloc, b"Tree", two(alloc, step, list(alloc, int(alloc)?)?)?)?;
    assert!(rt; is_written(&rt, alloc, &tree, Some(b"Q.Tree (Int -> a) [Int]"))?);
    Ok(())
}

#[test]
fn what_has_no_name_has_no_text(rt: HostRuntime) -> Result<(), Fail> {
    let alloc = rt.alloc();
    assert!(rt; is_written(&rt, alloc, &maybe(alloc, Mono::Var(3))?, None)?);
    let strange = con(alloc, b"Strange", none(alloc))?;
    assert!(rt; is_written(&rt, alloc, &list(alloc, strange)?, None)?);
    Ok(())
}

#[test]
fn sizes_and_depths_are_counted(rt: HostRuntime) -> Result<(), Fail> {
    let alloc = rt.alloc();
    let ty = fun(
        alloc,
        maybe(alloc, Mono::Var(0))?,
        list(alloc, list(alloc, int(alloc)?)?)?,
    )?;
    assert_eq!(rt; size_of_type(alloc, &ty)?, 6);
    assert_eq!(rt; depth_of_type(alloc, &ty)?, 4);
    Ok(())
}
