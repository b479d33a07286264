//! The nodes of types, with their heights.
ghost use Rattle.std.specs.Prelude.{◌≡◌, ◌+◌, ◌≤◌, max, IfOk};
ghost use Rattle.hr_tree.specs.declared.types.Ty.{Ty};
ghost use Rattle.hr_parse_type.specs.Nodes.{applied_of, atom_of, closed_of};

use hr_base::Item;
use hr_parse_lexeme::{Held, Measured};
use hr_tree::{Constructor, Listed, Ty};
use sqlite_items::{Boxed, Items as Children};
use std::alloc::{AllocError, Global};

/// An atomic type, or a constructor that arguments may follow.
#[derive(Drop)]
pub(crate) enum Head {
    Named(Held<Constructor>),
    Atom(Measured<Ty>),
}

/// Parts with commas behind them, and the last one.
#[derive(Drop)]
pub(crate) struct Parts {
    pub(crate) others: Children<Listed<Ty>>,
    pub(crate) last: Held<Ty>,
    pub(crate) height: u32,
}

/// The head where no argument may follow.
pub(crate) fn atom(head: Head) -> Measured<Ty>
    ensures { result ≡ atom_of head }
{
    match head {
        Head::Atom(ty) => ty,
        Head::Named(named) => constructor(named),
    }
}

fn constructor(named: Held<Constructor>) -> Measured<Ty>
    ensures { result ≡ record { tree = Ty.Constructor named; height = 1 } }
{
    Measured {
        tree: Held::new(Ty::Constructor(named.take())),
        height: 1,
    }
}

/// The constructor with its arguments, if it has some.
pub fn applied(named: Held<Constructor>, arguments: Measured<Children<Ty>>) -> Measured<Ty>
    requires { arguments.height ≤ 256 }
    ensures { result ≡ applied_of named arguments.tree arguments.height }
{
    let Measured { tree, height } = arguments;
    if tree.get().len() == 0 {
        return constructor(named);
    }
    Measured {
        tree: Held::new(Ty::Apply(named.take(), tree.take())),
        height: height + 1,
    }
}

pub(crate) fn function(
    alloc: Global,
    from: Measured<Ty>,
    arrow: Item,
    to: Measured<Ty>,
) -> Result<Measured<Ty>, AllocError>
    requires from { from.height ≤ 256 }
    requires to { to.height ≤ 256 }
    ensures { IfOk result (λ ty. ty ≡ record { tree = Ty.Function from.tree arrow to.tree; height = max from.height to.height + 1 }) }
{
    let height = from.height.max(to.height) + 1;
    let Measured { tree: from, .. } = from;
    let Measured { tree: to, .. } = to;
    let from = Boxed::new(alloc, from.take())?;
    let to = Boxed::new(alloc, to.take())?;
    Ok(Measured {
        tree: Held::new(Ty::Function(from, arrow, to)),
        height,
    })
}

pub(crate) fn list(
    alloc: Global,
    left: Item,
    part: Measured<Ty>,
    right: Item,
) -> Result<Measured<Ty>, AllocError>
    requires { part.height ≤ 256 }
    ensures { IfOk result (λ ty. ty ≡ record { tree = Ty.List left part.tree right; height = part.height + 1 }) }
{
    let Measured { tree, height } = part;
    let part = Boxed::new(alloc, tree.take())?;
    Ok(Measured {
        tree: Held::new(Ty::List(left, part, right)),
        height: height + 1,
    })
}

/// A type in parentheses, or a tuple where there are several.
pub(crate) fn closed(
    alloc: Global,
    left: Item,
    parts: Parts,
    right: Item,
) -> Result<Measured<Ty>, AllocError>
    requires { parts.height ≤ 256 }
    ensures { IfOk result (λ ty. ty ≡ closed_of left parts right) }
{
    let Parts {
        mut others,
        last,
        height,
    } = parts;
    let height = height + 1;
    if others.len() == 0 {
        let part = Boxed::new(alloc, last.take())?;
        let tree = Held::new(Ty::Group(left, part, right));
        return Ok(Measured { tree, height });
    }
    others.push(Listed {
        part: last.take(),
        separator: None,
    })?;
    let tree = Held::new(Ty::Tuple(left, others, right));
    Ok(Measured { tree, height })
}
