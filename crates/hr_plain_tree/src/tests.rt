use crate::{Equation, Exp, Module, at, items};
use hr_base::{Class, Item, Lexeme, Pos, Seq, Text};
use hr_rules::join;
use sqlite_items::{Boxed, Items as Children};
use std::alloc::{AllocError, Global};
use std::test::Fail;

const SOURCE: &[u8] = b"\xEF\xBB\xBF{-\xC3\xA9-}f x\t= g (h 2) -- c\r\nk = 1\n";

fn item(alloc: Global, class: Class, trivia: &[u8], text: &[u8]) -> Result<Item, AllocError> {
    let trivia = Text::from_slice(alloc, trivia)?;
    let text = Text::from_slice(alloc, text)?;
    Ok(Item {
        trivia,
        lexeme: Lexeme { class, text },
    })
}

fn variable(alloc: Global, trivia: &[u8], text: &[u8]) -> Result<Exp, AllocError> {
    Ok(Exp::Variable(item(alloc, Class::VarId, trivia, text)?))
}

fn integer(alloc: Global, text: &[u8]) -> Result<Exp, AllocError> {
    Ok(Exp::Integer(item(alloc, Class::Integer, b" ", text)?))
}

fn apply(alloc: Global, function: Exp, argument: Exp) -> Result<Exp, AllocError> {
    let mut atoms = Children::new(alloc);
    atoms.push(function)?;
    atoms.push(argument)?;
    Ok(Exp::Apply(atoms))
}

fn group(alloc: Global, inner: Exp) -> Result<Exp, AllocError> {
    let left = item(alloc, Class::Special, b" ", b"(")?;
    let right = item(alloc, Class::Special, b"", b")")?;
    Ok(Exp::Group(left, Boxed::new(alloc, inner)?, right))
}

// `g (h 2)`
fn body(alloc: Global) -> Result<Exp, AllocError> {
    let argument = apply(alloc, variable(alloc, b"", b"h")?, integer(alloc, b"2")?)?;
    apply(alloc, variable(alloc, b" ", b"g")?, group(alloc, argument)?)
}

// `f x = g (h 2)`
fn first(alloc: Global) -> Result<Equation, AllocError> {
    let mut list = Vec::new(alloc);
    list.push(item(alloc, Class::VarId, b" ", b"x")?)?;
    Ok(Equation {
        name: item(alloc, Class::VarId, b"\xEF\xBB\xBF{-\xC3\xA9-}", b"f")?,
        patterns: Seq { list },
        equals: item(alloc, Class::ReservedOp, b"\t", b"=")?,
        body: body(alloc)?,
    })
}

// `k = 1`
fn second(alloc: Global) -> Result<Equation, AllocError> {
    Ok(Equation {
        name: item(alloc, Class::VarId, b" -- c\r\n", b"k")?,
        patterns: Seq {
            list: Vec::new(alloc),
        },
        equals: item(alloc, Class::ReservedOp, b" ", b"=")?,
        body: integer(alloc, b"1")?,
    })
}

// The tree of the source.
fn tree(alloc: Global) -> Result<Module, AllocError> {
    let mut list = Vec::new(alloc);
    list.push(first(alloc)?)?;
    list.push(second(alloc)?)?;
    Ok(Module {
        equations: Seq { list },
        tail: Text::from_slice(alloc, b"\n")?,
    })
}

#[test]
fn a_tree_yields_its_items_in_order(rt: HostRuntime) -> Result<(), Fail> {
    let tree = tree(rt.alloc())?;
    let items = items(rt.alloc(), &tree)?;
    assert_eq!(rt; items.list.len(), 11);
    assert!(rt; items.tail.is(b"\n"));
    let text = join(rt.alloc(), &items)?;
    assert_eq!(rt; text.as_slice(), SOURCE);
    Ok(())
}

#[test]
fn a_lexeme_is_found_where_it_begins(rt: HostRuntime) -> Result<(), Fail> {
    let tree = tree(rt.alloc())?;
    // The byte order mark takes no column, the letter of two bytes takes one, and the tab behind
    // column 8 leads to column 17.
    let begins = [
        (1, 6),
        (1, 8),
        (1, 17),
        (1, 19),
        (1, 21),
        (1, 22),
        (1, 24),
        (1, 25),
        (2, 1),
        (2, 3),
        (2, 5),
    ];
    for (number, (line, col)) in begins.iter().enumerate() {
        let pos = Pos {
            line: *line,
            col: *col,
        };
        assert_eq!(rt; at(&tree, pos), Some(number));
    }
    Ok(())
}

#[test]
fn no_lexeme_is_found_elsewhere(rt: HostRuntime) -> Result<(), Fail> {
    let tree = tree(rt.alloc())?;
    let others = [
        (0, 0),
        (1, 0),
        (1, 1),
        (1, 5),
        (1, 7),
        (1, 9),
        (1, 10),
        (1, 18),
        (1, 20),
        (1, 23),
        (1, 26),
        (2, 2),
        (2, 6),
        (3, 1),
        (3, 5),
        (u32::MAX, u32::MAX),
    ];
    for (line, col) in others {
        assert_eq!(rt; at(&tree, Pos { line, col }), None);
    }
    Ok(())
}
