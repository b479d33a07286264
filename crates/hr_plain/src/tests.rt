use crate::{LoadError, Why, load, rename};
use hr_base::{Pos, Text};
use hr_lexer::LexError;
use std::alloc::Global;
use std::test::Fail;

fn renamed(alloc: Global, text: &str, line: u32, col: u32, new: &str) -> Result<String, Fail> {
    let tree = load(alloc, text.as_bytes())?;
    let main = Text::from_slice(alloc, b"Main")?;
    let new = Text::from_slice(alloc, new.as_bytes())?;
    match rename(alloc, &tree, &main, Pos { line, col }, &new) {
        Ok(text) => Ok(String::from_str(alloc, str::from_utf8(text.as_slice())?)?),
        Err(why) => Ok(format!(in alloc; "{:?}", why.number())?),
    }
}

#[test]
fn names_are_renamed_where_they_are_bound_and_used(rt: HostRuntime) -> Result<(), Fail> {
    let sums = "f x = g x 1   -- sums\ng a b = h (a) b\nh a b = f a\n";
    let rows = [
        (
            sums,
            1,
            1,
            "total",
            "total x = g x 1   -- sums\ng a b = h (a) b\nh a b = total a\n",
        ),
        (
            sums,
            1,
            3,
            "y",
            "f y = g y 1   -- sums\ng a b = h (a) b\nh a b = f a\n",
        ),
        (
            sums,
            2,
            12,
            "z",
            "f x = g x 1   -- sums\ng z b = h (z) b\nh a b = f a\n",
        ),
        (
            sums,
            3,
            11,
            "z",
            "f x = g x 1   -- sums\ng a b = h (a) b\nh z b = f z\n",
        ),
        (
            sums,
            2,
            9,
            "k",
            "f x = g x 1   -- sums\ng a b = k (a) b\nk a b = f a\n",
        ),
        (sums, 1, 1, "h", "Some(58)"),
        (sums, 1, 2, "k", "Some(31)"),
        (sums, 1, 11, "k", "Some(31)"),
        (sums, 2, 11, "k", "Some(31)"),
        (sums, 1, 18, "k", "Some(31)"),
        (sums, 9, 1, "k", "Some(31)"),
        (sums, 1, 1, "where", "Some(33)"),
        (sums, 1, 1, "K", "Some(33)"),
        (
            "y = 1\ng a b = a\nk = g 0y\n",
            1,
            1,
            "xF",
            "xF = 1\ng a b = a\nk = g 0 xF\n",
        ),
        (
            "y = 1\ng a b = a\nk = g 0y\n",
            3,
            8,
            "g1",
            "g1 = 1\ng a b = a\nk = g 0g1\n",
        ),
        ("f f = f\n", 1, 3, "x", "f x = x\n"),
        ("f f = f\n", 1, 1, "x", "x f = f\n"),
        (
            "f 0 = 1\nf x = f x\n",
            2,
            7,
            "go",
            "go 0 = 1\ngo x = go x\n",
        ),
    ];
    for (text, line, col, new, want) in rows {
        let answer = renamed(rt.alloc(), text, line, col, new)?;
        assert_eq!(rt; answer.as_str(), want, "{new} at {line}:{col}");
    }
    Ok(())
}

#[test]
fn texts_that_are_not_of_the_form(rt: HostRuntime) {
    let lexemes = [
        "f = [1]",
        "f = F",
        "f = A.f",
        "f = 1.5",
        "f = \"a\"",
        "f = 'a'",
        "f = 1 + 2",
        "f = 1 `f` 2",
        "f = f -| f",
        "f = 1;",
        "f _ = 1",
        "f = let",
        "f :: f",
        "module M where",
        "é = 1",
        "f é = 1",
        "é = 1\nf = é",
    ];
    let trivia = [
        "f =\t1",
        "f = 1\t",
        "\tf = 1",
        "f = 1\r\ng = 2",
        "f = 1 -- c\r\ng = 2",
        "-- c\rf = 1",
        "f = 1\u{C}",
        "f =\u{A0}1",
        "{- c -}\nf = 1",
        "f = {- c -} 1",
        "f = 1 {- c -}",
        "{- {- c -} -}",
        "\u{FEFF}f = 1",
        "f = 1 --| c",
    ];
    let equations = [
        "1 = 2",
        "f = ()",
        "f = (1",
        "f = ((1)",
        "f = 1)",
        "f = (1))",
        "f = )1(",
        "f = 1 = 2",
        "f (x) = 1",
        "f = (f = 1)",
        "(f) = 1",
        "f",
        "f x",
        "f =",
        "= 1",
    ];
    let places = [
        " f = 1",
        "-- c\n f = 1",
        "f = 1\n g = 2",
        "f = 1\ng\n",
        "f =\n1",
        "f\n= 1",
        "f = (\n1)",
        "f = (1\n)",
        "f = 1\n2",
        "f = 1 g = 2",
        "f = 1\n\n  g = 2",
    ];
    let names = [
        "f x x = 1",
        "f x 1 y x = 1",
        "f = x",
        "f x = x\ng = x",
        "f = f (1 x)",
        "f = 1\ng = 2\nf = 3",
        "f = 1\nf = 2\ng = 2\nh = 1\ng = 2",
    ];
    for text in lexemes {
        assert!(rt; is_not_plain(rt.alloc(), text), "{text:?}");
    }
    for text in trivia {
        assert!(rt; is_not_plain(rt.alloc(), text), "{text:?}");
    }
    for text in equations {
        assert!(rt; is_not_plain(rt.alloc(), text), "{text:?}");
    }
    for text in places {
        assert!(rt; is_not_plain(rt.alloc(), text), "{text:?}");
    }
    for text in names {
        assert!(rt; is_not_plain(rt.alloc(), text), "{text:?}");
    }
}

fn is_not_plain(alloc: Global, text: &str) -> bool {
    let answer = load(alloc, text.as_bytes());
    matches!(answer, Err(LoadError::OutsideForm { text: 0 }))
}

#[test]
fn texts_that_are_of_the_form(rt: HostRuntime) {
    for text in [
        "",
        "\n \n",
        "-- c",
        "-- é\t{- c",
        "f = 1",
        "f = 1 -- é\t{- c\n",
        "---- c\n\nf = 0x1F--\ng = 0o17",
        "f\n = 1",
        "f\n x\n =\n (\n  x)",
        "f x 1 y = x (y) (f 1)\nf 1 2 3 = 4 5",
        "f f = f",
        "f f' _a = f' _a",
        "f 1 1 = 1 f\nf 1 1 = g\n\n-- c\n\ng = ((f))",
        "f = 1\nf = 2\ng x = f\ng x = x",
    ] {
        assert!(rt; load(rt.alloc(), text.as_bytes()).is_ok(), "{text:?}");
    }
}

#[test]
fn texts_without_items(rt: HostRuntime) {
    let answer = load(rt.alloc(), "f = \"a".as_bytes());
    assert!(rt;
        matches!(
            answer,
            Err(LoadError::Lex {
                text: 0,
                error: LexError::BadLexeme { place: 4 }
            })
        )
    );
    let answer = load(rt.alloc(), "f = 1\n{- c".as_bytes());
    assert!(rt;
        matches!(
            answer,
            Err(LoadError::Lex {
                text: 0,
                error: LexError::OpenComment { place: 6 }
            })
        )
    );
}

/// `f =`, then 1 in so many parentheses, with this before each of them.
fn nested(alloc: Global, depth: usize, before: &str) -> Result<String, Fail> {
    let mut text = String::from_str(alloc, "f = ")?;
    for _ in 0..depth {
        text.push_str(before)?;
        text.push('(')?;
    }
    text.push('1')?;
    for _ in 0..depth {
        text.push(')')?;
    }
    Ok(text)
}

#[test]
fn nodes_nest_to_256(rt: HostRuntime) -> Result<(), Fail> {
    let rows = [
        (253, "", true),
        (254, "", false),
        (100_000, "", false),
        (126, "1 ", true),
        (127, "1 ", false),
        (100_000, "1 ", false),
    ];
    for (depth, before, is_read) in rows {
        let text = nested(rt.alloc(), depth, before)?;
        let answer = load(rt.alloc(), text.as_bytes());
        assert_eq!(rt; answer.is_ok(), is_read, "{depth}");
    }
    Ok(())
}
