use crate::ty;
use hr_base::{Class, Item, Lexeme, Seq, Text};
use hr_layout::Cursor;
use std::alloc::{AllocError, Global};
use std::test::Fail;

fn item(alloc: Global, class: Class, text: &[u8]) -> Result<Item, AllocError> {
    Ok(Item {
        trivia: Text::from_slice(alloc, b" ")?,
        lexeme: Lexeme {
            class,
            text: Text::from_slice(alloc, text)?,
        },
    })
}

// `T a -> [U] )`
#[test]
fn a_type_is_read(rt: HostRuntime) -> Result<(), Fail> {
    let alloc = rt.alloc();
    let mut list = Vec::new(alloc);
    list.push(item(alloc, Class::ConId, b"T")?)?;
    list.push(item(alloc, Class::VarId, b"a")?)?;
    list.push(item(alloc, Class::ReservedOp, b"->")?)?;
    list.push(item(alloc, Class::Special, b"[")?)?;
    list.push(item(alloc, Class::ConId, b"U")?)?;
    list.push(item(alloc, Class::Special, b"]")?)?;
    list.push(item(alloc, Class::Special, b")")?)?;
    let mut cursor = Cursor::new(alloc, Seq { list })?;
    let read = ty(alloc, &mut cursor, 1);
    assert!(rt; read.is_ok());
    assert_eq!(rt; cursor.pos().col, 15);
    Ok(())
}
