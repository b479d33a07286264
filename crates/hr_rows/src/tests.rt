use crate::{escaped, fields_of};
use std::test::Fail;

#[test]
fn fields_are_decoded(rt: HostRuntime) -> Result<(), Fail> {
    let fields = fields_of(rt.alloc(), r"f x\n = \x41\\ ;; \3{a\t}b ;;")?;
    let want: [&[u8]; 3] = [b"f x\n = A\\", b"a\ta\ta\tb", b""];
    let Some(fields) = fields else {
        return Err(Fail::new("no fields"));
    };
    assert_eq!(rt; fields.len(), 3);
    for (field, wanted) in fields.iter().zip(want.iter()) {
        assert_eq!(rt; field.as_slice(), *wanted);
    }
    for line in [
        r"\q",
        r"\x4",
        r"\3",
        r"\3{a",
        r"\3x{a}",
        "a\\",
        r"\2{\2{a}}",
    ] {
        assert!(rt; fields_of(rt.alloc(), line)?.is_none(), "{line}");
    }
    Ok(())
}

#[test]
fn bytes_are_escaped(rt: HostRuntime) -> Result<(), Fail> {
    let text = escaped(rt.alloc(), b"a b\\~\n\r\t\x0B\x0C\x00\x7F\xC3")?;
    assert_eq!(rt; text.as_str(), r"a b\\~\n\r\t\v\f\x00\x7F\xC3");
    Ok(())
}
