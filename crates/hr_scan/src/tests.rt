use crate::{ByteClass, Character, character_at, columns, line_starts, run_of};
use std::test::Fail;

#[test]
fn characters_are_the_well_formed_sequences(rt: HostRuntime) -> Result<(), Fail> {
    let found = [
        (b"a".as_slice(), 0x61, 1),
        (b"\xC3\xA9", 0xE9, 2),
        (b"\xE2\x82\xAC!", 0x20AC, 3),
        (b"\xEF\xBB\xBF", 0xFEFF, 3),
        (b"\xF0\x9F\x98\x80", 0x1_F600, 4),
        (b"\xF4\x8F\xBF\xBF", 0x10_FFFF, 4),
    ];
    for (bytes, code, len) in found {
        assert_eq!(rt; character_at(bytes, 0), Some(Character { code, len }));
    }
    assert_eq!(rt;
        character_at(b"ab", 1),
        Some(Character { code: 0x62, len: 1 })
    );
    Ok(())
}

#[test]
fn no_character_begins_at_other_bytes(rt: HostRuntime) -> Result<(), Fail> {
    // A byte that never begins one, a later byte, overlong forms, a surrogate, a code beyond the
    // last one, and characters that are cut off.
    let none = [
        b"\xFF".as_slice(),
        b"\x80a",
        b"\xC0\x80",
        b"\xE0\x9F\xBF",
        b"\xF0\x8F\xBF\xBF",
        b"\xED\xA0\x80",
        b"\xF4\x90\x80\x80",
        b"\xE2\x82",
        b"\xF0\x9F\x98a",
        b"",
    ];
    for bytes in none {
        assert_eq!(rt; character_at(bytes, 0), None);
    }
    assert_eq!(rt; character_at(b"\xC3\xA9", 1), None);
    assert_eq!(rt; character_at(b"a", 7), None);
    Ok(())
}

#[test]
fn lines_start_behind_each_form_of_newline(rt: HostRuntime) -> Result<(), Fail> {
    let starts = line_starts(rt.alloc(), b"a\r\nb\n")?;
    assert_eq!(rt; starts.as_slice(), [0, 3, 5].as_slice());
    let starts = line_starts(rt.alloc(), b"\r\r\n\n\x0Cx")?;
    assert_eq!(rt; starts.as_slice(), [0, 1, 3, 4, 5].as_slice());
    let starts = line_starts(rt.alloc(), b"a\x0B\r")?;
    assert_eq!(rt; starts.as_slice(), [0, 3].as_slice());
    let starts = line_starts(rt.alloc(), b"")?;
    assert_eq!(rt; starts.as_slice(), [0].as_slice());
    Ok(())
}

#[test]
fn columns_count_characters_and_tab_stops(rt: HostRuntime) -> Result<(), Fail> {
    let shown = columns(rt.alloc(), b"\tx")?;
    assert_eq!(rt; shown.as_slice(), [1, 9].as_slice());
    let shown = columns(rt.alloc(), b"\xC3\xA9\tx")?;
    assert_eq!(rt; shown.as_slice(), [1, 1, 2, 9].as_slice());
    let shown = columns(rt.alloc(), b"\xEF\xBB\xBFx")?;
    assert_eq!(rt; shown.as_slice(), [1, 1, 1, 1].as_slice());
    let shown = columns(rt.alloc(), b"1234567\t9\t")?;
    assert_eq!(rt;
        shown.as_slice(),
        [1, 2, 3, 4, 5, 6, 7, 8, 9, 10].as_slice()
    );
    let shown = columns(rt.alloc(), b"12345678\tx")?;
    assert_eq!(rt;
        shown.as_slice(),
        [1, 2, 3, 4, 5, 6, 7, 8, 9, 17].as_slice()
    );
    Ok(())
}

#[test]
fn a_byte_that_begins_no_character_has_a_column(rt: HostRuntime) -> Result<(), Fail> {
    let shown = columns(rt.alloc(), b"\xFFx")?;
    assert_eq!(rt; shown.as_slice(), [1, 2].as_slice());
    let shown = columns(rt.alloc(), b"\xE2\x82x")?;
    assert_eq!(rt; shown.as_slice(), [1, 2, 3].as_slice());
    Ok(())
}

#[test]
fn runs_end_at_the_first_other_byte(rt: HostRuntime) -> Result<(), Fail> {
    assert_eq!(rt; run_of(ByteClass::Ident, b"ab1 c", 0), 3);
    assert_eq!(rt; run_of(ByteClass::Ident, b"-x'_9\xC3", 1), 4);
    assert_eq!(rt; run_of(ByteClass::Blank, b" \t \nx", 0), 3);
    assert_eq!(rt; run_of(ByteClass::LineBody, b"a\xC3\xA9-{\rb", 0), 5);
    assert_eq!(rt; run_of(ByteClass::LineBody, b"ab\x0C", 0), 2);
    assert_eq!(rt; run_of(ByteClass::NestBody, b"a\n-}", 0), 2);
    assert_eq!(rt; run_of(ByteClass::NestBody, b"a{", 2), 0);
    Ok(())
}
