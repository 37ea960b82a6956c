//! Texts and words that are read, and what is seen of an input.

use crate::{Collected, Item, Number, next_item, next_seen, parse_number, within};
use std::alloc::Global;
use std::test::Fail;

#[test]
fn number_words_are_read(rt: HostRuntime) -> Result<(), Fail> {
    let none: [&str; 13] = [
        "", "-", "+1", "-0", "-000", "--1", "1-", "1x", "x", " 1", "1.0", "/", ":",
    ];
    for word in none {
        assert!(rt; parse_number(word.as_bytes()).is_none(), "{word:?}");
    }
    let numbers = [
        ("0", true, Some(0)),
        ("007", true, Some(7)),
        ("-090", false, Some(90)),
        ("-2000001", false, Some(2_000_001)),
        ("18446744073709551615", true, Some(u64::MAX)),
        ("018446744073709551616", true, None),
        ("-20000000000000000000", false, None),
        ("99999999999999999999999999", true, None),
    ];
    for (word, positive, size) in numbers {
        let number = parse_number(word.as_bytes()).ok_or("no number")?;
        assert_eq!(rt; number, Number { positive, size }, "{word:?}");
    }
    Ok(())
}

// What an item is, where it is, and the bytes of a word.
fn parts_of<'a>(item: &Item<'a>) -> (char, u64, &'a [u8]) {
    match item {
        Item::Word { at, word, .. } => ('w', *at, *word),
        Item::LineEnd { at, .. } => ('l', *at, b"".as_slice()),
        Item::End { at } => ('e', *at, b"".as_slice()),
    }
}

#[test]
fn items_are_found(rt: HostRuntime) -> Result<(), Fail> {
    let rows = [
        ("", false, 'e', 7, ""),
        (" \t\r", false, 'e', 10, ""),
        ("\n1", false, 'l', 7, ""),
        (" \r\n1", false, 'l', 9, ""),
        ("1\n", false, 'w', 7, "1"),
        (" -1x\t2", false, 'w', 8, "-1x"),
        ("%", false, 'w', 7, "%"),
        ("%", true, 'e', 8, ""),
        (" ab", true, 'e', 10, ""),
        (" ab ", true, 'w', 8, "ab"),
        ("ab\n", true, 'w', 7, "ab"),
        ("\n", true, 'l', 7, ""),
    ];
    for (text, cut, kind, at, word) in rows {
        let seen = parts_of(&next_seen(text.as_bytes(), 7, cut));
        assert_eq!(rt; seen, (kind, at, word.as_bytes()), "{text:?}");
        if !cut {
            let next = parts_of(&next_item(text.as_bytes(), 7));
            assert_eq!(rt; next, (kind, at, word.as_bytes()), "{text:?}");
        }
    }
    Ok(())
}

#[test]
fn limits_are_kept(rt: HostRuntime) -> Result<(), Fail> {
    let rows = [
        ("1 23", 5, "1 23", false, false),
        ("1 23", 4, "1 23", false, false),
        ("1 23", 3, "1 2", true, true),
        ("1 23", 2, "1 ", true, true),
        ("1 23", 1, "1", false, true),
        ("1\n23", 1, "1", false, true),
        ("1 23", 0, "", true, true),
    ];
    for (input, limit, text, cut, past) in rows {
        let seen = within(input.as_bytes(), limit);
        assert_eq!(rt; seen.ahead.text, text.as_bytes(), "{input:?}");
        assert_eq!(rt; (seen.ahead.cut, seen.past), (cut, past), "{input:?}");
    }
    Ok(())
}

// The bytes that are kept of three pieces.
fn kept_of(alloc: Global, limit: u64) -> Result<Collected, Fail> {
    let mut kept = Collected::new(alloc, limit);
    kept.take(b"ab")?;
    kept.take(b"")?;
    kept.take(b"cdef")?;
    Ok(kept)
}

#[test]
fn one_byte_past_the_limit_is_kept(rt: HostRuntime) -> Result<(), Fail> {
    let rows = [
        (0, "a"),
        (1, "ab"),
        (2, "abc"),
        (5, "abcdef"),
        (9, "abcdef"),
    ];
    for (limit, wanted) in rows {
        let kept = kept_of(rt.alloc(), limit)?;
        assert_eq!(rt; kept.bytes(), wanted.as_bytes());
    }
    Ok(())
}
