// Words in their bytes, the numbers that they make, and what tells of a stream that fails.
use crate::console::{self, Console};
use crate::words::{self, Word};
use std::test::Fail;

#[test]
fn words_make_numbers(rt: HostRuntime) -> Result<(), Fail> {
    let cases = [
        ("", 0, 0),
        ("-", 0, 0),
        ("30", 30, 30),
        ("-17", 17, -17),
        ("1-2", 12, -12),
        (":;", 111, 111),
        ("8a", 2145, 2145),
        ("page", 1885431653, 1885431653),
        ("18446744073709551615", u64::MAX, -1),
        ("99999999999999999999", u64::MAX, -1),
        ("-9223372036854775809", 9223372036854775809, i64::MAX),
    ];
    for (text, magnitude, number) in cases {
        let bytes = text.as_bytes().to_vec(rt.alloc())?;
        assert_eq!(rt; words::magnitude(&bytes), magnitude, "{text}");
        let word = Word { bytes, end: None };
        assert_eq!(rt; i64::from(word.number()), number, "{text}");
        assert_eq!(rt; u64::from(word.number()), number.cast_unsigned(), "{text}");
    }
    Ok(())
}

#[test]
fn words_are_read(rt: HostRuntime) -> Result<(), Fail> {
    let text = "# one 2\n  - 10- page#, 4\n,\n";
    let mut input = text.as_bytes();
    let mut printed = Vec::new(rt.alloc());
    for (bytes, end) in [
        ("-10-", Some(b' ')),
        ("page", Some(b',')),
        ("", Some(b'\n')),
        ("", None),
    ] {
        let word = console::word_from(&mut input, &mut printed, rt.alloc())?;
        assert_eq!(rt; word.bytes.as_slice(), bytes.as_bytes());
        assert_eq!(rt; word.end, end);
    }
    assert_eq!(rt; printed.as_slice(), text.as_bytes());
    Ok(())
}

#[test]
fn failed_output_is_told(rt: HostRuntime) {
    let mut input = "123 ".as_bytes();
    let mut room = [0; 3];
    let mut output = &mut room[..];
    assert!(rt; console::word_from(&mut input, &mut output, rt.alloc()).is_err());
}

// The input of a test is empty.
#[test]
fn streams_succeed(rt: HostRuntime) -> Result<(), Fail> {
    let mut console = Console::new(&rt);
    let word = console.word()?;
    assert_eq!(rt; word.bytes.len(), 0);
    assert_eq!(rt; word.end, None);
    console.values('é', &["a", "line"])?;
    console.values('w', &word.bytes)?;
    console.flush()?;
    Ok(())
}
