//! The words and the numbers of lines, and the name of the fault that never stops a run.
use std::test::Fail;
use values_lines::{
    RunFault, decimal_u8, decimal_u16, decimal_u32, decimal_u64, is_word, split_word,
};

/// Texts, with the first word of each and what stands behind the space after it.
const WORDS: &[(&[u8], &[u8], Option<&[u8]>)] = &[
    (b"", b"", None),
    (b"a", b"a", None),
    (b"a ", b"a", Some(b"")),
    (b" a", b"", Some(b"a")),
    (b"a  b c", b"a", Some(b" b c")),
];

fn is_split(text: &[u8], first: &[u8], rest: Option<&[u8]>) -> bool {
    let (word, others) = split_word(text);
    let is_one = rest.is_none() && !text.is_empty();
    word == first && others == rest && is_word(text) == is_one
}

/// Texts, with the number of 8, 16, 32 and 64 bits that each writes.
const NUMBERS: &[(&[u8], Option<u8>, Option<u16>, Option<u32>, Option<u64>)] = &[
    (b"0", Some(0), Some(0), Some(0), Some(0)),
    (b"7", Some(7), Some(7), Some(7), Some(7)),
    (b"255", Some(255), Some(255), Some(255), Some(255)),
    (b"256", None, Some(256), Some(256), Some(256)),
    (b"65535", None, Some(65_535), Some(65_535), Some(65_535)),
    (b"65536", None, None, Some(65_536), Some(65_536)),
    (
        b"4294967295",
        None,
        None,
        Some(4_294_967_295),
        Some(4_294_967_295),
    ),
    (b"4294967296", None, None, None, Some(4_294_967_296)),
    (
        b"18446744073709551615",
        None,
        None,
        None,
        Some(18_446_744_073_709_551_615),
    ),
    (b"18446744073709551616", None, None, None, None),
    (b"99999999999999999999", None, None, None, None),
    (b"100000000000000000000", None, None, None, None),
    (b"", None, None, None, None),
    (b"00", None, None, None, None),
    (b"01", None, None, None, None),
    (b"+1", None, None, None, None),
    (b"-1", None, None, None, None),
    (b"1 ", None, None, None, None),
    (b"1a", None, None, None, None),
];

#[test]
fn words_and_numbers(rt: HostRuntime) -> Result<(), Fail> {
    for (text, first, rest) in WORDS {
        assert!(rt; is_split(text, first, *rest), "{text:?}");
    }
    for (text, of_8, of_16, of_32, of_64) in NUMBERS {
        let is_read = decimal_u8(text) == *of_8
            && decimal_u16(text) == *of_16
            && decimal_u32(text) == *of_32
            && decimal_u64(text) == *of_64;
        assert!(rt; is_read, "{text:?}");
    }
    assert_eq!(rt; RunFault::NoFirstNode.name(), "NoFirstNode");
    Ok(())
}
