//! Lines, words and numbers.
use line_words::*;

#[test]
fn a_text_has_lines_and_a_line_words(rt: HostRuntime) {
    let mut lines = NumberedLines::new(b"# none\n\n on\t1000 \r\nstep\r");
    let line: &[u8] = b" on\t1000 ";
    let told: [(u64, &[u8]); 4] = [(1, b"# none"), (2, b""), (3, line), (4, b"step\r")];
    for numbered in told {
        assert_eq!(rt; lines.next(), Some(numbered));
    }
    assert_eq!(rt; lines.next(), None);
    let words: [(&[u8], Option<(&[u8], &[u8])>); 3] = [
        (line, Some((b"on", b"\t1000 "))),
        (b"\t1000 ", Some((b"1000", b" "))),
        (b" ", None),
    ];
    for (line, word) in words {
        assert_eq!(rt; next_word(line), word);
    }
}

#[test]
fn ids_and_context_fields_have_few_digits(rt: HostRuntime) {
    assert_eq!(rt; two_digits(b"6f"), Some(111));
    assert_eq!(rt; two_digits(b"06f"), None);
    assert_eq!(rt; short_number(b"ffffffff"), Some(u32::MAX));
    assert_eq!(rt; short_number(b"0ffffffff"), None);
}

#[test]
fn a_word_spells_its_number(rt: HostRuntime) {
    let words: [(&[u8], Option<u64>, Option<u64>); 7] = [
        (b"0", Some(0), Some(0)),
        (b"0000000012", Some(12), Some(0x12)),
        (b"00000000012", None, Some(0x12)),
        (b"9999999999", Some(9_999_999_999), Some(0x99_9999_9999)),
        (b"fF", None, Some(0xff)),
        (b"+1", None, None),
        (b"", None, None),
    ];
    for (word, by_ten, by_sixteen) in words {
        assert_eq!(rt; decimal(word), by_ten);
        assert_eq!(rt; number(word), by_sixteen);
    }
}
