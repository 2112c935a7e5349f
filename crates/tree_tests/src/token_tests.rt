//! Tokens of texts, each read at its place or refused there.

use tokens::{
    Separators, after_word, is_reserved, is_word_at, name_at, split_digits, symbol_at, word_at,
    word_here,
};

/// A grammar whose tokens have nothing between them.
struct Nothing;

impl Separators for Nothing {
    ghost next = { λ bytes. bytes };

    fn next(bytes: &[u8]) -> &[u8] {
        bytes
    }
}

/// Whether a semicolon is read where these bytes begin and leaves the rest, or is refused and
/// leaves them all.
fn is_semicolon(bytes: &[u8], is_read: bool, rest: &[u8]) -> bool {
    match symbol_at::<Nothing>(b';', bytes) {
        Ok(after) => is_read && after == rest,
        Err(at) => !is_read && at == rest,
    }
}

#[test]
fn a_symbol_is_read_or_refused_at_its_place(rt: HostRuntime) {
    assert!(rt; is_semicolon(b";;", true, b";"));
    assert!(rt; is_semicolon(b"a;", false, b"a;"));
    assert!(rt; is_semicolon(b"", false, b""));
}

/// Whether a text begins with a word, by both calls.
fn is_set(text: &str) -> (bool, bool) {
    let bytes = text.as_bytes();
    (
        is_word_at::<Nothing>(b"SET", bytes),
        word_at::<Nothing>(b"SET", bytes).is_ok(),
    )
}

const WORDS: &[(&str, bool)] = &[
    ("SeT.a", true),
    ("set(", true),
    ("sets", false),
    ("se", false),
    ("", false),
];

#[test]
fn a_word_is_read_in_any_case_and_whole(rt: HostRuntime) {
    for (text, is_word) in WORDS {
        assert!(rt; is_set(text) == (*is_word, *is_word), "{text}");
    }
    assert!(rt; after_word::<Nothing>(b"sets(a") == "(a".as_bytes());
}

fn is_name(bytes: &[u8]) -> bool {
    name_at::<Nothing>(bytes).is_ok()
}

const NAMES: &[(&str, bool)] = &[
    ("emp", true),
    ("_1", true),
    ("1a", false),
    ("", false),
    ("Portion", false),
    ("-a", false),
];

#[test]
fn a_name_has_1_to_64_bytes_and_is_no_reserved_word(rt: HostRuntime) {
    for (text, is_one) in NAMES {
        assert!(rt; is_name(text.as_bytes()) == *is_one, "{text}");
    }
    let letters = [b'a'; 65];
    assert!(rt; is_name(letters.split_at(64).0) && !is_name(&letters));
    assert!(rt; is_reserved(b"overLaps") && !is_reserved(b"overlap"));
    assert!(rt; is_reserved(b"add") && is_reserved(b"Key") && is_reserved(b"WORK"));
    assert!(rt; !is_reserved(b"") && !is_reserved(b"_key") && !is_reserved(b"zone"));
}

#[test]
fn digits_are_split_from_what_follows(rt: HostRuntime) {
    let (digits, rest) = split_digits(b"0190a1");
    assert!(rt; digits == "0190".as_bytes() && rest == "a1".as_bytes());
}

/// Texts, and how many bytes are left behind SYSTEM_TIME at the very start, where it is read.
const SYSTEM_TIMES: &[(&str, Option<usize>)] = &[
    ("SYSTEM_TIME", Some(0)),
    ("system_Time{", Some(1)),
    ("system_time@x", Some(2)),
    ("system_time\u{e9}", Some(2)),
    ("system_time_", None),
    ("system_time0", None),
    ("system_timeZ", None),
    ("system_tim", None),
    ("system\u{7f}time", None),
    ("3ystem_time", None),
    (" system_time", None),
    ("", None),
];

#[test]
fn a_word_is_read_at_the_very_start_up_to_its_last_letter(rt: HostRuntime) {
    for (text, left) in SYSTEM_TIMES {
        match word_here(b"SYSTEM_TIME", text.as_bytes()) {
            Ok(rest) => assert!(rt; *left == Some(rest.len()), "{text}"),
            Err(at) => assert!(rt; left.is_none() && at == text.as_bytes(), "{text}"),
        }
    }
    assert!(rt; word_here(b"a b", b"a b").is_err());
    assert!(rt; word_here(b"", b"(").is_ok() && word_here(b"", b"a").is_err());
}
