//! Texts that are kept in the value, and longer ones.

use std::alloc::Global;
use std::cmp::Ordering;
use std::process::Abort;
use values::Chars;

/// Texts in rising order: of no bytes, of 15, 16 and 17, and some whose letters have two bytes, of
/// 16 and of 18.
const TEXTS: &[&str] = &[
    "",
    "0123456789abcde",
    "0123456789abcdef",
    "0123456789abcdefg",
    "0123456789b",
    "éééééééé",
    "ééééééééé",
];

fn copy_of(rt: &impl Abort, alloc: Global, text: &str) -> Chars {
    Chars::copy_of(alloc, text).expect(rt, "there is memory")
}

/// Whether a text is the same where it is taken over, copied and cloned.
fn is_kept(rt: &impl Abort, alloc: Global, text: &str) -> bool {
    let taken = Chars::new(String::from_str(alloc, text).expect(rt, "there is memory"));
    let copy = copy_of(rt, alloc, text);
    let clone = copy.clone().expect(rt, "there is memory");
    taken.text() == text && copy.text() == text && clone.text() == text && taken == clone
}

#[test]
fn a_text_is_the_same_however_long_it_is(rt: HostRuntime) {
    for text in TEXTS {
        assert!(rt; is_kept(&rt, rt.alloc(), *text), "{text}");
    }
}

/// Whether two texts are in that order.
fn are_so(rt: &impl Abort, alloc: Global, first: &str, second: &str, order: Ordering) -> bool {
    copy_of(rt, alloc, first).cmp(&copy_of(rt, alloc, second)) == order
}

#[test]
fn texts_are_in_order_however_long_they_are(rt: HostRuntime) {
    for (place, first) in TEXTS.iter().enumerate() {
        for (other, second) in TEXTS.iter().enumerate() {
            let order = place.cmp(&other);
            assert!(rt;
                are_so(&rt, rt.alloc(), *first, *second, order),
                "at {place} and {other}"
            );
        }
    }
}
