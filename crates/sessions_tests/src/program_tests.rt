//! The program over readers and writers that give and take few bytes, and that fail, and words that no command line has.
use crate::cut::Cut;
use crate::pipe::Pipe;
use command_line::fault::{FAULT, WORDS};
use command_line::program::{DONE, program};

const NO_WORDS: [&str; 0] = [];

const SCRIPT: &str = "clock: 100\n\
    1: BEGIN\n\
    1: INSERT INTO emp VALUES (1, 'Ann')\n\
    1: COMMIT\n\
    1: SELECT * FROM emp FOR SYSTEM_TIME AS OF 99\n\
    1: SELECT * FROM emp FOR SYSTEM_TIME AS OF 100\n\
    clock: 200\n\
    1: BEGIN\n\
    1: UPDATE emp SET name = 'Bea' WHERE no = 1\n\
    1: COMMIT\n\
    1: SELECT * FROM emp FOR SYSTEM_TIME AS OF 199\n\
    1: SELECT * FROM emp FOR SYSTEM_TIME AS OF 200\n";

const REPLIES: &str = "ok\n\
    begun 0\n\
    inserted 1\n\
    committed 100\n\
    rows 0\n\
    rows 1\n\
    (1, 'Ann')\n\
    ok\n\
    begun 100\n\
    updated 1\n\
    committed 200\n\
    rows 1\n\
    (1, 'Ann')\n\
    rows 1\n\
    (1, 'Bea')\n";

#[test]
fn refused_words_read_and_write_nothing(rt: HostRuntime) {
    let mut reader = b"1: BEGIN\n".as_slice();
    let mut out = Vec::new(rt.alloc());
    let mut err = Vec::new(rt.alloc());
    let status = program(&rt, &["--nope"], &mut reader, &mut out, &mut err);
    assert!(rt; status == WORDS);
    assert!(rt; reader.len() == 9);
    assert!(rt; out.is_empty());
    assert!(rt; !err.is_empty());
}

#[test]
fn a_name_with_a_zero_byte_is_a_read_fault(rt: HostRuntime) {
    for option in &["--schema", "--script"] {
        let mut out = Vec::new(rt.alloc());
        let mut err = Vec::new(rt.alloc());
        let mut reader = b"1: BEGIN\n".as_slice();
        let status = program(&rt, &[*option, "a\0b"], &mut reader, &mut out, &mut err);
        assert!(rt; status == FAULT && out.is_empty(), "{option}");
        assert!(rt; err.as_slice() == b"read fault\n".as_slice(), "{option}");
    }
}

/// Whether a run was done, reported nothing and wrote all replies, or reported this fault after a
/// prefix of them.
fn fits(status: u8, told: &[u8], out: &[u8], fault: &str) -> bool {
    let is_done = status == DONE && told.is_empty() && out == REPLIES.as_bytes();
    let is_faulty = status == FAULT && told == fault.as_bytes();
    is_done || is_faulty && REPLIES.as_bytes().starts_with(out)
}

#[test]
fn a_reader_that_fails_is_reported_as_a_read_fault(rt: HostRuntime) {
    for calls in 0..100usize {
        let mut reader = Cut {
            rest: SCRIPT.as_bytes(),
            most: 7,
            calls,
        };
        let mut out = Vec::new(rt.alloc());
        let mut err = Vec::new(rt.alloc());
        let status = program(&rt, &NO_WORDS, &mut reader, &mut out, &mut err);
        let told = err.as_slice();
        assert!(rt;
            fits(status, told, out.as_slice(), "read fault\n"),
            "{calls}"
        );
    }
}

#[test]
fn a_writer_that_fails_is_reported_as_a_write_fault(rt: HostRuntime) {
    for calls in 0..200usize {
        let mut out = Pipe::new(rt.alloc());
        out.most = 3;
        out.writes = calls;
        let mut err = Vec::new(rt.alloc());
        let status = program(&rt, &NO_WORDS, &mut SCRIPT.as_bytes(), &mut out, &mut err);
        let taken = out.taken.as_slice();
        assert!(rt;
            fits(status, err.as_slice(), taken, "write fault\n"),
            "{calls}"
        );
        assert!(rt;
            (status == DONE) == (taken.len() == REPLIES.len()),
            "{calls}"
        );
    }
}
