//! Scripts run over readers and writers that give and take few bytes, and that fail.
use crate::cut::Cut;
use crate::pipe::Pipe;
use scripts::{RunFault, run_script};
use statement::print_reply;
use std::alloc::Global;
use std::io::{Read, Write};
use std::process::Abort;
use steps::Step;
use values::Schema;

/// Lines at the edges of what a line may say, the last without its line feed.
const SCRIPT: &str = "64: BEGIN\n\
    clock: 0\n\
    \n\
    -- a comment\n\
    64: INSERT INTO emp VALUES (1, 'Ann')\n\
    64: COMMIT\n\
    64: COMMIT\n\
    65: BEGIN\n\
    64: SELECT * FROM emp";

const REPLIES: &str = "begun 0\n\
    ok\n\
    inserted 1\n\
    committed 1\n\
    E4 no transaction\n\
    E11 no session\n\
    rows 1\n\
    (1, 'Ann')\n";

/// Runs a script over the sample: the fault, where there is one.
fn fault_of<I: Read, W: Write>(
    rt: &impl Abort,
    alloc: Global,
    reader: &mut I,
    writer: &mut W,
) -> Option<RunFault> {
    let schema = Schema::sample(alloc).expect(rt, "there is memory");
    run_script(alloc, reader, writer, schema).err()
}

/// Whether a script of pieces of so many bytes runs to its end and has these replies.
fn has_replies(rt: &impl Abort, alloc: Global, script: &[u8], most: usize, replies: &[u8]) -> bool {
    let mut out = Vec::new(alloc);
    let mut reader = Cut {
        rest: script,
        most,
        calls: 1000,
    };
    let fault = fault_of(rt, alloc, &mut reader, &mut out);
    fault.is_none() && out.as_slice() == replies
}

#[test]
fn a_script_has_its_replies_however_it_is_read(rt: HostRuntime) {
    let replies = REPLIES.as_bytes();
    for most in &[1, 2, 7, 4096, 10_000] {
        assert!(rt;
            has_replies(&rt, rt.alloc(), SCRIPT.as_bytes(), *most, replies),
            "{most}"
        );
    }
}

/// The lines of a script before its last one, and their replies.
const BEFORE: (&str, &str) = (
    "clock: 100\n1: BEGIN\n1: INSERT INTO emp VALUES (1, 'Ann')\n",
    "ok\nbegun 0\ninserted 1\n",
);

/// Last lines without a line feed that say nothing, and their replies.
const BROKEN_OFF: &[(&[u8], &str)] = &[
    (b"1", "E1 syntax at 1\n"),
    (b"1: COMM", "E1 syntax at 3\n"),
    (b"\xff", "E1 syntax at 0\n"),
    (
        b"1: SELECT * FROM emp WHERE no = 99999999999999999999",
        "E1 syntax at 32\n",
    ),
];

fn joined(rt: &impl Abort, alloc: Global, first: &[u8], last: &[u8]) -> Vec<u8> {
    let mut text = Vec::new(alloc);
    text.extend_from_slice(first).expect(rt, "there is memory");
    text.extend_from_slice(last).expect(rt, "there is memory");
    text
}

#[test]
fn a_last_line_that_breaks_off_is_answered(rt: HostRuntime) {
    let alloc = rt.alloc();
    for (last, reply) in BROKEN_OFF {
        let script = joined(&rt, alloc, BEFORE.0.as_bytes(), last);
        let replies = joined(&rt, alloc, BEFORE.1.as_bytes(), reply.as_bytes());
        for most in &[1, 4096] {
            let script = script.as_slice();
            assert!(rt;
                has_replies(&rt, alloc, script, *most, replies.as_slice()),
                "{reply}"
            );
        }
    }
}

#[test]
fn a_reader_that_fails_is_a_read_fault(rt: HostRuntime) {
    for calls in 0..19usize {
        let mut out = Vec::new(rt.alloc());
        let mut reader = Cut {
            rest: SCRIPT.as_bytes(),
            most: 7,
            calls,
        };
        let fault = fault_of(&rt, rt.alloc(), &mut reader, &mut out);
        assert!(rt; matches!(fault, Some(RunFault::Read)), "{calls}");
        // Just the replies to the lines that ended are written.
        let are_whole = matches!(out.last(), None | Some(b'\n'));
        assert!(rt;
            are_whole && REPLIES.as_bytes().starts_with(out.as_slice()),
            "{calls}"
        );
    }
}

#[test]
fn a_writer_that_fails_is_a_write_fault(rt: HostRuntime) {
    for calls in 0..20usize {
        let mut out = Pipe::new(rt.alloc());
        out.most = 3;
        out.writes = calls;
        let fault = fault_of(&rt, rt.alloc(), &mut SCRIPT.as_bytes(), &mut out);
        assert!(rt; matches!(fault, Some(RunFault::Write)), "{calls}");
        assert!(rt;
            REPLIES.as_bytes().starts_with(out.taken.as_slice()),
            "{calls}"
        );
    }
}

/// Whether a writer that passes on so many times and then no more is a write fault after the first reply.
fn is_stuck<I: Read>(rt: &impl Abort, alloc: Global, reader: &mut I, flushes: usize) -> bool {
    let mut out = Pipe::new(alloc);
    out.flushes = flushes;
    let fault = fault_of(rt, alloc, reader, &mut out);
    matches!(fault, Some(RunFault::Write)) && out.taken.as_slice() == b"begun 0\n".as_slice()
}

#[test]
fn a_reply_is_flushed_before_the_next_read(rt: HostRuntime) {
    // The first read gives the first line, and a second one would be a read fault.
    let mut reader = Cut {
        rest: SCRIPT.as_bytes(),
        most: 10,
        calls: 1,
    };
    assert!(rt; is_stuck(&rt, rt.alloc(), &mut reader, 0));
}

#[test]
fn the_last_reply_is_flushed(rt: HostRuntime) {
    // The first flush comes before the read that gives the end.
    assert!(rt; is_stuck(&rt, rt.alloc(), &mut "1: BEGIN".as_bytes(), 1));
}

/// Comments of over 1,200,000 bytes, and a BEGIN after them.
fn long_script(rt: &impl Abort, alloc: Global) -> Vec<u8> {
    let mut text = Vec::new(alloc);
    for _ in 0..12_289u32 {
        let pushed = text.extend_from_slice(
            b"-- a line of one hundred bytes, so that a script of many lines is read in hundreds of pieces ......\n",
        );
        pushed.expect(rt, "there is memory");
    }
    let pushed = text.extend_from_slice(b"1: BEGIN");
    pushed.expect(rt, "there is memory");
    text
}

#[test]
fn a_script_of_300_pieces_is_read_to_its_end(rt: HostRuntime) {
    let text = long_script(&rt, rt.alloc());
    assert!(rt; text.len() > 300 * 4096);
    assert!(rt; has_replies(&rt, rt.alloc(), text.as_slice(), 4096, b"begun 0\n"));
}

/// A script whose last line has no line feed, at whose end a transaction is open.
const LEFT_OPEN: &str = "1: BEGIN\n\
    1: INSERT INTO emp VALUES (1, 'Ann')\n\
    clock: 100\n\
    1: COMMIT\n\
    1: BEGIN\n\
    1: INSERT INTO emp VALUES (2, 'Bea')";

#[test]
fn a_script_leaves_the_system_after_its_steps(rt: HostRuntime) {
    let schema = Schema::sample(rt.alloc()).expect(&rt, "there is memory");
    let mut replies = Vec::new(rt.alloc());
    let ran = run_script(rt.alloc(), &mut LEFT_OPEN.as_bytes(), &mut replies, schema);
    let mut system = ran.expect(&rt, "there is memory");
    let mut out = Vec::new(rt.alloc());
    for step in [Step::Begin(1), Step::Commit(1, 0), Step::Begin(2)] {
        let reply = system.step(step);
        print_reply(&mut out, &reply).expect(&rt, "there is memory");
    }
    let wanted = "E5 in transaction\ncommitted 101\nbegun 101\n";
    assert!(rt; out.as_slice() == wanted.as_bytes());
}
