//! Scripts that are replayed, over readers that give few bytes and that fail.
use crate::cut::Cut;
use interleaving::System;
use scripts::{ReplayFault, replay_script, run_script_in};
use std::alloc::Global;
use std::io::Read;
use std::process::Abort;
use values::{Refusal, Schema};

/// Lines at the edges of what a line may say, the last without its line feed.
const SCRIPT: &str = "64: BEGIN\n\
    clock: 7\n\
    \n\
    -- a comment\n\
    64: INSERT INTO emp VALUES (1, 'Ann')\n\
    64: COMMIT";

/// The replies to a line after a replay, or why the script was not replayed.
fn told_after<I: Read>(
    rt: &impl Abort,
    alloc: Global,
    reader: &mut I,
    line: &str,
) -> Result<Vec<u8>, ReplayFault> {
    let schema = Schema::sample(alloc).expect(rt, "there is memory");
    let empty = System::new(alloc, schema).expect(rt, "there is memory");
    match replay_script(alloc, empty, reader) {
        Ok(system) => {
            let mut out = Vec::new(alloc);
            let ran = run_script_in(alloc, system, &mut line.as_bytes(), &mut out);
            assert!(rt; ran.is_ok());
            Ok(out)
        }
        Err(fault) => Err(fault),
    }
}

#[test]
fn a_script_is_replayed_however_it_is_read(rt: HostRuntime) {
    for most in &[1, 2, 7, 4096] {
        let mut reader = Cut {
            rest: SCRIPT.as_bytes(),
            most: *most,
            calls: 1000,
        };
        let told = told_after(
            &rt,
            rt.alloc(),
            &mut reader,
            "1: BEGIN\n1: SELECT * FROM emp",
        );
        let out = told.expect(&rt, "it is replayed");
        let wanted = b"begun 7\nrows 1\n(1, 'Ann')\n".as_slice();
        assert!(rt; out.as_slice() == wanted, "{most}");
    }
}

/// Why a script in pieces of seven bytes is not replayed by a reader that fails at the call after so many.
fn fault_of(rt: &impl Abort, alloc: Global, script: &str, calls: usize) -> Option<ReplayFault> {
    let mut reader = Cut {
        rest: script.as_bytes(),
        most: 7,
        calls,
    };
    told_after(rt, alloc, &mut reader, "1: BEGIN").err()
}

#[test]
fn a_reader_that_fails_ends_a_replay(rt: HostRuntime) {
    for calls in 0..13usize {
        let fault = fault_of(&rt, rt.alloc(), SCRIPT, calls);
        assert!(rt; matches!(fault, Some(ReplayFault::Read)), "{calls}");
    }
}

#[test]
fn the_first_refused_line_ends_a_replay(rt: HostRuntime) {
    let third = "1: BEGIN\n\n1: BEGIN\n2: COMMIT\n";
    assert!(rt;
        matches!(
            fault_of(&rt, rt.alloc(), third, 1000),
            Some(ReplayFault::Refused(3, Refusal::InTransaction))
        )
    );
    assert!(rt;
        matches!(
            fault_of(&rt, rt.alloc(), "1: BEGIN\n2: COMMIT", 1000),
            Some(ReplayFault::Refused(2, Refusal::NoTransaction))
        )
    );
    let fault = fault_of(&rt, rt.alloc(), "1: BEGIN\n2: COMMIT\n", 2);
    assert!(rt; matches!(fault, Some(ReplayFault::Read)));
}

#[test]
fn an_open_transaction_ends_a_replay(rt: HostRuntime) {
    let fault = fault_of(&rt, rt.alloc(), "1: BEGIN\n1: ROLLBACK\n2: BEGIN", 1000);
    assert!(rt; matches!(fault, Some(ReplayFault::Open)));
}
