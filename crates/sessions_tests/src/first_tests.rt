//! Steps before a script.
use scripts::{RunFault, run_script_after};
use std::alloc::Global;
use std::process::Abort;
use steps::Step;
use values::{Refusal, Row, Rows, Schema, Value};

/// Steps of the service's session that insert one row.
fn one_row(rt: &impl Abort, alloc: Global) -> Vec<Step> {
    let values = vec![in alloc; Value::Int(1), Value::Null];
    let row = Row::new(values.expect(rt, "there is memory"));
    let rows = vec![in alloc; row.expect(rt, "two values can be stored")];
    let rows = Rows::new(rows.expect(rt, "there is memory"));
    let steps = vec![in alloc;
        Step::Begin(0),
        Step::Insert(0, 1, rows),
        Step::Commit(0, 0),
    ];
    steps.expect(rt, "there is memory")
}

#[test]
fn first_steps_are_seen_by_the_script_and_not_answered(rt: HostRuntime) {
    let alloc = rt.alloc();
    let steps = one_row(&rt, alloc);
    let mut script = b"1: SELECT * FROM emp\n1: BEGIN\n".as_slice();
    let mut out = Vec::new(alloc);
    let schema = Schema::sample(alloc).expect(&rt, "there is memory");
    let ran = run_script_after(alloc, steps, &mut script, &mut out, schema);
    assert!(rt; ran.is_ok());
    assert!(rt; out.as_slice() == b"rows 1\n(1, null)\nbegun 1\n".as_slice());
}

/// The fault of a run after these steps, where nothing was read or written.
fn fault_after(rt: &impl Abort, alloc: Global, first: [Step; 3]) -> Option<RunFault> {
    let first = Vec::from_array(alloc, first).expect(rt, "there is memory");
    let mut reader = b"1: BEGIN\n".as_slice();
    let mut out = Vec::new(alloc);
    let schema = Schema::sample(alloc).expect(rt, "there is memory");
    let fault = run_script_after(alloc, first, &mut reader, &mut out, schema).err();
    if reader.len() == 9 && out.is_empty() {
        fault
    } else {
        None
    }
}

#[test]
fn the_first_refusal_ends_the_run_before_the_script(rt: HostRuntime) {
    let steps = [Step::Begin(0), Step::Begin(65), Step::Commit(1, 0)];
    let fault = fault_after(&rt, rt.alloc(), steps);
    assert!(rt; matches!(fault, Some(RunFault::First(Refusal::NoSession))));
    let steps = [Step::Begin(0), Step::Commit(0, 7), Step::Commit(0, 7)];
    let fault = fault_after(&rt, rt.alloc(), steps);
    assert!(rt; matches!(fault, Some(RunFault::First(Refusal::NoTransaction))));
}
