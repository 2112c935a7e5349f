//! A table written as CSV to a writer that fails.
use crate::pipe::Pipe;
use interchange::{ExportFault, export, load_rows};
use std::alloc::Global;
use std::process::Abort;
use values::{Instant, Shown, ShownRow, Table};

/// The rows of a file, as versions that begin at 1, 2 and so on; those at even instants have ended.
fn versions(rt: &impl Abort, alloc: Global, table: &Table, bytes: &[u8]) -> Vec<Shown> {
    let rows = load_rows(alloc, bytes, table).expect(rt, "the file has rows");
    let mut shown = Vec::new(alloc);
    let mut from: Instant = 0;
    for row in rows {
        from = from.saturating_add(1);
        let to = if from % 2 == 0 { Some(1000) } else { None };
        let row = ShownRow::new(row);
        let pushed = shown.push(Shown { row, from, to });
        pushed.expect(rt, "there is memory");
    }
    shown
}

#[test]
fn a_writer_that_fails_has_taken_a_prefix(rt: HostRuntime) {
    let alloc = rt.alloc();
    let table = Table::sample(alloc).expect(&rt, "there is memory");
    let shown = versions(&rt, alloc, &table, b"no,name\n1,Ann\n2,Bea\n");
    let mut whole = Vec::new(alloc);
    assert!(rt; export(alloc, &mut whole, &table, shown.as_slice()).is_ok());
    for left in 0..whole.len() {
        let mut out = Pipe::new(alloc);
        out.room = left;
        let done = export(alloc, &mut out, &table, shown.as_slice());
        let is_prefix = out.taken.len() == left && whole.starts_with(out.taken.as_slice());
        assert!(rt; is_prefix && done == Err(ExportFault::Write), "{left}");
    }
}
