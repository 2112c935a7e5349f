//! Steps in a list of their own, and one that no line asks for.
use crate::sample::{one_row, schema};
use interleaving::System;
use std::alloc::Global;
use std::process::Abort;
use steps::{Reply, Step};
use values::{Chars, ColumnType, Refusal, Rows};

/// A session adds a column of numbers.
fn addition(rt: &impl Abort, alloc: Global, session: u8) -> Step {
    let name = Chars::copy_of(alloc, "dept").expect(rt, "there is memory");
    Step::AddColumn(session, 1, name, ColumnType::Int)
}

/// The replies of an empty system to a row that is inserted while a column cannot be added, and to the
/// column that session 0 adds then.
fn replies(rt: &impl Abort, alloc: Global) -> Vec<Reply> {
    let row = Rows::new(one_row(rt, alloc, 1, "Ann"));
    let steps = vec![in alloc;
        Step::Begin(1),
        Step::Insert(1, 1, row),
        addition(rt, alloc, 2),
        Step::Commit(1, 100),
        addition(rt, alloc, 0),
        Step::Migrate,
    ];
    let steps = steps.expect(rt, "there is memory");
    System::run(alloc, schema(rt, alloc), steps).expect(rt, "there is memory")
}

#[test]
fn the_service_adds_a_column_while_no_transaction_is_open(rt: HostRuntime) {
    let are_as_due = matches!(
        replies(&rt, rt.alloc()).as_slice(),
        [
            Reply::Begun(0),
            Reply::Inserted(1),
            Reply::Refused(Refusal::TransactionsOpen),
            Reply::Committed(Some(100)),
            Reply::Altered,
            Reply::Done,
        ]
    );
    assert!(rt; are_as_due);
}
