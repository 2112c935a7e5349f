//! A transaction that reads what it wrote.

use crate::sample::{ask, begin, count, empty_engine, one_row, schema, sets};
use std::alloc::Global;
use std::process::Abort;
use steps::{fit_keys, fit_write};
use systime_query::BlockCache;
use transaction::OpenTransaction;
use tsbtree::View;
use values::{Form, Keys, Write};

/// What a transaction sees where nothing is committed.
fn nothing(rt: &impl Abort, alloc: Global) -> View {
    begin(rt, &empty_engine(rt, alloc))
}

/// How many rows a write changes that fits the table of employees.
fn change(
    rt: &impl Abort,
    alloc: Global,
    transaction: &mut OpenTransaction,
    write: Write<'_>,
) -> usize {
    let schema = schema(rt, alloc);
    let write = fit_write(&schema, 1, write).expect(rt, "it fits");
    transaction.write(write).expect(rt, "it is written")
}

/// A transaction that has inserted an employee.
fn with_ann(rt: &impl Abort, alloc: Global) -> OpenTransaction {
    let rows = one_row(rt, alloc, 1, "Ann");
    let begun = OpenTransaction::begin(alloc, nothing(rt, alloc));
    let mut transaction = begun.expect(rt, "there is memory");
    assert!(rt; change(rt, alloc, &mut transaction, Write::Insert(1, &rows)) == 1);
    transaction
}

/// How many rows a query of a transaction shows that has inserted an employee.
fn count_shown(rt: &impl Abort, alloc: Global, form: Form) -> usize {
    let schema = schema(rt, alloc);
    let keys = Keys::all(alloc, 1);
    let keys = fit_keys(&schema, 1, &keys).expect(rt, "they fit");
    let listing = with_ann(rt, alloc).select(alloc, &mut BlockCache::new(alloc), form, keys);
    count(rt, listing)
}

/// Forms of a query, and how many rows each shows of the one that was inserted.
const FORMS: &[(Form, usize)] = &[
    (Form::Plain, 1),
    (Form::AsOf(1), 0),
    (Form::Between(0, 9), 0),
];

#[test]
fn a_transaction_reads_its_own_writes_in_a_plain_query_alone(rt: HostRuntime) {
    let alloc = rt.alloc();
    for (form, shown) in FORMS {
        assert!(rt; count_shown(&rt, alloc, *form) == *shown, "{form:?}");
    }
    let outside = nothing(&rt, alloc);
    assert!(rt; ask(&rt, alloc, &outside, Form::Plain, &Keys::all(alloc, 1)) == (0, 0));
}

/// How many changes a transaction has, and as many in a copy. The bytes of a key begin with its
/// table's number.
fn count_changes(rt: &impl Abort, alloc: Global, transaction: &OpenTransaction) -> usize {
    let net = transaction.net().expect(rt, "there is memory");
    for change in net.changes() {
        assert!(rt; change.bytes().bytes().first() == Some(&change.key().table));
    }
    let copy = net.net(alloc).expect(rt, "there is memory");
    assert!(rt; copy.changes().len() == net.changes().len());
    net.changes().len()
}

/// How many rows an update or a deletion of all rows meets, and how many changes it leaves.
fn change_all(rt: &impl Abort, alloc: Global, is_deletion: bool) -> (usize, usize) {
    let mut transaction = with_ann(rt, alloc);
    assert!(rt; transaction.start() == 0);
    let all = Keys::all(alloc, 1);
    let sets = sets(rt, alloc, "Bea");
    let write = if is_deletion {
        Write::Delete(&all)
    } else {
        Write::Update(&all, &sets)
    };
    let met = change(rt, alloc, &mut transaction, write);
    (met, count_changes(rt, alloc, &transaction))
}

#[test]
fn a_transaction_changes_what_it_wrote(rt: HostRuntime) {
    assert!(rt; change_all(&rt, rt.alloc(), false) == (1, 1));
    assert!(rt; change_all(&rt, rt.alloc(), true) == (1, 0));
}
