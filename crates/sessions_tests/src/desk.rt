//! Employees, and what a session does and sees of them. The run ends where a call that must succeed does not.
use sessions::Session;
use std::alloc::Global;
use std::process::Abort;
use steps::Listing;
use values::{
    Chars, Comparison, Form, Key, Keys, Operator, Refusal, Row, Schema, Set, Value, Values, Write,
};

fn text(rt: &impl Abort, alloc: Global, name: &str) -> Value {
    Value::Text(Chars::copy_of(alloc, name).expect(rt, "the name is short"))
}

fn employee(rt: &impl Abort, alloc: Global, number: i64, name: &str) -> Row {
    let values = vec![in alloc; Value::Int(number), text(rt, alloc, name)];
    Row::new(values.expect(rt, "there is memory")).expect(rt, "two values are few")
}

pub(crate) fn key(rt: &impl Abort, alloc: Global, number: i64) -> Key {
    let parts = vec![in alloc; Value::Int(number)];
    Key {
        table: 1,
        parts: Values::new(parts.expect(rt, "there is memory")),
    }
}

/// A session of the sample tables.
pub(crate) fn session(rt: &impl Abort, alloc: Global, number: u8) -> Session {
    let schema = Schema::sample(alloc).expect(rt, "there is memory");
    Session::new(alloc, number, schema).expect(rt, "the number is upto 64")
}

/// The service's session and sessions 1 to 3, of the sample tables.
#[derive(Drop)]
pub(crate) struct Desk {
    pub(crate) service: Session,
    pub(crate) first: Session,
    pub(crate) second: Session,
    pub(crate) third: Session,
}

pub(crate) fn open_desk(rt: &impl Abort, alloc: Global) -> Desk {
    Desk {
        service: session(rt, alloc, 0),
        first: session(rt, alloc, 1),
        second: session(rt, alloc, 2),
        third: session(rt, alloc, 3),
    }
}

/// How many employees are inserted of one.
pub(crate) fn insert(
    rt: &impl Abort,
    alloc: Global,
    session: &mut Session,
    number: i64,
    name: &str,
) -> usize {
    let rows = vec![in alloc; employee(rt, alloc, number, name)];
    let rows = rows.expect(rt, "there is memory");
    session
        .write(Write::Insert(1, rows.as_slice()))
        .expect(rt, "it is inserted")
}

fn by(rt: &impl Abort, alloc: Global, number: i64) -> Keys {
    let comparison = Comparison {
        column: 1,
        operator: Operator::Equal,
        value: Value::Int(number),
    };
    Keys::of_comparison(alloc, 1, comparison).expect(rt, "there is memory")
}

/// How many employees of a number are given a name.
pub(crate) fn set_name(
    rt: &impl Abort,
    alloc: Global,
    session: &mut Session,
    number: i64,
    name: &str,
) -> usize {
    let keys = by(rt, alloc, number);
    let set = Set {
        column: 2,
        value: text(rt, alloc, name),
    };
    let sets = vec![in alloc; set].expect(rt, "there is memory");
    session
        .write(Write::Update(&keys, sets.as_slice()))
        .expect(rt, "the name is set")
}

/// How many employees of a number are deleted.
pub(crate) fn delete(rt: &impl Abort, alloc: Global, session: &mut Session, number: i64) -> usize {
    let keys = by(rt, alloc, number);
    session
        .write(Write::Delete(&keys))
        .expect(rt, "they are deleted")
}

/// Whether the session sees this name at a number.
pub(crate) fn sees(
    rt: &impl Abort,
    alloc: Global,
    session: &Session,
    number: i64,
    name: &str,
) -> bool {
    let found = session.get(&key(rt, alloc, number));
    match found.expect(rt, "the key is read") {
        Some(row) => row.values() == employee(rt, alloc, number, name).values(),
        None => false,
    }
}

/// How many employees there are in a listing.
pub(crate) fn count_in(listing: &Listing) -> usize {
    match listing {
        Listing::Rows(rows) => rows.items().len(),
        Listing::Periods(shown) => shown.items().len(),
    }
}

/// How many employees the session sees.
pub(crate) fn count(rt: &impl Abort, alloc: Global, session: &mut Session) -> usize {
    let listing = session.select(Form::Plain, &Keys::all(alloc, 1));
    count_in(&listing.expect(rt, "they are listed"))
}

/// Whether it is the refusal of a call with no transaction open.
pub(crate) fn is_no_transaction(refusal: Option<Refusal>) -> bool {
    matches!(refusal, Some(Refusal::NoTransaction))
}
