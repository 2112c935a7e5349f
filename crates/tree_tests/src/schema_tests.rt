//! What a schema says of its tables that no reply shows.

use crate::key_sample::schema;
use std::alloc::Global;
use std::process::Abort;
use values::{Column, ColumnType, Table};

const SHIFTS: &str = "CREATE TABLE shift (day INT NOT NULL, name VARCHAR(7), \
    s TIMESTAMP GENERATED ALWAYS AS ROW START, e TIMESTAMP GENERATED ALWAYS AS ROW END, \
    PERIOD FOR SYSTEM_TIME (s, e), PRIMARY KEY (name, day)) WITH SYSTEM VERSIONING";

fn are_columns_of_shifts(columns: &[Column]) -> bool {
    match columns {
        [day, name] => {
            day.name.text() == "day"
                && day.not_null
                && name.of == ColumnType::Varchar(7)
                && !name.not_null
        }
        _ => false,
    }
}

fn is_table_of_shifts(table: &Table) -> bool {
    table.number == 1
        && table.name.text() == "shift"
        && table.row_start.text() == "s"
        && table.row_end.text() == "e"
        && table.key.items() == [2, 1].as_slice()
        && are_columns_of_shifts(table.columns.items())
}

/// Whether the copy of the schema of shifts has their table alone.
fn is_copied(rt: &impl Abort, alloc: Global) -> bool {
    let copy = schema(rt, alloc, SHIFTS).copy(alloc);
    let copy = copy.expect(rt, "there is memory");
    let table = copy.table_at(1).expect(rt, "the copy has the table");
    copy.tables().len() == 1 && is_table_of_shifts(table)
}

#[test]
fn a_copy_of_a_schema_has_its_tables(rt: HostRuntime) {
    assert!(rt; is_copied(&rt, rt.alloc()));
}

const POLICIES: &str = "CREATE TABLE pol (id INT, a INT, b INT, rate INT, \
    s TIMESTAMP(12) GENERATED ALWAYS AS ROW START, e TIMESTAMP(12) GENERATED ALWAYS AS ROW END, \
    PERIOD FOR SYSTEM_TIME (s, e), PERIOD FOR valid (a, b), \
    PRIMARY KEY (id, valid WITHOUT OVERLAPS)) WITH SYSTEM VERSIONING";

/// Whether the columns are whole numbers, and those alone whose names are `a` and `b` take no NULL.
fn are_columns_of_policies(columns: &[Column]) -> bool {
    match columns {
        [id, a, b, rate] => {
            !id.not_null
                && a.not_null
                && b.not_null
                && !rate.not_null
                && a.name.text() == "a"
                && b.of == ColumnType::Int
        }
        _ => false,
    }
}

fn has_period_of_policies(table: &Table) -> bool {
    match &table.period {
        Some(period) => period.name.text() == "valid" && period.from == 2 && period.to == 3,
        None => false,
    }
}

/// Whether the table of policies has the entity's column and the period's start for its key.
fn is_policies_read(rt: &impl Abort, alloc: Global) -> bool {
    let read = schema(rt, alloc, POLICIES);
    let table = read.table_at(1).expect(rt, "it has a table");
    table.key.items() == [1, 2].as_slice()
        && table.row_start.text() == "s"
        && are_columns_of_policies(table.columns.items())
        && has_period_of_policies(table)
}

#[test]
fn a_key_without_overlaps_ends_with_the_periods_start(rt: HostRuntime) {
    assert!(rt; is_policies_read(&rt, rt.alloc()));
}
