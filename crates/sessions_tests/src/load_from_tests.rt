//! Files of CSV that are read from a stream: in pieces, and by a reader that fails.
ghost use Rattle.values.specs.TableRules.{IsTable};

use crate::cut::Cut;
use interchange::{LoadFault, load_from, load_rows};
use std::alloc::Global;
use values::Table;

const FILES: &[&[u8]] = &[
    b"",
    b"\xef\xbb\xbf",
    b"\xef\xbb",
    b"\xef\xbb\xbfno,name\n1,Ann\n",
    b"\xef\xbbno\n1\n",
    b"\xef\xbb\xbf\"no\",name\n1,Ann\n",
    b"\r\n\n",
    b"no",
    b"no,name\n",
    b"no,no\n1,1\n",
    b"nome\n1\n",
    b"no,name\n1\n",
    b"no,name\n1,Ann,x\n",
    b"no,name\n1,Ann\n\r\n2,\n",
    b"no,name\r1,Ann\r\r2,\"a, \"\"b\"\"\"c\r",
    b"name,no\r\n\"a\"b\"c\",1\r\n",
    b"no,name\n1,\"a",
    b"no,name\n1,a\"b\",",
    b"no,name\n1,\"\"\n2,\"\"",
    b"no,name\nx,\xff\n",
];

/// Whether a stream of a file, in such pieces, is answered as the file is.
fn is_read_as_whole(alloc: Global, table: &Table, bytes: &[u8], most: usize) -> bool
    requires good { IsTable table.now.number table.now }
{
    let mut reader = Cut {
        rest: bytes,
        most,
        calls: usize::MAX,
    };
    let read = load_from(alloc, &mut reader, table);
    let whole = load_rows(alloc, bytes, table);
    match (&read, &whole) {
        (Ok(rows), Ok(all)) => {
            rows.len() == all.len() && (0..rows.len()).all(|i| rows[i].values() == all[i].values())
        }
        (Err(LoadFault::Refused(refusal)), Err(why)) => refusal == why,
        _ => false,
    }
}

#[test]
fn a_stream_is_answered_as_the_file_is_whole(rt: HostRuntime) {
    let table = Table::sample(rt.alloc()).expect(&rt, "there is memory");
    for bytes in FILES {
        for most in &[1, 2, 3, 7, 4096] {
            assert!(rt;
                is_read_as_whole(rt.alloc(), &table, bytes, *most),
                "{bytes:?} by {most}"
            );
        }
    }
    // The keys of rows are not compared.
    let rows = load_rows(rt.alloc(), b"no,name\n1,a\n\n1,b\n", &table);
    assert!(rt; rows.expect(&rt, "the file has rows").len() == 2);
}

#[test]
fn a_reader_that_fails_ends_a_load(rt: HostRuntime) {
    let table = Table::sample(rt.alloc()).expect(&rt, "there is memory");
    for calls in 0..10usize {
        let mut reader = Cut {
            rest: b"no,name\n1,Ann\n2,Bea\n",
            most: 4,
            calls,
        };
        let loaded = load_from(rt.alloc(), &mut reader, &table);
        let is_as_due = match loaded {
            Ok(_) => calls == 9,
            Err(LoadFault::Read) => calls < 9,
            Err(_) => false,
        };
        assert!(rt; is_as_due, "{calls}");
    }
}
