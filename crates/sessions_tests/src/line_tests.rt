//! What a session is sent for its lines.
use crate::case::{Case, Ended, NONE, Visit};
use crate::scene::{Scene, play};

/// A session that is read to its end, which is the second read of 1,000.
const WHOLE: Visit<'static> = Visit {
    number: 3,
    text: "",
    limits: NONE,
    replies: "",
    end: Ended::Closed,
    receipts: 0,
    reads_left: 998,
};

const LINES: &[Case<'static>] = &[
    Case {
        what: "lines of each kind",
        visits: &[Visit {
            text: "BEGIN\n\
        INSERT INTO emp VALUES (1, 'Ann'), (2, null)\n\
        UPDATE emp SET name = 'Bea' WHERE no = 2\n\
        DELETE FROM emp WHERE no = 1\n\
        SELECT * FROM emp\n\
        COMMIT\n\
        SELECT * FROM emp FOR SYSTEM_TIME AS OF 10\n",
            replies: "begun 0\n\
        inserted 2\n\
        updated 1\n\
        deleted 1\n\
        rows 1\n\
        (2, 'Bea')\n\
        committed 10\n\
        rows 1\n\
        (2, 'Bea')\n",
            receipts: 3,
            ..WHOLE
        }],
        shows: (3, 1, 10),
    },
    Case {
        what: "a SELECT alone begins and rolls back",
        visits: &[Visit {
            text: "SELECT * FROM emp\nROLLBACK\n",
            replies: "rows 0\nE4 no transaction\n",
            receipts: 1,
            ..WHOLE
        }],
        shows: (1, 0, 0),
    },
    Case {
        what: "what is no line of a session is refused",
        visits: &[Visit {
            text: "\n-- a comment\nBEGN\n3: BEGIN\nclock: 5\nSELECT * FROM nobody\nBEGIN;\n",
            replies: "E1 syntax at 0\nE1 syntax at 0\nE1 syntax at 0\nE2 no table\nbegun 0\n",
            receipts: 1,
            ..WHOLE
        }],
        shows: (1, 0, 0),
    },
    Case {
        what: "a last line wants no line feed",
        visits: &[Visit {
            text: "BEGIN\r\nROLLBACK",
            replies: "begun 0\nrolled back\n",
            receipts: 1,
            ..WHOLE
        }],
        shows: (1, 0, 0),
    },
    Case {
        what: "no line",
        visits: &[Visit {
            text: "",
            replies: "",
            receipts: 0,
            reads_left: 999,
            ..WHOLE
        }],
        shows: (0, 0, 0),
    },
    Case {
        what: "splits take receipts and so does a migration",
        visits: &[Visit {
            text: "SPLIT: KEY emp (5)\nSPLIT: TIME emp (1) AT 3\nMIGRATE:\nSPLIT: KEY emp ('x')\n",
            replies: "ok\nok\nok\nE3 bad row at column 1\n",
            receipts: 3,
            ..WHOLE
        }],
        shows: (3, 0, 0),
    },
    Case {
        what: "a migration has a second receipt where there is history to pack",
        visits: &[Visit {
            text: "BEGIN\n\
        INSERT INTO emp VALUES (1, 'a')\n\
        COMMIT\n\
        BEGIN\n\
        UPDATE emp SET name = 'b' WHERE no = 1\n\
        COMMIT\n\
        SPLIT: TIME emp (1) AT 11\n\
        MIGRATE:\n\
        MIGRATE:\n\
        SELECT * FROM emp FOR SYSTEM_TIME AS OF 10\n",
            replies: "begun 0\n\
        inserted 1\n\
        committed 10\n\
        begun 10\n\
        updated 1\n\
        committed 11\n\
        ok\n\
        ok\n\
        ok\n\
        rows 1\n\
        (1, 'a')\n",
            receipts: 9,
            ..WHOLE
        }],
        shows: (9, 1, 11),
    },
];

#[test]
fn a_session_is_answered_line_by_line(rt: HostRuntime) {
    for case in LINES {
        play(&rt, rt.alloc(), Scene::Serve(case));
    }
}

/// A line of 8,193 spaces, and a begin.
#[test]
fn a_line_that_is_too_long_is_refused_and_the_next_is_read(rt: HostRuntime) {
    let mut text = String::new(rt.alloc());
    for _ in 0..8193usize {
        text.push(' ').expect(&rt, "there is memory");
    }
    text.push_str("\nBEGIN\n").expect(&rt, "there is memory");
    let visits = [Visit {
        text: text.as_str(),
        replies: "E12 line too long\nbegun 0\n",
        receipts: 1,
        reads_left: 996,
        ..WHOLE
    }];
    let case = Case {
        what: "a long line",
        visits: &visits,
        shows: (1, 0, 0),
    };
    play(&rt, rt.alloc(), Scene::Serve(&case));
}
