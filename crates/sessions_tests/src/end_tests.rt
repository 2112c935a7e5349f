//! How served sessions end, and what is kept then.
use crate::case::{Case, Ended, Limits, NONE, Visit};
use crate::scene::{Scene, play};
use sessions::Place;

const HIRE: &str = "BEGIN\nINSERT INTO emp VALUES (1, 'Ann')\nCOMMIT\nSELECT * FROM emp\n";

const HIRED: &str = "begun 0\ninserted 1\ncommitted 10\n";

/// A session that commits, and begins again.
const HIRE_ON: &str = "BEGIN\nINSERT INTO emp VALUES (1, 'Ann')\nCOMMIT\nBEGIN\n";

/// A session that reads in an open transaction.
const LOOK: &str = "BEGIN\nINSERT INTO emp VALUES (1, 'Ann')\nSELECT * FROM emp\n";

/// A session that inserts, and breaks off.
const LEAVE: Visit<'static> = Visit {
    number: 3,
    text: "BEGIN\nINSERT INTO emp VALUES (1, 'Ann')\n",
    limits: NONE,
    replies: "begun 0\ninserted 1\n",
    end: Ended::Closed,
    receipts: 1,
    reads_left: 998,
};

const ENDS: &[Case<'static>] = &[
    Case {
        what: "an open transaction is dropped at the end",
        visits: &[LEAVE],
        shows: (1, 0, 0),
    },
    Case {
        what: "a reader that fails ends the session",
        visits: &[Visit {
            text: HIRE,
            limits: Limits {
                most: 10,
                reads: 2,
                ..NONE
            },
            replies: "begun 0\n",
            end: Ended::Read,
            reads_left: 0,
            ..LEAVE
        }],
        shows: (1, 0, 0),
    },
    Case {
        what: "a commit whose reply cannot be written stands",
        visits: &[Visit {
            text: HIRE,
            limits: Limits { room: 22, ..NONE },
            replies: "begun 0\ninserted 1\ncom",
            end: Ended::Write,
            receipts: 2,
            reads_left: 999,
            ..LEAVE
        }],
        shows: (2, 1, 10),
    },
    Case {
        what: "a commit of whose reply no byte is written stands",
        visits: &[Visit {
            text: HIRE,
            limits: Limits { room: 19, ..NONE },
            end: Ended::Write,
            receipts: 2,
            reads_left: 999,
            ..LEAVE
        }],
        shows: (2, 1, 10),
    },
    Case {
        what: "a gate that gives up before a read ends the session",
        visits: &[Visit {
            text: HIRE,
            limits: Limits {
                shut: Some(Place::Read),
                ..NONE
            },
            replies: HIRED,
            end: Ended::Gate,
            receipts: 2,
            reads_left: 999,
            ..LEAVE
        }],
        shows: (2, 1, 10),
    },
    Case {
        what: "a gate that gives up before a read leaves no transaction open",
        visits: &[Visit {
            text: LOOK,
            limits: Limits {
                shut: Some(Place::Read),
                ..NONE
            },
            end: Ended::Gate,
            reads_left: 999,
            ..LEAVE
        }],
        shows: (1, 0, 0),
    },
    Case {
        what: "a gate that does not open for 1,000,000 turns leaves no transaction open",
        visits: &[Visit {
            text: LOOK,
            limits: Limits {
                shut: Some(Place::Read),
                turns: 1_000_000,
                ..NONE
            },
            end: Ended::Gate,
            reads_left: 999,
            ..LEAVE
        }],
        shows: (1, 0, 0),
    },
    Case {
        what: "a gate that gives up after a commit ends the session before its next line",
        visits: &[Visit {
            text: HIRE_ON,
            limits: Limits {
                shut: Some(Place::Committed),
                ..NONE
            },
            replies: HIRED,
            end: Ended::Gate,
            receipts: 2,
            reads_left: 999,
            ..LEAVE
        }],
        shows: (2, 1, 10),
    },
    Case {
        what: "replies are passed on before more is read",
        visits: &[Visit {
            text: HIRE,
            limits: Limits {
                most: 6,
                reads: 9,
                room: 100,
                flushes: 0,
                ..NONE
            },
            replies: "begun 0\n",
            end: Ended::Write,
            reads_left: 8,
            ..LEAVE
        }],
        shows: (1, 0, 0),
    },
    Case {
        what: "a session in whose transaction the reader fails is in nobody's way",
        visits: THREE,
        shows: (7, 1, 11),
    },
];

/// A session that hires one, one that renames him until its reader fails, and one that renames him
/// and commits.
const THREE: &[Visit<'static>] = &[
    Visit {
        number: 1,
        text: HIRE,
        replies: "begun 0\ninserted 1\ncommitted 10\nrows 1\n(1, 'Ann')\n",
        receipts: 3,
        ..LEAVE
    },
    Visit {
        number: 2,
        text: "BEGIN\nUPDATE emp SET name = 'Bea' WHERE no = 1\nCOMM",
        limits: Limits { reads: 1, ..NONE },
        replies: "begun 10\nupdated 1\n",
        end: Ended::Read,
        reads_left: 0,
        ..LEAVE
    },
    Visit {
        text: "BEGIN\nUPDATE emp SET name = 'Cid' WHERE no = 1\nCOMMIT\nSELECT * FROM emp\n",
        replies: "begun 10\nupdated 1\ncommitted 11\nrows 1\n(1, 'Cid')\n",
        receipts: 3,
        ..LEAVE
    },
];

#[test]
fn a_session_that_ends_leaves_its_receipts(rt: HostRuntime) {
    for case in ENDS {
        play(&rt, rt.alloc(), Scene::Serve(case));
    }
}
