//! Words that are taken, and what is made of them.
use command_line::options::{Mode, Options, words};
use listening::Limit;

/// What no words ask for.
const NOTHING: Options<'static> = Options {
    schema: None,
    after: None,
    mode: Mode::Script(None),
    load: None,
    export: None,
    dump: None,
};

/// Words, with what they ask for.
const TAKEN: &[(&[&str], Options<'static>)] = &[
    (&[], NOTHING),
    (&["--"], NOTHING),
    (
        &["--schema", "a"],
        Options {
            schema: Some("a"),
            ..NOTHING
        },
    ),
    (
        &["--script", "b"],
        Options {
            mode: Mode::Script(Some("b")),
            ..NOTHING
        },
    ),
    (
        &["--load", "t=c"],
        Options {
            load: Some("t=c"),
            ..NOTHING
        },
    ),
    (
        &["--export", "d"],
        Options {
            export: Some("d"),
            ..NOTHING
        },
    ),
    (
        &[
            "--export", "d", "--load", "t=c", "--script", "b", "--schema", "a",
        ],
        Options {
            schema: Some("a"),
            mode: Mode::Script(Some("b")),
            load: Some("t=c"),
            export: Some("d"),
            ..NOTHING
        },
    ),
    (
        &["--schema=a", "--script=b=c"],
        Options {
            schema: Some("a"),
            mode: Mode::Script(Some("b=c")),
            ..NOTHING
        },
    ),
    (
        &["--schema", ""],
        Options {
            schema: Some(""),
            ..NOTHING
        },
    ),
    (
        &["--schema="],
        Options {
            schema: Some(""),
            ..NOTHING
        },
    ),
    (
        &["--schema=--script"],
        Options {
            schema: Some("--script"),
            ..NOTHING
        },
    ),
    (
        &["--schema", "-"],
        Options {
            schema: Some("-"),
            ..NOTHING
        },
    ),
    (
        &["--load=t=c=d"],
        Options {
            load: Some("t=c=d"),
            ..NOTHING
        },
    ),
    (
        &["--load", "="],
        Options {
            load: Some("="),
            ..NOTHING
        },
    ),
    (
        &["--load=t="],
        Options {
            load: Some("t="),
            ..NOTHING
        },
    ),
    (
        &["--export="],
        Options {
            export: Some(""),
            ..NOTHING
        },
    ),
];

#[test]
fn options_have_the_texts_that_follow_them(rt: HostRuntime) {
    for (given, wanted) in TAKEN {
        let options = words(rt.alloc(), given).expect(&rt, "the words are taken");
        assert!(rt; options == *wanted, "{given:?}");
    }
}

/// Words of a server, with its port and how many it serves.
const SERVERS: &[(&[&str], u16, Limit)] = &[
    (&["--listen", "0", "--sessions", "1"], 0, Limit::Sessions(1)),
    (
        &["--sessions", "64", "--listen", "65535"],
        65535,
        Limit::Sessions(64),
    ),
    (
        &["--listen", "0007411", "--sessions", "08"],
        7411,
        Limit::Sessions(8),
    ),
    (
        &["--export", "d", "--listen=80", "--sessions=2"],
        80,
        Limit::Sessions(2),
    ),
    (
        &["--listen", "1", "--connections", "0"],
        1,
        Limit::Connections(0),
    ),
    (
        &["--connections=1000000", "--listen", "2", "--"],
        2,
        Limit::Connections(1_000_000),
    ),
    (
        &["--listen=3", "--connections=065", "--export", "d"],
        3,
        Limit::Connections(65),
    ),
];

#[test]
fn a_server_has_a_port_and_a_number_of_sessions(rt: HostRuntime) {
    for (given, port, limit) in SERVERS {
        let options = words(rt.alloc(), given).expect(&rt, "the words are taken");
        let wanted = Mode::Listen {
            port: *port,
            limit: *limit,
            entries: 1_000_000,
            idle: None,
            is_logged: false,
        };
        assert!(rt; options.mode == wanted, "{given:?}");
    }
}

/// Words of a server that is asked for all that it can be.
const FULL: &[&str] = &[
    "--idle=0060",
    "--connections",
    "9",
    "--log",
    "--listen=4",
    "--entries",
    "1000000000",
];

#[test]
fn a_server_has_a_journal_and_an_idle_time(rt: HostRuntime) {
    let options = words(rt.alloc(), FULL).expect(&rt, "the words are taken");
    let wanted = Mode::Listen {
        port: 4,
        limit: Limit::Connections(9),
        entries: 1_000_000_000,
        idle: Some(60),
        is_logged: true,
    };
    assert!(rt; options.mode == wanted);
}
