//! Sessions side by side, and the same lines one after another, in the order of their receipts.
use crate::case::{Ended, parts_of, serve};
use crate::cut::Cut;
use crate::desk::{Desk, count};
use crate::pipe::Pipe;
use crate::scene::{Audit, Scene, play};
use crate::step::{begin, keep};
use growlog::StoreName;
use listening::AlwaysOpen;
use scripts::run_script;
use sessions::{Entry, LockedStore, Receipt};
use std::alloc::Global;
use std::process::Abort;
use std::sync::{Mutex, Wait};
use std::thread;
use std::thread::Threads;
use values::{Instant, Schema};

/// A line of a session: the number of the session's last receipt when it was sent, and its lines and
/// replies in a script, which sets the clock before a commit.
#[derive(Drop)]
struct Answered {
    number: u64,
    script: String,
    replies: Vec<u8>,
}

/// What the sessions have handed over.
struct Tray<J: StoreName> {
    answered: Vec<Answered>,
    receipts: Vec<Receipt<J>>,
}

/// The lines of every session, which are in conflict with those of the others.
const LINES: &[&str] = &[
    "BEGIN",
    "INSERT INTO emp VALUES (1, 'Ann'), (2, null)",
    "SELECT * FROM emp",
    "COMMIT",
    "SELECT * FROM emp",
    "BEGIN",
    "UPDATE emp SET name = 'Bea' WHERE no = 1",
    "SELECT * FROM emp FOR SYSTEM_TIME AS OF 12",
    "COMMIT",
    "SPLIT: TIME emp (1) AT 12",
    "MIGRATE:",
    "SELECT * FROM emp FOR SYSTEM_TIME FROM 1 TO 20",
    "BEGIN",
    "DELETE FROM emp WHERE no = 2",
    "ROLLBACK",
    "COMMIT",
    "SPLIT: KEY emp (2)",
    "BEGIN",
    "DELETE FROM emp WHERE no = 1",
    "COMMIT",
];

/// How often each session has the lines.
const TIMES: usize = 5;

/// The bytes of a text up to and including its first line feed.
fn first_line(text: &[u8]) -> &[u8] {
    let place = text.iter().position(|byte| *byte == b'\n');
    let end = place.map_or(text.len(), |place| place.saturating_add(1));
    text.get(..end).unwrap_or(text)
}

/// How many lines a reply has behind its first one.
fn lines_behind(first: &[u8]) -> usize {
    let Ok(first) = str::from_utf8(first) else {
        return 0;
    };
    match first.trim_end().strip_prefix("rows ") {
        Some(count) => count.parse::<usize>().unwrap_or(0),
        None => 0,
    }
}

/// Takes the first reply off a text.
fn take_reply<'a>(rt: &impl Abort, text: &mut &'a [u8]) -> &'a [u8] {
    let whole = *text;
    let first = first_line(whole);
    let mut end = first.len();
    for _ in 0..lines_behind(first) {
        let rest = whole.get(end..).expect(rt, "the reply has its lines");
        end = end.saturating_add(first_line(rest).len());
    }
    *text = whole.get(end..).expect(rt, "the reply has its lines");
    whole.get(..end).expect(rt, "the reply has its lines")
}

/// How many receipts a line took, whose session has these left, and a transaction open or none.
fn receipts_taken<J: StoreName>(line: &str, is_open: bool, left: &[Receipt<J>]) -> usize {
    if line == "MIGRATE:" {
        let next = left.get(1).map(|receipt| receipt.entry.entry());
        return if matches!(next, Some(Entry::Install { .. })) {
            2
        } else {
            1
        };
    }
    let asks = match line {
        "COMMIT" => is_open,
        "BEGIN" => !is_open,
        other => other.starts_with("SPLIT") || other.starts_with("SELECT") && !is_open,
    };
    usize::from(asks)
}

/// The reading of a commit.
fn reading_of(entry: &Entry) -> Option<Instant> {
    match entry {
        Entry::Commit { reading, .. } => Some(*reading),
        _ => None,
    }
}

/// A line of a session as a script has it, behind the reading of its commit.
fn script_of(
    rt: &impl Abort,
    alloc: Global,
    session: u8,
    reading: Option<Instant>,
    line: &str,
) -> String {
    let script = match reading {
        Some(reading) => format!(in alloc; "clock: {reading}\n{session}: {line}\n"),
        None if line.starts_with("SPLIT") || line.starts_with("MIGRATE") => {
            format!(in alloc; "{line}\n")
        }
        None => format!(in alloc; "{session}: {line}\n"),
    };
    script.expect(rt, "there is memory")
}

/// A reply of a session as a script has it, behind that to a reading.
fn replies_of(rt: &impl Abort, alloc: Global, has_reading: bool, reply: &[u8]) -> Vec<u8> {
    let mut replies = Vec::new(alloc);
    if has_reading {
        replies
            .extend_from_slice(b"ok\n")
            .expect(rt, "there is memory");
    }
    replies
        .extend_from_slice(reply)
        .expect(rt, "there is memory");
    replies
}

/// The lines of a session with their replies.
fn answered_by<J: StoreName>(
    rt: &impl Abort,
    alloc: Global,
    session: u8,
    mut sent: &[u8],
    receipts: &[Receipt<J>],
) -> Vec<Answered> {
    let mut answered = Vec::new(alloc);
    let mut left = receipts;
    let mut number = 0;
    let mut is_open = false;
    for _ in 0..TIMES {
        for line in LINES {
            let taken = receipts_taken(line, is_open, left);
            let (own, rest) = left
                .split_at_checked(taken)
                .expect(rt, "there are receipts");
            left = rest;
            let mut reading = None;
            if let Some(receipt) = own.last() {
                number = receipt.number;
                reading = reading_of(receipt.entry.entry());
            }
            is_open = match *line {
                "BEGIN" => true,
                "COMMIT" | "ROLLBACK" => false,
                _ => is_open,
            };
            let reply = take_reply(rt, &mut sent);
            let one = Answered {
                number,
                script: script_of(rt, alloc, session, reading, line),
                replies: replies_of(rt, alloc, reading.is_some(), reply),
            };
            answered.push(one).expect(rt, "there is memory");
        }
    }
    assert!(rt; sent.is_empty() && left.is_empty());
    answered
}

/// The text of a session's lines.
fn text_of(rt: &impl Abort, alloc: Global) -> String {
    let mut text = String::new(alloc);
    for _ in 0..TIMES {
        for line in LINES {
            text.push_str(line).expect(rt, "there is memory");
            text.push('\n').expect(rt, "there is memory");
        }
    }
    text
}

/// Serves a session its lines, and hands over what it was sent and its receipts.
fn serve_lines<J: StoreName, R: Abort + Wait>(
    rt: &R,
    alloc: Global,
    store: &LockedStore<J>,
    number: u8,
    tray: &Mutex<Tray<J>>,
) {
    let text = text_of(rt, alloc);
    let mut reader = Cut {
        rest: text.as_bytes(),
        most: 7,
        calls: 10_000,
    };
    let mut writer = Pipe::new(alloc);
    let served = serve(
        rt,
        alloc,
        store,
        number,
        &AlwaysOpen,
        &mut reader,
        &mut writer,
    );
    let (receipts, end) = parts_of(served);
    assert!(rt; end == Ended::Closed);
    let sent = writer.taken.as_slice();
    let mut answered = answered_by(rt, alloc, number, sent, receipts.as_slice());
    let mut tray = tray.lock(rt);
    tray.answered
        .append(&mut answered)
        .expect(rt, "there is memory");
    keep(rt, &mut tray.receipts, receipts);
}

/// Serves eight sessions, each in a thread of its own.
fn serve_eight<J: StoreName, R: Abort + Threads + Wait + Sync>(
    rt: &R,
    alloc: Global,
    store: &LockedStore<J>,
    tray: &Mutex<Tray<J>>,
) {
    thread::scope(thread::scope_env(), rt, |scope| {
        for number in 1..=8u8 {
            let handle = scope.spawn(move || serve_lines(rt, alloc, store, number, tray));
            let _running = handle.expect(rt, "a thread starts");
        }
    })
}

/// The replies of a script.
fn transcript_of(rt: &impl Abort, alloc: Global, script: &str) -> Vec<u8> {
    let schema = Schema::sample(alloc).expect(rt, "there is memory");
    let mut transcript = Vec::new(alloc);
    let ran = run_script(alloc, &mut script.as_bytes(), &mut transcript, schema);
    assert!(rt; ran.is_ok());
    transcript
}

/// Whether a script of the lines, one after another, has their replies.
fn are_one_history(rt: &impl Abort, alloc: Global, answered: &[Answered]) -> bool {
    let mut script = String::new(alloc);
    let mut replies = Vec::new(alloc);
    for one in answered {
        script
            .push_str(one.script.as_str())
            .expect(rt, "there is memory");
        replies
            .extend_from_slice(one.replies.as_slice())
            .expect(rt, "there is memory");
    }
    transcript_of(rt, alloc, script.as_str()) == replies
}

/// Serves sessions side by side, and compares what they were sent with one history. A session begins
/// then, and sees what the store must show.
pub(crate) fn serve_and_replay<J: StoreName, R: Abort + Threads + Wait + Sync>(
    rt: &R,
    alloc: Global,
    store: &LockedStore<J>,
    desk: &mut Desk,
    receipts: &mut Vec<Receipt<J>>,
) -> Audit {
    let tray = Mutex::new(Tray {
        answered: Vec::new(alloc),
        receipts: Vec::new(alloc),
    });
    serve_eight(rt, alloc, store, &tray);
    let Tray {
        mut answered,
        receipts: taken,
    } = tray.into_inner();
    keep(rt, receipts, taken);
    answered
        .sort_by_key(|one| one.number)
        .expect(rt, "there is memory");
    assert!(rt; are_one_history(rt, alloc, answered.as_slice()));
    begin(rt, store, &mut desk.service, receipts);
    let last = desk.service.start().expect(rt, "it has begun");
    (receipts.len(), count(rt, alloc, &mut desk.service), last)
}

#[test]
fn eight_sessions_were_sent_one_history(rt: HostRuntime) {
    play(&rt, rt.alloc(), Scene::OneHistory);
}
