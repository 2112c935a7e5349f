//! Clients of a store that is served.
ghost use Rattle.std.specs.Prelude.{◌≡◌, []};

use crate::client::{Play, Sent, run_play};
use crate::desk::insert;
use crate::step::{begin, commit};
use growlog::{NewLog, StoreName};
use listening::{Limit, bind, listen};
use sessions::{Gate, LockedStore, Place, Receipt, SharedEntry};
use std::alloc::Global;
use std::marker::Brand;
use std::net::{Net, TcpListener, TcpStream};
use std::process::Abort;
use std::sync::{Mutex, Wait};
use std::thread;
use std::thread::Threads;
use std::time::Clock;
use values::Schema;

/// Whom a door lets read. A session that has committed goes on.
#[derive(Clone, Copy, PartialEq, Eq)]
enum Readers {
    All,
    /// All, but session 1 only once a session has committed, which it waits for a while.
    FirstWaits,
    Nobody,
    /// The session with a number.
    One(u8),
}

/// A gate that sessions pass.
#[derive(Drop)]
struct Door {
    readers: Readers,
    has_committed: Mutex<bool>,
}

impl Gate for Door {
    fn pass<R: Wait>(&self, rt: &R, session: u8, place: Place) -> bool {
        if place == Place::Committed {
            *self.has_committed.lock(rt) = true;
            return true;
        }
        match self.readers {
            Readers::All => true,
            Readers::Nobody => false,
            Readers::One(number) => session == number,
            Readers::FirstWaits => {
                for _ in 0..1_000_000u32 {
                    if session != 1 || *self.has_committed.lock(rt) {
                        return true;
                    }
                }
                false
            }
        }
    }
}

/// Session 0 commits employee 1 at the reading 100, and its receipts are kept.
fn hire_ann<J: StoreName, R: Abort + Wait>(
    rt: &R,
    alloc: Global,
    store: &LockedStore<J>,
    receipts: &mut Vec<Receipt<J>>,
) {
    let mut session = store.session(alloc, 0).expect(rt, "there is memory");
    begin(rt, store, &mut session, receipts);
    insert(rt, alloc, &mut session, 1, "Ann");
    assert!(rt; commit(rt, store, &mut session, 100, receipts));
}

/// A store that is to be served, with the receipts of what was done before. A closure cannot hold
/// them, so it takes them out of here.
type Held<J> = Mutex<Option<(LockedStore<J>, Vec<Receipt<J>>)>>;

/// Serves connections, and returns how many entries the store closes with.
fn serve_held<J: StoreName, R>(
    rt: &R,
    alloc: Global,
    bound: (TcpListener, u16),
    limit: Limit,
    held: &Held<J>,
    gate: &Door,
) -> usize
where
    R: Abort + Net<Listener = TcpListener, Stream = TcpStream> + Clock + Threads + Wait + Sync,
{
    let (store, before) = held.lock(rt).take().expect(rt, "it is held");
    let mut reader = b"".as_slice();
    let mut log = Vec::new(alloc);
    let closed = listen(
        rt,
        alloc,
        bound,
        limit,
        None,
        &mut reader,
        false,
        &mut log,
        store,
        before,
        gate,
    );
    closed.expect(rt, "the store closes").entries()
}

/// What two clients are sent by a store that is served, and how many entries it closes with.
fn serve_two<J: StoreName, R>(
    rt: &R,
    alloc: Global,
    store: LockedStore<J>,
    gate: &Door,
    limit: Limit,
    play: Play,
) -> (Sent, usize)
where
    R: Abort + Net<Listener = TcpListener, Stream = TcpStream> + Clock + Threads + Wait + Sync,
{
    let mut before = Vec::new(alloc);
    hire_ann(rt, alloc, &store, &mut before);
    let (listener, port) = bind(rt, 0).expect(rt, "it listens");
    let held = Mutex::new(Some((store, before)));
    let shared = &held;
    let found = thread::scope(thread::scope_env(), rt, |scope| {
        let clients = scope.spawn(move || run_play(rt, alloc, port, play));
        let entries = serve_held(rt, alloc, (listener, port), limit, shared, gate);
        let clients = clients.expect(rt, "a thread starts");
        (clients.join(rt), entries)
    });
    if let Some((store, before)) = held.into_inner() {
        let _gone = store.give_up(before);
    }
    found
}

/// The same of a store that is new, with one employee.
fn serve_new<J: StoreName, R>(
    rt: &R,
    alloc: Global,
    schema: Schema,
    opened: NewLog<SharedEntry>,
    gate: &Door,
    limit: Limit,
    play: Play,
) -> (Sent, usize)
where
    R: Abort + Net<Listener = TcpListener, Stream = TcpStream> + Clock + Threads + Wait + Sync,
    requires log { opened.seen.book ≡ J.book }
    requires origin { J.origin ≡ record { schema = schema; log = []; most_entries = 1000000 } }
{
    let store = LockedStore::<J>::new(alloc, schema, 1_000_000, opened).expect(
        rt,
        "there is memory",
    );
    serve_two(rt, alloc, store, gate, limit, play)
}

/// What a client is sent: how it begins and how it ends, and whether nothing is between the two.
type Wanted = (&'static str, &'static str, bool);

fn is_so(sent: &[u8], wanted: Wanted) -> bool {
    let (begin, end, is_whole) = wanted;
    sent.starts_with(begin.as_bytes())
        && sent.ends_with(end.as_bytes())
        && !(is_whole && sent.len() != begin.len() + end.len())
}

/// Any text.
const ANY: Wanted = ("", "", false);

/// Two clients are sent what is wanted, and the store closes with so many entries, by a server of so many
/// connections.
fn serve_clients<R>(
    rt: &R,
    alloc: Global,
    readers: Readers,
    limit: Limit,
    play: Play,
    wanted: (Wanted, Wanted),
    entries: usize,
)
where
    R: Abort + Net<Listener = TcpListener, Stream = TcpStream> + Clock + Threads + Wait + Sync,
{
    let schema = Schema::sample(alloc).expect(rt, "there is memory");
    let gate = Door {
        readers,
        has_committed: Mutex::new(false),
    };
    let served = serve_new::<Brand, _>(rt, alloc, schema, NewLog::new(), &gate, limit, play);
    let (sent, closed_with) = served;
    assert!(rt; is_so(sent.0.as_slice(), wanted.0));
    assert!(rt; is_so(sent.1.as_slice(), wanted.1));
    assert!(rt; closed_with == entries);
}

const TWO: Limit = Limit::Sessions(2);

#[test]
fn two_clients_are_sessions_of_one_store(rt: HostRuntime) {
    let wanted = (
        (
            "begun 100\ninserted 1\ncommitted ",
            "\nrows 2\n(1, 'Ann')\n(2, 'Bea')\n",
            false,
        ),
        (
            "rows 2\n(1, 'Ann')\n(2, 'Bea')\nE4 no transaction\n",
            "",
            true,
        ),
    );
    serve_clients(&rt, rt.alloc(), Readers::All, TWO, Play::InTurn, wanted, 6);
}

#[test]
fn a_read_goes_on_while_another_commits(rt: HostRuntime) {
    let wanted = (
        ("begun 100\nrows 1\n(1, 'Ann')\n", "", true),
        ("begun 100\nupdated 1\ncommitted ", "", false),
    );
    serve_clients(
        &rt,
        rt.alloc(),
        Readers::FirstWaits,
        TWO,
        Play::Held,
        wanted,
        5,
    );
}

#[test]
fn a_round_packs_after_the_16th_commit_of_a_session(rt: HostRuntime) {
    let wanted = (ANY, ("rows 1\n(1, 'Eve')\nE4 no transaction\n", "", true));
    // 17 transactions, the split, the query, and the round's begin and install.
    let entries = 2 * 17 + 1 + 1 + 2;
    serve_clients(
        &rt,
        rt.alloc(),
        Readers::All,
        TWO,
        Play::Busy,
        wanted,
        entries,
    );
}

#[test]
fn a_client_that_breaks_off_harms_no_other(rt: HostRuntime) {
    let wanted = (ANY, ("rows 1\n(1, 'Ann')\nE4 no transaction\n", "", true));
    serve_clients(&rt, rt.alloc(), Readers::All, TWO, Play::Broken, wanted, 4);
}

#[test]
fn a_gate_that_gives_up_ends_its_session_alone(rt: HostRuntime) {
    let wanted = (
        ("begun 100\ninserted 1\ncommitted ", "", false),
        ("", "", true),
    );
    serve_clients(
        &rt,
        rt.alloc(),
        Readers::Nobody,
        TWO,
        Play::InTurn,
        wanted,
        4,
    );
}

#[test]
fn the_second_connection_is_session_2(rt: HostRuntime) {
    let wanted = (
        ("begun 100\ninserted 1\ncommitted ", "", false),
        (
            "rows 2\n(1, 'Ann')\n(2, 'Bea')\nE4 no transaction\n",
            "",
            true,
        ),
    );
    serve_clients(
        &rt,
        rt.alloc(),
        Readers::One(2),
        TWO,
        Play::InTurn,
        wanted,
        5,
    );
}

#[test]
fn a_number_is_used_again_when_its_connection_has_ended(rt: HostRuntime) {
    let wanted = (
        ("begun 100\ninserted 1\n", "", true),
        ("rows 1\n(1, 'Ann')\nE4 no transaction\n", "", true),
    );
    let three = Limit::Connections(3);
    // Those that are no clients have used up all other numbers; the third that counts is session 2, which
    // may not read.
    serve_clients(
        &rt,
        rt.alloc(),
        Readers::One(1),
        three,
        Play::Again,
        wanted,
        4,
    );
}
