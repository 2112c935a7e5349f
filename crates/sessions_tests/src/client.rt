//! Clients that send lines and read what they are sent. The run ends where a socket fails.
use std::alloc::Global;
use std::io::{Read, Write};
use std::net::{Net, OpenStream, Shutdown, TcpListener, TcpStream};
use std::process::Abort;

/// The reads that a client makes at most.
const READS: u64 = 1_000_000;

/// What two clients do, of which the first connects first.
#[derive(Clone, Copy)]
pub(crate) enum Play {
    /// The second connects when the first has all its replies.
    InTurn,
    /// The first begins, and asks for rows; while it waits for them the second commits.
    Held,
    /// The first breaks off in the middle of a transaction and of a line.
    Broken,
    /// The first splits a node, and then has committed 16 times.
    Busy,
    /// The first ends in the middle of a transaction; 63 that are no clients come and go, of which every
    /// second one begins an HTTP request, and the others send nothing; and a third comes when the second
    /// has all its replies.
    Again,
}

/// What two clients were sent.
pub(crate) type Sent = (Vec<u8>, Vec<u8>);

const HIRE: &[u8] = b"BEGIN\nINSERT INTO emp VALUES (2, 'Bea')\nCOMMIT\nSELECT * FROM emp";

const OPEN: &[u8] = b"BEGIN\nINSERT INTO emp VALUES (2, 'Bea')\n";

const LOOK: &[u8] = b"SELECT * FROM emp\nCOMMIT\n";

const RENAME: &[u8] = b"BEGIN\nUPDATE emp SET name = 'Eve' WHERE no = 1\nCOMMIT\n";

const HALF: &[u8] = b"BEGIN\nINSERT INTO emp VALUES (3, 'Joe')\nCOM";

/// A commit and a split behind it, and 15 commits more.
const BUSY: &[u8] =
    b"BEGIN\nUPDATE emp SET name = 'Eve' WHERE no = 1\nCOMMIT\nSPLIT: TIME emp (1) AT 101\n\
    BEGIN\nCOMMIT\nBEGIN\nCOMMIT\nBEGIN\nCOMMIT\nBEGIN\nCOMMIT\nBEGIN\nCOMMIT\n\
    BEGIN\nCOMMIT\nBEGIN\nCOMMIT\nBEGIN\nCOMMIT\nBEGIN\nCOMMIT\nBEGIN\nCOMMIT\n\
    BEGIN\nCOMMIT\nBEGIN\nCOMMIT\nBEGIN\nCOMMIT\nBEGIN\nCOMMIT\nBEGIN\nCOMMIT\n";

/// Reads the next bytes that a client is sent, behind those that it has; how many there are.
fn read_some(rt: &impl Abort, stream: &TcpStream, sent: &mut Vec<u8>) -> usize {
    let mut reader = stream;
    let mut chunk = [0u8; 4096];
    let n = reader.read(&mut chunk).expect(rt, "the client reads");
    let some = chunk.split_at(n).0;
    sent.extend_from_slice(some).expect(rt, "there is memory");
    n
}

fn send(rt: &impl Abort, stream: &TcpStream, text: &[u8]) {
    let mut writer = stream;
    writer.write_all(text).expect(rt, "the client writes");
}

/// Ends what a client sends, and reads all that comes back.
fn end(rt: &impl Abort, stream: &TcpStream, sent: &mut Vec<u8>) {
    stream
        .shutdown(Shutdown::Write)
        .expect(rt, "the client ends");
    for _ in 0..READS {
        if read_some(rt, stream, sent) == 0 {
            break;
        }
    }
}

/// A client that has sent a text.
fn connect<R: Abort + Net<Listener = TcpListener, Stream = TcpStream>>(
    rt: &R,
    port: u16,
    text: &[u8],
) -> TcpStream {
    let stream = TcpStream::connect(rt, ("127.0.0.1", port)).expect(rt, "the client connects");
    send(rt, &stream, text);
    stream
}

/// Sends a text and its end, and reads all that comes back.
fn ask<R: Abort + Net<Listener = TcpListener, Stream = TcpStream>>(
    rt: &R,
    alloc: Global,
    port: u16,
    text: &[u8],
) -> Vec<u8> {
    let stream = connect(rt, port, text);
    let mut sent = Vec::new(alloc);
    end(rt, &stream, &mut sent);
    sent
}

/// A client asks for rows, another commits meanwhile, and then the first is answered.
fn ask_while_another_commits<R: Abort + Net<Listener = TcpListener, Stream = TcpStream>>(
    rt: &R,
    alloc: Global,
    port: u16,
) -> Sent {
    let first = connect(rt, port, b"BEGIN\n");
    let mut sent = Vec::new(alloc);
    read_some(rt, &first, &mut sent);
    send(rt, &first, b"SELECT * FROM emp\n");
    let second = ask(rt, alloc, port, RENAME);
    end(rt, &first, &mut sent);
    (sent, second)
}

/// A client that goes away after half a line.
fn break_off<R: Abort + Net<Listener = TcpListener, Stream = TcpStream>>(
    rt: &R,
    alloc: Global,
    port: u16,
) -> Vec<u8> {
    let stream = connect(rt, port, HALF);
    let mut sent = Vec::new(alloc);
    read_some(rt, &stream, &mut sent);
    sent
}

/// A client that ends in the middle of a transaction, and one that comes when its session's number has
/// come free again: those in between are no clients.
fn ask_again<R: Abort + Net<Listener = TcpListener, Stream = TcpStream>>(
    rt: &R,
    alloc: Global,
    port: u16,
) -> Sent {
    let first = ask(rt, alloc, port, OPEN);
    for turn in 0..63u8 {
        let text: &[u8] = if turn % 2 == 0 { b"GET " } else { b"" };
        let _ = ask(rt, alloc, port, text);
    }
    let second = ask(rt, alloc, port, LOOK);
    let _ = ask(rt, alloc, port, LOOK);
    (first, second)
}

/// What two clients are sent.
pub(crate) fn run_play<R: Abort + Net<Listener = TcpListener, Stream = TcpStream>>(
    rt: &R,
    alloc: Global,
    port: u16,
    play: Play,
) -> Sent {
    let first = match play {
        Play::Held => return ask_while_another_commits(rt, alloc, port),
        Play::Again => return ask_again(rt, alloc, port),
        Play::InTurn => ask(rt, alloc, port, HIRE),
        Play::Broken => break_off(rt, alloc, port),
        Play::Busy => ask(rt, alloc, port, BUSY),
    };
    (first, ask(rt, alloc, port, LOOK))
}
