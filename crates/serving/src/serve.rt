//! A session over a reader and a writer, line by line to its end.
ghost use Rattle.std.specs.Prelude.{◌≡◌, ◌≢◌, ◌≤◌, ◌<◌, None, OnErr, OnOk, IfErr, IfOk, Some, [], length, map, take};
ghost use Rattle.std.specs.Io.KnownBytes.{Keeps};
ghost use Rattle.lines.specs.Partial.{Fits};
ghost use Rattle.lines.specs.Lines.{lines_from};
ghost use Rattle.serving.specs.Account.{Breaks, Feeds, IsBroken, Writes};
ghost use Rattle.serving.specs.Ends.{Ends, EndsInPart, HasNotBegun, IsUnserved};
ghost use Rattle.serving.specs.ServedSession.{IsServed, IsServedInPart};
ghost use Rattle.serving.specs.Progress.{after};

use crate::account::Account;
use crate::serve_line::serve_line;
use crate::served_session::{End, Served};
use crate::service::Service;
use growlog::StoreName;
use lines::{CHUNK, LineBuffer, MOST_READS, line_length};
use sessions::{Gate, LockedStore, Readings, Session};
use std::alloc::Global;
use std::io::{Read, Write};
use std::sync::Wait;

/// Serves a session: reads lines to the reader's end, takes the step of each, and writes its reply.
/// What was written is flushed before more is read. A SELECT with no transaction open is a begin,
/// the read and a rollback. An open transaction is rolled back at the end.
///
/// At `Closed` all was read and answered. At another end the replies, of which the last may be
/// there in part, are those of the first lines. At `Memory` nothing was read, written or taken. At
/// every end no transaction is open, and the session has the number of the last receipt, which is among
/// those that are returned.
///
/// A line is answered `E13 journal full`, or `E4 no transaction` to a COMMIT with a transaction open,
/// only where the store's book refused it so: that refusal is among those that are returned.
pub fn serve_session<J: StoreName, R: Wait, I: Read, W: Write, C: Readings, G: Gate>(
    rt: &R,
    alloc: Global,
    reader: &mut I,
    writer: &mut W,
    session: &mut Session,
    store: &LockedStore<J>,
    gate: &G,
    readings: &mut C,
) -> Served<J>
    requires tables { session.old.schema ≡ J.origin.schema }
    requires none { session.old.transaction ≡ None }
    ensures closed { result.end ≡ End.Closed
        → IsServed C.may_give session.old.schema session.old.number
        (map (λ r. record { number = r.number; entry = r.entry }) result.receipts.items)
        (after session.old.receipt None) session.new.receipt result.refused
        (I.remaining reader.old) (I.remaining reader.new)
        (W.contents writer.old) (W.contents writer.new) }
    ensures in_part { result.end ≢ End.Closed
        → IsServedInPart C.may_give session.old.schema session.old.number
        (map (λ r. record { number = r.number; entry = r.entry }) result.receipts.items)
        (after session.old.receipt None) session.new.receipt result.refused
        (I.remaining reader.old) (I.remaining reader.new)
        (W.contents writer.old) (W.contents writer.new) }
    ensures unserved { result.end ≡ End.Memory → IsUnserved
        (map (λ r. record { number = r.number; entry = r.entry }) result.receipts.items)
        (I.remaining reader.old) (I.remaining reader.new)
        (W.contents writer.old) (W.contents writer.new) }
    ensures ended { session.new.transaction ≡ None }
    ensures number { session.new.number ≡ session.old.number }
    ensures same_tables { session.new.schema ≡ session.old.schema }
{
    let mut account = Account::new(alloc);
    let service = Service {
        rt,
        alloc,
        store,
        gate,
    };
    let end = serve(&service, reader, writer, readings, session, &mut account);
    let _ = session.rollback();
    let (receipts, refused) = account.into_parts();
    Served {
        receipts,
        refused,
        end,
    }
}

fn serve<J: StoreName, R: Wait, I: Read, W: Write, C: Readings, G: Gate>(
    service: &Service<'_, J, R, G>,
    reader: &mut I,
    writer: &mut W,
    readings: &mut C,
    session: &mut Session,
    account: &mut Account<J>,
) -> End
    requires { session.old.schema ≡ J.origin.schema }
    ensures closed { result ≡ End.Closed → Ends C.may_give session.old session.new account.old account.new
        (I.remaining reader.old) (I.remaining reader.new)
        (W.contents writer.old) (W.contents writer.new) }
    ensures in_part { result ≢ End.Closed → EndsInPart C.may_give
        session.old session.new account.old account.new (I.remaining reader.old) (I.remaining reader.new)
        (W.contents writer.old) (W.contents writer.new) }
    ensures unserved { result ≡ End.Memory → account.new.given ≡ account.old.given
        × HasNotBegun (I.remaining reader.old) (I.remaining reader.new)
        (W.contents writer.old) (W.contents writer.new) }
{
    let Ok(mut line) = LineBuffer::new(service.alloc) else {
        return End::Memory;
    };
    let mut chunk = [0u8; CHUNK];
    for _turn in 0..MOST_READS {
        let n = match reader.read(&mut chunk) {
            Ok(n) => n,
            Err(_) => return End::Read,
        };
        if n == 0 {
            match finish(service, readings, session, account, writer, &line) {
                Ok(()) => return End::Closed,
                Err(end) => return end,
            }
        }
        match feed(
            service,
            readings,
            session,
            account,
            writer,
            &mut line,
            chunk.split_at(n).0,
        ) {
            Ok(()) => {}
            Err(end) => return end,
        }
    }
    End::Read
}

/// Takes the next bytes, and flushes what was written for the lines that they end.
fn feed<J: StoreName, R: Wait, C: Readings, G: Gate, W: Write>(
    service: &Service<'_, J, R, G>,
    readings: &mut C,
    session: &mut Session,
    account: &mut Account<J>,
    writer: &mut W,
    line: &mut LineBuffer,
    bytes: &[u8],
) -> Result<(), End>
    requires tables { session.old.schema ≡ J.origin.schema }
    requires fits { Fits line.old }
    ensures ok { OnOk result (Feeds C.may_give line.old line.new bytes.now session.old session.new
        account.old account.new (W.contents writer.old) (W.contents writer.new)) }
    ensures err { OnErr result (Breaks C.may_give line.old bytes.now session.old session.new
        account.old account.new (W.contents writer.old) (W.contents writer.new)) }
    ensures why { IfErr result (λ e. e ≢ End.Closed) }
    ensures begun { IfErr result (λ e. e ≢ End.Memory) }
    ensures tables { session.new.schema ≡ session.old.schema }
    ensures fits { OnOk result (Fits line.new) }
{
    let mut rest = bytes;
    while !rest.is_empty() {
        match take_line(service, readings, session, account, writer, line, rest) {
            Ok(n) => rest = rest.split_at(n).1,
            Err(end) => return Err(end),
        }
    }
    flush(writer)
}

/// Takes the bytes up to and including the first line feed, or all if there is none. Returns their
/// number.
fn take_line<J: StoreName, R: Wait, C: Readings, G: Gate, W: Write>(
    service: &Service<'_, J, R, G>,
    readings: &mut C,
    session: &mut Session,
    account: &mut Account<J>,
    writer: &mut W,
    line: &mut LineBuffer,
    bytes: &[u8],
) -> Result<usize, End>
    requires tables { session.old.schema ≡ J.origin.schema }
    requires fits { Fits line.old }
    ensures ok { IfOk result (λ n. Feeds C.may_give line.old line.new (take n bytes.now) session.old
        session.new account.old account.new (W.contents writer.old) (W.contents writer.new)) }
    ensures err { OnErr result (Breaks C.may_give line.old bytes.now session.old session.new
        account.old account.new (W.contents writer.old) (W.contents writer.new)) }
    ensures why { IfErr result (λ e. e ≢ End.Closed) }
    ensures begun { IfErr result (λ e. e ≢ End.Memory) }
    ensures tables { session.new.schema ≡ session.old.schema }
    ensures fits { OnOk result (Fits line.new) }
    ensures within { IfOk result (λ n. n ≤ length bytes.now) }
    ensures some { IfOk result (λ n. 0 < length bytes.now → 0 < n) }
{
    let n = line_length(bytes);
    line.add(bytes.split_at(n).0);
    if n == bytes.len() {
        return Ok(n);
    }
    line.end();
    match serve_line(service, readings, session, account, writer, line) {
        Ok(()) => {
            line.clear();
            Ok(n + 1)
        }
        Err(end) => Err(end),
    }
}

/// Serves a last line without a line feed, if it has a byte.
fn finish<J: StoreName, R: Wait, C: Readings, G: Gate, W: Write>(
    service: &Service<'_, J, R, G>,
    readings: &mut C,
    session: &mut Session,
    account: &mut Account<J>,
    writer: &mut W,
    line: &LineBuffer,
) -> Result<(), End>
    requires { session.old.schema ≡ J.origin.schema }
    ensures ok { OnOk result (Writes C.may_give (lines_from line.now []) session.old session.new
        account.old account.new (W.contents writer.old) (W.contents writer.new)) }
    ensures err { OnErr result (IsBroken C.may_give (lines_from line.now []) session.old session.new
        account.old account.new (W.contents writer.old) (W.contents writer.new)) }
    ensures why { IfErr result (λ e. e ≢ End.Closed) }
    ensures begun { IfErr result (λ e. e ≢ End.Memory) }
{
    if !line.has_byte() {
        return Ok(());
    }
    match serve_line(service, readings, session, account, writer, line) {
        Ok(()) => flush(writer),
        Err(end) => Err(end),
    }
}

/// Passes on what was written.
fn flush<W: Write>(writer: &mut W) -> Result<(), End>
    ensures kept { Keeps (W.contents writer.old) (W.contents writer.new) }
    ensures why { IfErr result (λ e. e ≢ End.Closed) }
    ensures begun { IfErr result (λ e. e ≢ End.Memory) }
{
    if writer.flush().is_err() {
        return Err(End::Write);
    }
    Ok(())
}
