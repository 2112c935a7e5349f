//! A client over any reader and writer.
ghost use Rattle.std.specs.Prelude.{◌≡◌, ◌≢◌, ◌≤◌, [], IfErr, IfOk, IfSome, false, map, true};
ghost use Rattle.std.specs.Io.KnownBytes.{Keeps};
ghost use Rattle.steps.specs.Misfit.{max_session};
ghost use Rattle.statement.specs.Print.{refusal_text};
ghost use Rattle.statement.specs.Writer.{AppendsPrefix};
ghost use Rattle.values.specs.declared.refusal.Refusal.TheVariants.{Memory};
ghost use Rattle.listening.specs.Client.{HasTaken, IsBrokenOff, IsServedWhole, IsUnserved};
ghost use Rattle.listening.specs.Request.{has_line, is_foreign};

use crate::door::Door;
use crate::head::read_first;
use growlog::StoreName;
use serving::{End, Served, serve_session};
use sessions::{Gate, LockedStore, Readings};
use statement::print_refusal;
use std::alloc::Global;
use std::io::{Read, Write};
use std::sync::Wait;
use values::Refusal;

/// Why no line of a client was taken.
#[derive(Clone, Copy, Debug, PartialEq, Eq)]
pub(crate) enum Unserved {
    /// Memory ran out.
    Memory,
    /// The reader failed.
    Read,
    /// It begins as an HTTP request or a TLS handshake does.
    Foreign,
    /// It ended without the line that was awaited.
    NoLine,
}

/// Serves a client as a session with a number, unless it begins as an HTTP request or a TLS
/// handshake does. A browser sends what a web page has it send behind such a beginning, so no line
/// of it is taken, and nothing is sent, whether memory runs out or not. The same holds of a client that
/// sends nothing, where the door awaits a line; else the door is told that there is one.
///
/// Where the session ended as `Closed` all was read and answered; at another end the replies, of
/// which the last may be there in part, are those of the first lines. `Memory` if memory ran out
/// before a line was taken, which is answered where it can be sent; at any other error nothing is
/// sent.
pub(crate) fn serve_client<J: StoreName, R: Wait, I: Read + Drop, W: Write, C: Readings, G: Gate>(
    rt: &R,
    alloc: Global,
    store: &LockedStore<J>,
    gate: &G,
    readings: &mut C,
    number: u8,
    door: &Door,
    reader: I,
    writer: &mut W,
) -> Result<Served<J>, Unserved>
    requires { number ≤ max_session }
    ensures closed { IfOk result (λ s. s.end ≡ End.Closed
        → IsServedWhole C.may_give J.origin.schema number s.refused
        (map (λ r. record { number = r.number; entry = r.entry }) s.receipts.items)
        (I.remaining reader) (W.contents writer.old) (W.contents writer.new)) }
    ensures in_part { IfOk result (λ s. s.end ≢ End.Closed
        → IsBrokenOff C.may_give J.origin.schema number s.refused
        (map (λ r. record { number = r.number; entry = r.entry }) s.receipts.items)
        (I.remaining reader) (W.contents writer.old) (W.contents writer.new)) }
    ensures taken { IfOk result (λ s. HasTaken C.may_give J.origin.schema number s.refused
        (map (λ r. record { number = r.number; entry = r.entry }) s.receipts.items)) }
    ensures unserved { IfErr result (λ why.
        IsUnserved why (W.contents writer.old) (W.contents writer.new)) }
    ensures foreign { IfSome (I.remaining reader) (λ bytes. is_foreign bytes ≡ true
        → IfOk result (λ _. ⊥) × Keeps (W.contents writer.old) (W.contents writer.new)) }
    ensures no_line { door.now.awaits_line ≡ true
        → IfSome (I.remaining reader) (λ bytes. has_line bytes ≡ false
        → IfOk result (λ _. ⊥) × Keeps (W.contents writer.old) (W.contents writer.new)) }
{
    match serve_lines(
        rt, alloc, store, gate, readings, number, door, reader, writer,
    ) {
        Ok(served) => Ok(served),
        Err(Unserved::Memory) => {
            answer_memory(writer);
            Err(Unserved::Memory)
        }
        Err(why) => Err(why),
    }
}

/// Answers that memory ran out. Nothing more can be done where that is not sent.
fn answer_memory<W: Write>(writer: &mut W)
    ensures { AppendsPrefix (W.contents writer.old) (W.contents writer.new) (refusal_text Memory) }
{
    let _ = print_refusal(writer, &Refusal::Memory);
    let _ = writer.flush();
}

/// Serves the lines of a client, whose first bytes are looked at before anything else is done. At an
/// error nothing was written.
fn serve_lines<J: StoreName, R: Wait, I: Read + Drop, W: Write, C: Readings, G: Gate>(
    rt: &R,
    alloc: Global,
    store: &LockedStore<J>,
    gate: &G,
    readings: &mut C,
    number: u8,
    door: &Door,
    reader: I,
    writer: &mut W,
) -> Result<Served<J>, Unserved>
    ensures closed { IfOk result (λ s. s.end ≡ End.Closed
        → IsServedWhole C.may_give J.origin.schema number s.refused
        (map (λ r. record { number = r.number; entry = r.entry }) s.receipts.items)
        (I.remaining reader) (W.contents writer.old) (W.contents writer.new)) }
    ensures in_part { IfOk result (λ s. s.end ≢ End.Closed
        → IsBrokenOff C.may_give J.origin.schema number s.refused
        (map (λ r. record { number = r.number; entry = r.entry }) s.receipts.items)
        (I.remaining reader) (W.contents writer.old) (W.contents writer.new)) }
    ensures unserved { IfErr result (λ why.
        Keeps (W.contents writer.old) (W.contents writer.new)) }
    ensures foreign { IfSome (I.remaining reader) (λ bytes. is_foreign bytes ≡ true
        → IfOk result (λ _. ⊥) × IfErr result (λ why. why ≢ Unserved.Memory)) }
    ensures no_line { door.now.awaits_line ≡ true
        → IfSome (I.remaining reader) (λ bytes. has_line bytes ≡ false
        → IfOk result (λ _. ⊥) × IfErr result (λ why. why ≢ Unserved.Memory)) }
{
    let mut reader = reader;
    let first = match read_first(&mut reader, door.awaits_line) {
        Ok(first) => first,
        Err(why) => return Err(why),
    };
    door.enter(rt);
    let Ok(mut session) = store.session(alloc, number) else {
        return Err(Unserved::Memory);
    };
    let mut whole = first.as_slice().chain(reader);
    let served = serve_session(
        rt,
        alloc,
        &mut whole,
        writer,
        &mut session,
        store,
        gate,
        readings,
    );
    begun_session(served)
}

/// Returns a served session, unless memory ran out before a line of it was taken.
fn begun_session<J: StoreName>(served: Served<J>) -> Result<Served<J>, Unserved>
    requires { served.end ≡ End.Memory → served.receipts.items ≡ [] }
    ensures ok { IfOk result (λ s. s ≡ served) }
    ensures err { IfErr result (λ why. served.end ≡ End.Memory) }
{
    if served.end != End::Memory {
        return Ok(served);
    }
    let Served {
        receipts,
        refused: _,
        end: _,
    } = served;
    receipts.destroy_empty();
    Err(Unserved::Memory)
}
