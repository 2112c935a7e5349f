//! A line: it is read, its step taken, its receipts kept, and what is sent for it is written.
ghost use Rattle.std.specs.Prelude.{◌≡◌, ◌≢◌, [], ◌∷◌, IfErr, OnErr, OnOk};
ghost use Rattle.serving.specs.Account.{HasRoomFor, IsBroken, Writes};
ghost use Rattle.statement.specs.Writer.{Prints};
ghost use Rattle.serving.specs.Line.{IsBrokenStep, IsRead, IsReported, Sends};
ghost use Rattle.serving.specs.Serving.{reply_of, text_of};

use crate::account::Account;
use crate::answer::Answer;
use crate::served_session::End;
use crate::service::Service;
use crate::step::answer_step;
use crate::write::refused_write;
use growlog::StoreName;
use lines::LineBuffer;
use sessions::{Gate, Place, Readings, Session, pass_gate};
use statement::{Line, read_served};
use std::alloc::Global;
use std::io::Write;
use std::sync::Wait;
use steps::Step;
use values::Refusal;

/// Serves a line: its step is taken, and what is sent for it written. A query first passes the
/// gate; and when its reply is written a commit that ended a transaction passes it, and a line that
/// was refused since the journal is full.
pub(crate) fn serve_line<J: StoreName, R: Wait, C: Readings, G: Gate, W: Write>(
    service: &Service<'_, J, R, G>,
    readings: &mut C,
    session: &mut Session,
    account: &mut Account<J>,
    writer: &mut W,
    line: &LineBuffer,
) -> Result<(), End>
    requires { session.old.schema ≡ J.origin.schema }
    ensures ok { OnOk result (Writes C.may_give (line.now ∷ []) session.old session.new
        account.old account.new (W.contents writer.old) (W.contents writer.new)) }
    ensures err { OnErr result (IsBroken C.may_give (line.now ∷ []) session.old session.new
        account.old account.new (W.contents writer.old) (W.contents writer.new)) }
    ensures why { IfErr result (λ e. e ≢ End.Closed) }
    ensures begun { IfErr result (λ e. e ≢ End.Memory) }
{
    match read(service.alloc, session, line) {
        Ok(Line::Nothing) => Ok(()),
        Ok(Line::Clock(_)) => Ok(()),
        Ok(Line::Step(step)) => serve_step(service, readings, session, account, writer, &step),
        Err(refusal) => tell(account, writer, refused_write(refusal)),
    }
}

/// Reads a line, whose line feed is still on it.
fn read(alloc: Global, session: &Session, line: &LineBuffer) -> Result<Line, Refusal>
    ensures { IsRead session.now.schema session.now.number line.now result }
{
    match line.get() {
        None => Err(Refusal::LineTooLong),
        Some(bytes) => read_served(alloc, bytes, session.schema(), session.number(), 0),
    }
}

/// Takes a step, and writes its reply.
fn serve_step<J: StoreName, R: Wait, C: Readings, G: Gate, W: Write>(
    service: &Service<'_, J, R, G>,
    readings: &mut C,
    session: &mut Session,
    account: &mut Account<J>,
    writer: &mut W,
    step: &Step,
) -> Result<(), End>
    requires { session.old.schema ≡ J.origin.schema }
    ensures ok { OnOk result (Sends C.may_give step.now session.old session.new
        account.old account.new (W.contents writer.old) (W.contents writer.new)) }
    ensures err { OnErr result (IsBrokenStep C.may_give step.now session.old session.new
        account.old account.new (W.contents writer.old) (W.contents writer.new)) }
    ensures why { IfErr result (λ e. e ≢ End.Closed) }
    ensures begun { IfErr result (λ e. e ≢ End.Memory) }
{
    if is_query(step) {
        pass(service, session, Place::Read)?;
    }
    let answer = answer_step(service, readings, session, account, step);
    let place = place_behind(step, &answer);
    tell(account, writer, answer)?;
    if let Some(place) = place {
        pass(service, session, place)?;
    }
    Ok(())
}

/// Returns where the gate is that is passed when an answer is written, if there is one.
fn place_behind<J: StoreName>(step: &Step, answer: &Answer<J>) -> Option<Place> {
    if answer.is_full() {
        Some(Place::Full)
    } else if is_commit(step) && answer.receipt.is_some() {
        Some(Place::Committed)
    } else {
        None
    }
}

/// Passes the gate.
fn pass<J: StoreName, R: Wait, G: Gate>(
    service: &Service<'_, J, R, G>,
    session: &Session,
    place: Place,
) -> Result<(), End>
    ensures why { IfErr result (λ e. e ≢ End.Closed) }
    ensures begun { IfErr result (λ e. e ≢ End.Memory) }
{
    match pass_gate(service.gate, service.rt, session.number(), place) {
        Ok(()) => Ok(()),
        Err(gave_up) => Err(End::Gate(gave_up)),
    }
}

fn is_query(step: &Step) -> bool {
    matches!(step, Step::Select(_, _, _))
}

fn is_commit(step: &Step) -> bool {
    matches!(step, Step::Commit(_, _))
}

/// Writes an answer, and keeps its receipts.
fn tell<J: StoreName, W: Write>(
    account: &mut Account<J>,
    writer: &mut W,
    answer: Answer<J>,
) -> Result<(), End>
    requires { HasRoomFor answer account.old }
    ensures given { IsReported answer account.old account.new }
    ensures wrote { Prints (W.contents writer.old) (W.contents writer.new) result
        (text_of (reply_of answer)) }
    ensures why { IfErr result (λ e. e ≢ End.Closed) }
    ensures begun { IfErr result (λ e. e ≢ End.Memory) }
{
    let wrote = answer.print(writer);
    account.keep(answer);
    match wrote {
        Ok(()) => Ok(()),
        Err(_) => Err(End::Write),
    }
}
