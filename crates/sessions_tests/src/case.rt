//! Sessions that are served round a store of their own.
ghost use Rattle.std.specs.Prelude.{true};

use crate::cut::Cut;
use crate::pipe::Pipe;
use crate::scene::Audit;
use crate::step::keep;
use growlog::StoreName;
use serving::{End, Readings, Served, serve_session};
use sessions::{Gate, LockedStore, Place, Receipt};
use std::alloc::Global;
use std::process::Abort;
use std::sync::Wait;
use values::Instant;

/// A session that is served: its number, what it reads, how far that and its replies can go, what
/// is written until it ends, why it ends, how many receipts it hands back, and how many reads it had
/// left.
#[derive(Clone, Copy)]
pub(crate) struct Visit<'a> {
    pub(crate) number: u8,
    pub(crate) text: &'a str,
    pub(crate) limits: Limits,
    pub(crate) replies: &'a str,
    pub(crate) end: Ended,
    pub(crate) receipts: usize,
    pub(crate) reads_left: usize,
}

/// Why a session ends.
#[derive(Clone, Copy, PartialEq, Eq)]
pub(crate) enum Ended {
    Closed,
    Read,
    Write,
    Gate,
    Memory,
}

/// Sessions that are served one after another, and what the store shows that is closed with their
/// receipts.
#[derive(Clone, Copy)]
pub(crate) struct Case<'a> {
    pub(crate) what: &'static str,
    pub(crate) visits: &'a [Visit<'a>],
    pub(crate) shows: Audit,
}

/// How many bytes are read at most at a call, and the calls after which the reader fails; how many bytes are written and
/// how often they are passed on until the writer fails; where the gate gives up, and how often it
/// looks before.
#[derive(Clone, Copy)]
pub(crate) struct Limits {
    pub(crate) most: usize,
    pub(crate) reads: usize,
    pub(crate) room: usize,
    pub(crate) flushes: usize,
    pub(crate) shut: Option<Place>,
    pub(crate) turns: u32,
}

/// Nothing fails.
pub(crate) const NONE: Limits = Limits {
    most: 10_000,
    reads: 1000,
    room: 10_000,
    flushes: 1000,
    shut: None,
    turns: 1,
};

/// The gate of one session. At one place, or at none, it never opens, and gives up after so many
/// turns; it gives up at once where another number is named.
#[derive(Clone, Copy)]
struct Door {
    number: u8,
    shut: Option<Place>,
    turns: u32,
}

impl Gate for Door {
    fn pass<R: Wait>(&self, _rt: &R, who: u8, place: Place) -> bool {
        if who != self.number {
            return false;
        }
        for _ in 0..self.turns {
            if self.shut != Some(place) {
                return true;
            }
        }
        false
    }
}

/// Readings that rise by one, from 10 on.
#[derive(Clone, Copy)]
struct Ticks {
    next: Instant,
}

impl Readings for Ticks {
    ghost may_give = { λ t. true };

    fn reading(&mut self) -> Instant {
        let now = self.next;
        self.next = now.saturating_add(1);
        now
    }
}

/// Serves a session with a number. When it has ended, it has no transaction open.
pub(crate) fn serve<J: StoreName, R: Abort + Wait, G: Gate>(
    rt: &R,
    alloc: Global,
    store: &LockedStore<J>,
    number: u8,
    gate: &G,
    reader: &mut Cut<'_>,
    writer: &mut Pipe,
) -> Served<J> {
    let session = store.session(alloc, number);
    let mut session = session.expect(rt, "the number is at most 64");
    let mut ticks = Ticks { next: 10 };
    serve_session(
        rt,
        alloc,
        reader,
        writer,
        &mut session,
        store,
        gate,
        &mut ticks,
    )
}

/// The receipts of a served session, and why it ended, in the tables' words.
pub(crate) fn parts_of<J: StoreName>(served: Served<J>) -> (Vec<Receipt<J>>, Ended) {
    let Served {
        receipts,
        refused: _,
        end,
    } = served;
    let end = match end {
        End::Closed => Ended::Closed,
        End::Read => Ended::Read,
        End::Write => Ended::Write,
        End::Gate(_) => Ended::Gate,
        End::Memory => Ended::Memory,
    };
    (receipts, end)
}

/// Serves the session of a visit, and keeps its receipts: it is sent its replies, leaves as many
/// reads, hands back as many receipts, and ends as it must.
fn serve_visit<J: StoreName, R: Abort + Wait>(
    rt: &R,
    alloc: Global,
    store: &LockedStore<J>,
    visit: &Visit<'_>,
    receipts: &mut Vec<Receipt<J>>,
) -> bool {
    let mut reader = Cut {
        rest: visit.text.as_bytes(),
        most: visit.limits.most,
        calls: visit.limits.reads,
    };
    let mut writer = Pipe::new(alloc);
    writer.room = visit.limits.room;
    writer.flushes = visit.limits.flushes;
    let door = Door {
        number: visit.number,
        shut: visit.limits.shut,
        turns: visit.limits.turns,
    };
    let served = serve(
        rt,
        alloc,
        store,
        visit.number,
        &door,
        &mut reader,
        &mut writer,
    );
    let (taken, end) = parts_of(served);
    let is_sent = writer.taken.as_slice() == visit.replies.as_bytes();
    let is_ended = end == visit.end && taken.len() == visit.receipts;
    keep(rt, receipts, taken);
    is_sent && is_ended && reader.calls == visit.reads_left
}

/// Serves the sessions of a case, one after another.
pub(crate) fn serve_case<J: StoreName, R: Abort + Wait>(
    rt: &R,
    alloc: Global,
    store: &LockedStore<J>,
    case: &Case<'_>,
    receipts: &mut Vec<Receipt<J>>,
) -> Audit {
    for visit in case.visits {
        assert!(rt;
            serve_visit(rt, alloc, store, visit, receipts),
            "{}",
            case.what
        );
    }
    case.shows
}
