//! A round under way.
ghost use Rattle.std.specs.Prelude.{◌≡◌, ◌<◌, ◌∷◌, [], Err, IfErr, IfOk, IsErrAnd, MatchOption, OnOk, false, length, map, true};
ghost use Rattle.migrator.specs.Fault.{cause_of};
ghost use Rattle.migrator.specs.Round.{IsOver, IsPart, IsWhole};

use crate::bench::{Answer, Desk, pass_and_pack};
use crate::fault::{Cause, MigrateFault};
use crate::name::RoundName;
use crate::request_list::RequestList;
use crate::stop::Stop;
use crate::store_calls::install_at;
use crate::task::{Done, Task};
use growlog::StoreName;
use keyrange::Rect;
use sessions::{Gate, LockedStore, Receipt, View, find_job};
use std::alloc::Global;
use std::marker::{Model, PhantomData};
use std::sync::Wait;

/// The number of a round's first worker, and of the thread that packs where there are no workers.
const FIRST_WORKER: u8 = 1;

/// What a round has asked for, and its receipts so far: a begin, and installs of what its view shows
/// unpacked. Contracts see the receipts as numbers and entries.
pub(crate) struct Round<J: StoreName, N: RoundName> {
    /// The rectangle of the node that was asked for last.
    after: Option<Rect>,
    asked: RequestList,
    receipts: Vec<Receipt<J>>,
    of: PhantomData<N>,
}

impl<J: StoreName, N: RoundName> Model for Round<J, N> {
    ghost use Rattle.std.specs.Prelude.{map};
    ghost use Rattle.migrator.specs.Round.{IsUnderWay, RoundState};

    ghost Value = { RoundState };

    ghost view = { λ r. record {
      after = r.after;
      asked = r.asked;
      given = map (λ r. (r.number, r.entry)) r.receipts.items;
    } };

    ghost invariant = { λ r. IsUnderWay N.begin N.shown record {
      after = r.after;
      asked = r.asked;
      given = map (λ r. (r.number, r.entry)) r.receipts.items;
    } };
}

impl<J: StoreName, N: RoundName> Round<J, N> {
    /// Makes a round that has asked for nothing yet, with the receipt of its begin.
    pub(crate) fn new(alloc: Global, receipts: Vec<Receipt<J>>) -> Round<J, N>
        requires { map (λ r. (r.number, r.entry)) receipts.items ≡ N.begin ∷ [] }
    {
        Round {
            after: None,
            asked: RequestList::new(alloc),
            receipts,
            of: PhantomData,
        }
    }

    /// Returns the task of packing the next node that the view shows unpacked, if there is one;
    /// from then on it counts as asked for.
    fn next(&mut self, view: &View) -> Result<Option<Task<N>>, Stop>
        requires { view.now ≡ N.shown }
        ensures { IfOk result (λ found. MatchOption found
            (IsOver N.shown self.new.after) (λ _. Unit {0})) }
    {
        let Some(job) = find_job(view, self.after.as_ref())? else {
            return Ok(None);
        };
        let asked = job.rect().copy()?;
        let after = job.rect().copy()?;
        self.asked.push(asked)?;
        self.after = Some(after);
        Ok(Some(Task::new(job)))
    }

    /// Asks a worker for the next node that the view shows unpacked; false if there is none.
    fn ask<R: Wait>(&mut self, rt: &R, view: &View, desk: &Desk<N>) -> Result<bool, Cause>
        requires { view.now ≡ N.shown }
        ensures { IfOk result (λ asked. asked ≡ false → IsOver N.shown self.new.after) }
    {
        match self.next(view)? {
            None => Ok(false),
            Some(task) => match desk.tasks.send(rt, task) {
                Ok(()) => Ok(true),
                Err(_) => Err(desk.why_ended(rt)),
            },
        }
    }

    /// Asks for the next node if fewer than `room` are unanswered; false if it asked for none.
    fn ask_within<R: Wait>(
        &mut self,
        rt: &R,
        view: &View,
        room: usize,
        desk: &Desk<N>,
    ) -> Result<bool, Cause>
        requires room { 0 < room }
        requires view { view.now ≡ N.shown }
        ensures { IfOk result (λ asked. asked ≡ false → length self.new.asked ≡ 0
            → IsOver N.shown self.new.after) }
    {
        if self.asked.len() >= room {
            return Ok(false);
        }
        self.ask(rt, view, desk)
    }

    /// Waits for an answer, and installs what was packed.
    fn take_in<R: Wait>(
        &mut self,
        rt: &R,
        store: &LockedStore<J>,
        desk: &Desk<N>,
    ) -> Result<(), Cause> {
        match desk.answers.recv(rt) {
            Ok(answer) => self.take(rt, store, answer),
            Err(_) => Err(Cause::Worker),
        }
    }

    /// Installs what a worker has packed, or returns why it has not.
    fn take<R: Wait>(
        &mut self,
        rt: &R,
        store: &LockedStore<J>,
        answer: Answer<N>,
    ) -> Result<(), Cause>
        ensures { IfErr answer (λ stop. result ≡ Err (cause_of stop)) }
    {
        match answer {
            Ok(done) => self.install(rt, store, done),
            Err(stop) => Err(Cause::from(stop)),
        }
    }

    /// Installs what was packed, if it was asked for and has not come before.
    fn install<R: Wait>(
        &mut self,
        rt: &R,
        store: &LockedStore<J>,
        done: Done<N>,
    ) -> Result<(), Cause> {
        let Some(place) = self.asked.place_of(done.rect()) else {
            return Err(Cause::Worker);
        };
        self.receipts.reserve(1)?;
        let receipt = install_at(rt, store, done.into_packed())?;
        self.receipts.push_reserved(receipt);
        self.asked.remove(place);
        Ok(())
    }

    /// Asks for all nodes that the view shows unpacked, at most `room` at a time, and installs what
    /// comes.
    pub(crate) fn pack<R: Wait>(
        &mut self,
        rt: &R,
        store: &LockedStore<J>,
        view: &View,
        room: usize,
        desk: &Desk<N>,
    ) -> Result<(), Cause>
        requires room { 0 < room }
        requires view { view.now ≡ N.shown }
        ensures { OnOk result (IsWhole N.begin N.shown self.new.given) }
    {
        for _ in rt.forever() {
            if self.ask_within(rt, view, room, desk)? {
                continue;
            }
            if self.asked.len() == 0 {
                return Ok(());
            }
            self.take_in(rt, store, desk)?;
        }
        // Not reached: the loop does not end by itself.
        Err(Cause::Worker)
    }

    /// Packs all nodes that the view shows unpacked on this thread, as the only worker, and installs
    /// each before it packs the next.
    pub(crate) fn pack_here<R: Wait, G: Gate>(
        &mut self,
        rt: &R,
        alloc: Global,
        store: &LockedStore<J>,
        view: &View,
        gate: &G,
    ) -> Result<(), Cause>
        requires { view.now ≡ N.shown }
        ensures { OnOk result (IsWhole N.begin N.shown self.new.given) }
    {
        for _ in rt.forever() {
            if !self.pack_next(rt, alloc, store, view, gate)? {
                return Ok(());
            }
        }
        // Not reached: the loop does not end by itself.
        Err(Cause::Worker)
    }

    /// Packs and installs the next node that the view shows unpacked; false if there is none, and
    /// all were installed.
    fn pack_next<R: Wait, G: Gate>(
        &mut self,
        rt: &R,
        alloc: Global,
        store: &LockedStore<J>,
        view: &View,
        gate: &G,
    ) -> Result<bool, Cause>
        requires { view.now ≡ N.shown }
        ensures { IfOk result (λ packed.
            packed ≡ false → IsWhole N.begin N.shown self.new.given) }
    {
        let Some(task) = self.next(view)? else {
            if self.asked.len() == 0 {
                return Ok(false);
            }
            return Err(Cause::Worker);
        };
        let answer = pass_and_pack(rt, alloc, gate, FIRST_WORKER, task);
        self.take(rt, store, answer)?;
        Ok(true)
    }

    /// Tells whether all that the view shows unpacked was asked for and installed.
    fn is_whole(&mut self, view: &View) -> Result<bool, Cause>
        requires { view.now ≡ N.shown }
        ensures { IfOk result (λ whole.
            whole ≡ true → IsWhole N.begin N.shown self.new.given) }
    {
        let None = self.next(view)? else {
            return Ok(false);
        };
        Ok(self.asked.len() == 0)
    }

    /// Ends the round once it was packed, and returns its receipts. Where packing ended by a cause,
    /// the round is broken off by that.
    pub(crate) fn finish(
        self,
        view: &View,
        packed: Result<(), Cause>,
    ) -> Result<Vec<Receipt<J>>, MigrateFault<J>>
        requires { view.now ≡ N.shown }
        ensures ok { IfOk result (λ rs.
            IsWhole N.begin N.shown (map (λ r. (r.number, r.entry)) rs.items)) }
        ensures err { IfErr result (λ f.
            IsPart N.begin N.shown (map (λ r. (r.number, r.entry)) f.receipts.items)) }
        ensures cause { IfErr packed (λ cause. IsErrAnd result (λ f. f.cause ≡ cause)) }
    {
        let mut round = self;
        if let Err(cause) = packed {
            return Err(round.break_off(cause));
        }
        match round.is_whole(view) {
            Ok(true) => Ok(round.into_receipts()),
            Ok(false) => Err(round.break_off(Cause::Worker)),
            Err(cause) => Err(round.break_off(cause)),
        }
    }

    /// Breaks the round off, and hands back its receipts.
    fn break_off(self, cause: Cause) -> MigrateFault<J>
        ensures part { IsPart N.begin N.shown
            (map (λ r. (r.number, r.entry)) result.receipts.items) }
        ensures cause { result.cause ≡ cause }
    {
        MigrateFault {
            cause,
            receipts: self.into_receipts(),
        }
    }

    /// Returns the receipts.
    fn into_receipts(self) -> Vec<Receipt<J>>
        ensures { map (λ r. (r.number, r.entry)) result.items ≡ self.given }
    {
        let Round {
            after: _,
            asked: _,
            receipts,
            of: _,
        } = self;
        receipts
    }
}
