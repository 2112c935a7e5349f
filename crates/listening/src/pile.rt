//! What sessions and rounds hand over.
ghost use Rattle.std.specs.Prelude.{◌≡◌, ◌++◌, ◌&&◌, ◌||◌, [], Bool, IfOk, List, None, OnErr, OnOk, drop, false, is_none, map, replicate, true};
ghost use Rattle.std.specs.List.{list_all};
ghost use Rattle.serving.specs.Progress.{Given};
ghost use Rattle.runs.specs.Run.{last_of};
ghost use Rattle.steps.specs.Misfit.{max_session};
ghost use Rattle.listening.specs.Pile.{AreOfRun, IsOf, counted, goes_on, handed_by, has_full_of, is_again, is_within, one_more, rises_from, with_last};

use crate::limit::Limit;
use growlog::StoreName;
use sessions::Receipt;
use std::alloc::{AllocError, Global};
use std::marker::Model;
use std::sync::{Mutex, Wait};
use steps::MAX_SESSION;

/// Whose receipts are handed over.
#[derive(Clone, Copy, Debug, PartialEq, Eq)]
pub(crate) enum Origin {
    /// Those of a connection of the session with a number, which hands over once; whether a line of it
    /// was refused by the store's book since the journal is full, and whether the end of a transaction
    /// was since it is not open there.
    Session {
        number: u8,
        has_full: bool,
        has_not_open: bool,
    },
    /// Those of a round beside the sessions.
    Service,
}

/// The receipts that sessions and rounds have handed over, and whether they can be those of one run:
/// the receipts of each session rise from connection to connection, and no transaction that it had
/// open was refused as one that is not. Where they can, its type keeps that they are the receipts of
/// lines of sessions, with these last numbers, and of the service, how many connections they are of,
/// that no session has two unless one has handed over again, and that a line was refused for a full
/// journal only if that is noted.
pub(crate) struct Pile<J: StoreName> {
    receipts: Vec<Receipt<J>>,
    /// By session, from 1 on: the number of its last receipt, 0 before the first, where a connection
    /// of it has handed over.
    lasts: Vec<Option<u64>>,
    /// How many connections have handed over.
    connections: u64,
    is_run: bool,
    again: bool,
    has_full: bool,
}

impl<J: StoreName> Model for Pile<J> {
    ghost use Rattle.std.specs.Prelude.{map};
    ghost use Rattle.listening.specs.Pile.{IsPile, PileState};

    ghost Value = { PileState };

    ghost view = { λ p. record {
      given = map (λ r. record { number = r.number; entry = r.entry }) p.receipts.items;
      lasts = p.lasts.items;
      connections = p.connections;
      is_run = p.is_run;
      again = p.again;
      has_full = p.has_full;
    } };

    ghost invariant = { λ p. IsPile J.origin.schema record {
      given = map (λ r. record { number = r.number; entry = r.entry }) p.receipts.items;
      lasts = p.lasts.items;
      connections = p.connections;
      is_run = p.is_run;
      again = p.again;
      has_full = p.has_full;
    } };
}

impl<J: StoreName> Pile<J> {
    /// Makes an empty pile with room for some receipts.
    pub(crate) fn with_room(alloc: Global, receipts: usize) -> Result<Pile<J>, AllocError>
        ensures given { IfOk result (λ pile. pile.given ≡ []) }
        ensures lasts { IfOk result (λ pile. pile.lasts ≡ replicate max_session None) }
        ensures connections { IfOk result (λ pile. pile.connections ≡ 0) }
        ensures run { IfOk result (λ pile. pile.is_run ≡ true) }
        ensures again { IfOk result (λ pile. pile.again ≡ false) }
        ensures full { IfOk result (λ pile. pile.has_full ≡ false) }
    {
        let mut lasts = Vec::new(alloc);
        lasts.resize(usize::from(MAX_SESSION), None)?;
        Ok(Pile {
            receipts: Vec::with_capacity(alloc, receipts)?,
            lasts,
            connections: 0,
            is_run: true,
            again: false,
            has_full: false,
        })
    }

    /// Adds receipts. At `Err` there is no room for them, and nothing has changed.
    pub(crate) fn add(
        &mut self,
        origin: Origin,
        receipts: &mut Vec<Receipt<J>>,
    ) -> Result<(), AllocError>
        requires { IsOf J.origin.schema origin
            (map (λ r. record { number = r.number; entry = r.entry }) receipts.old.items) }
        ensures given { OnOk result (self.new.given ≡ self.old.given
            ++ map (λ r. record { number = r.number; entry = r.entry }) receipts.old.items) }
        ensures lasts { OnOk result (self.new.lasts ≡ counted self.old.lasts origin
            (map (λ r. record { number = r.number; entry = r.entry }) receipts.old.items)) }
        ensures connections { OnOk result
            (self.new.connections ≡ one_more self.old.connections origin) }
        ensures run { OnOk result (self.new.is_run ≡ (self.old.is_run
            && goes_on self.old.lasts self.old.connections origin
            (map (λ r. record { number = r.number; entry = r.entry }) receipts.old.items))) }
        ensures again { OnOk result
            (self.new.again ≡ (self.old.again || is_again self.old.lasts origin)) }
        ensures full { OnOk result
            (self.new.has_full ≡ (self.old.has_full || has_full_of origin)) }
        ensures moved { OnOk result (receipts.new.items ≡ []) }
        ensures err { OnErr result (self.new ≡ self.old) }
        ensures kept { OnErr result (receipts.new.items ≡ receipts.old.items) }
    {
        let goes_on = self.goes_on(origin, receipts.as_slice());
        let again = self.is_again(origin);
        let last = self.last_with(origin, receipts.as_slice());
        let connections = one_more(self.connections, origin);
        self.receipts.append(receipts)?;
        count(&mut self.lasts, origin, last);
        self.connections = connections;
        self.is_run &= goes_on;
        self.again |= again;
        self.has_full |= has_full(origin);
        Ok(())
    }

    /// Returns what is known of a session: the number of its last receipt, 0 before the first, where a
    /// connection of it has handed over.
    fn handed_by(&self, number: u8) -> Option<u64>
        ensures { result ≡ handed_by self.now.lasts number }
    {
        match self.lasts.get(usize::from(number).saturating_sub(1)) {
            Some(last) => *last,
            None => None,
        }
    }

    /// Tells whether receipts can be those of one run with those that were handed over: one more
    /// connection can be counted, a session's rise behind those of its connections before, and its
    /// transactions were open where they ended.
    fn goes_on(&self, origin: Origin, receipts: &[Receipt<J>]) -> bool
        ensures { result ≡ goes_on self.now.lasts self.now.connections origin
            (map (λ r. record { number = r.number; entry = r.entry }) receipts.now) }
    {
        match origin {
            Origin::Session {
                number,
                has_full: _,
                has_not_open,
            } => {
                self.connections < u64::MAX
                    && number > 0
                    && !has_not_open
                    && are_rising(self.handed_by(number).unwrap_or(0), receipts)
            }
            Origin::Service => true,
        }
    }

    /// Tells whether a connection of the session has handed over before.
    fn is_again(&self, origin: Origin) -> bool
        ensures { result ≡ is_again self.now.lasts origin }
    {
        match origin {
            Origin::Session { number, .. } => self.handed_by(number).is_some(),
            Origin::Service => false,
        }
    }

    /// Returns the number of a session's last receipt, these among them.
    fn last_with(&self, origin: Origin, receipts: &[Receipt<J>]) -> u64
        ensures { counted self.now.lasts origin
            (map (λ r. record { number = r.number; entry = r.entry }) receipts.now)
            ≡ with_last self.now.lasts origin result }
    {
        match origin {
            Origin::Session { number, .. } => {
                last_number(self.handed_by(number).unwrap_or(0), receipts)
            }
            Origin::Service => 0,
        }
    }

    /// Returns the receipts, whether they are those of one run whose connections are within a limit, and
    /// whether a line was refused since the journal is full.
    pub(crate) fn into_receipts(self, limit: Limit) -> (Vec<Receipt<J>>, bool, bool)
        ensures given { map (λ r. record { number = r.number; entry = r.entry }) result.0.items
            ≡ self.given }
        ensures run { result.1 ≡ (self.is_run && is_within limit self) }
        ensures full { result.2 ≡ self.has_full }
        ensures parts { self.is_run ≡ true
            → AreOfRun J.origin.schema self.lasts self.connections self.again self.has_full self.given }
    {
        let is_within = self.is_within(limit);
        let Pile {
            receipts,
            lasts: _,
            connections: _,
            is_run,
            again: _,
            has_full,
        } = self;
        (receipts, is_run && is_within, has_full)
    }

    /// Tells whether no more connections have handed over than a limit has it.
    fn is_within(&self, limit: Limit) -> bool
        ensures { result ≡ is_within limit self.now }
    {
        match limit {
            Limit::Sessions(most) => {
                !self.again && are_none(beyond(self.lasts.as_slice(), usize::from(most)))
            }
            Limit::Connections(most) => most == 0 || self.connections <= u64::from(most),
        }
    }
}

/// Returns how many connections have handed over where one more has, as far as can be counted.
fn one_more(connections: u64, origin: Origin) -> u64
    ensures { result ≡ one_more connections origin }
{
    match origin {
        Origin::Session { .. } => connections.saturating_add(1),
        Origin::Service => connections,
    }
}

/// Notes the number of a session's last receipt.
fn count(lasts: &mut Vec<Option<u64>>, origin: Origin, last: u64)
    ensures { lasts.new.items ≡ with_last lasts.old.items origin last }
{
    if let Origin::Session { number, .. } = origin {
        if let Some(place) = lasts.get_mut(usize::from(number).saturating_sub(1)) {
            *place = Some(last);
        }
    }
}

/// Returns what is behind so many.
fn beyond(lasts: &[Option<u64>], most: usize) -> &[Option<u64>]
    ensures { result.now ≡ drop most lasts.now }
{
    if most >= lasts.len() {
        return &[];
    }
    lasts.split_at(most).1
}

/// Tells whether no session has handed over.
fn are_none(lasts: &[Option<u64>]) -> bool
    ensures { result ≡ list_all is_none lasts.now }
{
    for last in lasts {
        if last.is_some() {
            return false;
        }
    }
    true
}

/// Tells whether a line was refused since the journal is full.
fn has_full(origin: Origin) -> bool
    ensures { result ≡ has_full_of origin }
{
    match origin {
        Origin::Session { has_full, .. } => has_full,
        Origin::Service => false,
    }
}

/// Tells whether the numbers of receipts rise, from above this one.
fn are_rising<J: StoreName>(before: u64, receipts: &[Receipt<J>]) -> bool
    ensures { result ≡ rises_from before
        (map (λ r. record { number = r.number; entry = r.entry }) receipts.now) }
{
    let mut last = before;
    for receipt in receipts {
        if receipt.number <= last {
            return false;
        }
        last = receipt.number;
    }
    true
}

/// Returns the number of the last receipt, or this one where there is none.
fn last_number<J: StoreName>(before: u64, receipts: &[Receipt<J>]) -> u64
    ensures { result ≡ last_of before
        (map (λ r. record { number = r.number; entry = r.entry }) receipts.now) }
{
    let mut last = before;
    for receipt in receipts {
        last = receipt.number;
    }
    last
}

/// Hands receipts over. Where there is no room for them, it is waited for; a pile with room for as
/// many as a journal may have entries always has it.
pub(crate) fn hand_over<J: StoreName, R: Wait>(
    rt: &R,
    pile: &Mutex<Pile<J>>,
    origin: Origin,
    receipts: Vec<Receipt<J>>,
)
    requires { IsOf J.origin.schema origin
        (map (λ r. record { number = r.number; entry = r.entry }) receipts.items) }
{
    let mut receipts = receipts;
    for _turn in rt.forever() {
        if pile.lock(rt).add(origin, &mut receipts).is_ok() {
            break;
        }
    }
    receipts.destroy_empty();
}
