//! What all connections share, and how one of them is served.

use crate::acceptor::refuse;
use crate::client::{Unserved, serve_client};
use crate::clock::Microseconds;
use crate::desk::Seat;
use crate::patience::Patience;
use crate::pile::{Origin, Pile, hand_over};
use crate::refusals::{Cause, Refusals};
use crate::round_trigger::{Call, RoundTrigger};
use crate::session_gate::SessionGate;
use crate::stop::Stop;
use crossbeam_channel::Sender;
use growlog::StoreName;
use serving::Served;
use sessions::{Gate, LockedStore};
use std::alloc::Global;
use std::io::BufWriter;
use std::net::{Net, OpenStream, TcpListener, TcpStream};
use std::sync::atomic::{AtomicBool, AtomicU64, Ordering};
use std::sync::{Mutex, Wait};
use std::thread;
use std::time::{Clock, Duration};
use steps::MAX_SESSION;

/// The milliseconds after which who stops the server asks again whether nobody listens any more.
const PAUSE: u64 = 1;

/// What all connections share.
#[derive(Drop)]
pub(crate) struct Service<'a, J: StoreName, R, G> {
    pub(crate) rt: &'a R,
    pub(crate) alloc: Global,
    pub(crate) store: &'a LockedStore<J>,
    pub(crate) gate: &'a G,
    pub(crate) pile: &'a Mutex<Pile<J>>,
    /// The seconds after which a client that has sent nothing makes room.
    idle: Option<u32>,
    /// The commits of all sessions, where they are counted together.
    commits: Option<AtomicU64>,
    /// Whether a connection waits for a number, or for word of another one.
    pub(crate) is_crowded: AtomicBool,
    /// Whether connections are taken.
    is_listening: AtomicBool,
    /// How many of those that were taken have not ended.
    live: AtomicU64,
    pub(crate) refusals: Refusals,
    stop: Stop,
}

impl<'a, J: StoreName, R, G> Service<'a, J, R, G> {
    /// Makes what connections share that are served round a store.
    pub(crate) fn new(
        rt: &'a R,
        alloc: Global,
        store: &'a LockedStore<J>,
        gate: &'a G,
        pile: &'a Mutex<Pile<J>>,
        idle: Option<u32>,
        counts_all: bool,
        stop: Stop,
    ) -> Service<'a, J, R, G> {
        Service {
            rt,
            alloc,
            store,
            gate,
            pile,
            idle,
            commits: if counts_all {
                Some(AtomicU64::new(0))
            } else {
                None
            },
            is_crowded: AtomicBool::new(false),
            is_listening: AtomicBool::new(true),
            live: AtomicU64::new(0),
            refusals: Refusals::new(),
            stop,
        }
    }
}

impl<J: StoreName, R, G> Service<'_, J, R, G> {
    /// Refuses a connection, and counts it.
    pub(crate) fn refuse(&self, stream: &TcpStream, cause: Cause) {
        refuse(stream);
        self.refusals.count(cause);
    }

    /// Counts a client that was refused, if that is why it was not served.
    fn count_unserved(&self, why: Unserved) {
        match why {
            Unserved::Memory => self.refusals.count(Cause::Memory),
            Unserved::Foreign => self.refusals.count(Cause::Foreign),
            Unserved::Read | Unserved::NoLine => {}
        }
    }

    /// Notes that a connection is served from now on.
    pub(crate) fn begin_one(&self) {
        self.live.fetch_add(1, Ordering::SeqCst);
    }

    /// Notes that a connection has ended.
    pub(crate) fn end_one(&self) {
        self.live.fetch_sub(1, Ordering::SeqCst);
    }

    /// Tells whether nobody listens any more, and all connections have ended.
    pub(crate) fn has_ended(&self) -> bool {
        !self.is_listening.load(Ordering::SeqCst) && self.live.load(Ordering::SeqCst) == 0
    }
}

impl<J: StoreName, R, G> Service<'_, J, R, G>
where
    R: Net<Listener = TcpListener, Stream = TcpStream> + Clock + Wait,
    G: Gate,
{
    /// Serves a connection to its end, and gives its number back when it has handed over the receipts that
    /// its session took, before its client sees that it has ended.
    pub(crate) fn serve(&self, seat: Seat, calls: Sender<Call, Global>, stream: TcpStream) {
        self.serve_kept(&seat, calls, &stream);
        seat.leave(self.rt);
        self.end_one();
    }

    /// Serves a connection, of which a second descriptor is kept meanwhile if the server may be stopped.
    fn serve_kept(&self, seat: &Seat, calls: Sender<Call, Global>, stream: &TcpStream) {
        if self.stop.port.is_none() {
            self.serve_stream(seat, calls, stream);
            return;
        }
        if self.stop.keep(self.rt, seat.number, stream).is_err() {
            if !self.has_stopped() {
                self.refuse(stream, Cause::Descriptor);
            }
            return;
        }
        self.serve_stream(seat, calls, stream);
        self.stop.forget(self.rt, seat.number);
    }

    /// Serves a connection, and hands over the receipts that its session took. One that has no session's
    /// number, or for which there is no memory, is refused.
    fn serve_stream(&self, seat: &Seat, calls: Sender<Call, Global>, stream: &TcpStream) {
        let number = seat.number;
        if number > MAX_SESSION {
            self.refuse(stream, Cause::Memory);
            return;
        }
        // A reply is sent at once, whether or not what was sent before has arrived. Where that cannot
        // be set, it is sent all the same.
        let _ = stream.set_nodelay(true);
        if let Some(seconds) = self.idle {
            let _ = stream.set_read_timeout(Some(Duration::from_secs(u64::from(seconds))));
        }
        let Ok(mut writer) = BufWriter::new(self.alloc, stream) else {
            self.refuse(stream, Cause::Memory);
            return;
        };
        let own = AtomicU64::new(0);
        let commits = self.commits.as_ref().unwrap_or(&own);
        let trigger = RoundTrigger::new(calls, commits);
        let gate = SessionGate::new(self.alloc, self.gate, &self.stop, trigger);
        let mut readings = Microseconds { rt: self.rt };
        let reader = Patience::new(self.rt, stream, &self.is_crowded, &self.stop.has_stopped);
        let served = serve_client(
            self.rt,
            self.alloc,
            self.store,
            &gate,
            &mut readings,
            number,
            &seat.door,
            reader,
            &mut writer,
        );
        let Served {
            receipts,
            refused,
            end: _,
        } = match served {
            Ok(served) => served,
            Err(why) => {
                self.count_unserved(why);
                return;
            }
        };
        let origin = Origin::Session {
            number,
            has_full: refused.has_full(),
            has_not_open: refused.has_not_open(),
        };
        hand_over(self.rt, self.pile, origin, receipts);
    }

    /// Tells whether the server was stopped.
    pub(crate) fn has_stopped(&self) -> bool {
        self.stop.has_stopped()
    }

    /// Notes that nobody listens any more.
    pub(crate) fn stop_listening(&self) {
        self.is_listening.store(false, Ordering::SeqCst);
    }

    /// Stops the server, where it may be stopped, and returns when nobody listens any more. Who waits for
    /// a connection is woken, where the socket that listens has no second descriptor, by a connection to
    /// it. None that is served may wait for that, since who takes connections may wait for its number.
    pub(crate) fn stop(&self) {
        let Some(port) = self.stop.port else {
            return;
        };
        self.stop.stop(self.rt);
        for _turn in self.rt.forever() {
            if !self.is_listening.load(Ordering::SeqCst) {
                break;
            }
            let _woken = TcpStream::connect(self.rt, ("127.0.0.1", port));
            thread::sleep(self.rt, Duration::from_millis(PAUSE));
        }
    }
}
