//! Connections as they come and go, under numbers that are used again.

use crate::acceptor::{Acceptor, Taken};
use crate::desk::{Desk, Seat};
use crate::refusals::Cause;
use crate::round_trigger::Call;
use crate::service::Service;
use crossbeam_channel::Sender;
use growlog::StoreName;
use sessions::Gate;
use std::alloc::{AllocError, Global};
use std::net::{Net, TcpListener, TcpStream};
use std::sync::Wait;
use std::thread;
use std::thread::{Scope, Threads};
use std::time::{Clock, Duration};

/// The milliseconds for which none is taken where a connection could not be.
const PAUSE: u64 = 1;

/// Takes connections until as many count as are to, or the server is stopped, and serves each in a
/// thread of its own, as a session with a number that no other has. Nobody listens any more then; and
/// when the sessions have ended nobody calls for rounds, so these come to their end.
pub(crate) fn take_connections<'s, E, J, R, G>(
    scope: &Scope<'s, E>,
    service: &'s Service<'s, J, R, G>,
    listener: TcpListener,
    desk: Desk,
    calls: Sender<Call, Global>,
)
where
    J: StoreName,
    R: Net<Listener = TcpListener, Stream = TcpStream> + Clock + Threads + Wait + Sync,
    G: Gate + Sync,
{
    let rt = service.rt;
    let mut acceptor = Acceptor::new(listener);
    let mut desk = desk;
    for _turn in rt.forever() {
        if !desk.takes_more(rt, &service.is_crowded) {
            break;
        }
        let taken = acceptor.accept();
        if service.has_stopped() {
            break;
        }
        let stream = match taken {
            Taken::Stream(stream) => stream,
            Taken::Gone | Taken::Refused => {
                if matches!(taken, Taken::Refused) {
                    service.refusals.count(Cause::Descriptor);
                }
                desk.pass_over();
                thread::sleep(rt, Duration::from_millis(PAUSE));
                continue;
            }
        };
        let Some(number) = desk.number(rt, &service.is_crowded) else {
            break;
        };
        if service.has_stopped() {
            break;
        }
        serve_one(scope, service, &mut desk, &calls, number, stream);
    }
    drop(acceptor);
    service.stop_listening();
}

/// Serves a connection in a thread of its own. One for which there is no memory or no thread is refused.
fn serve_one<'s, E, J, R, G>(
    scope: &Scope<'s, E>,
    service: &'s Service<'s, J, R, G>,
    desk: &mut Desk,
    calls: &Sender<Call, Global>,
    number: u8,
    stream: TcpStream,
)
where
    J: StoreName,
    R: Net<Listener = TcpListener, Stream = TcpStream> + Clock + Threads + Wait + Sync,
    G: Gate + Sync,
{
    let Ok((seat, calls)) = seat_with(desk, calls, number) else {
        service.refuse(&stream, Cause::Memory);
        desk.take_back(service.rt, number);
        return;
    };
    // By this a client is answered for which there is no thread.
    let answer = stream.try_clone();
    service.begin_one();
    let served = scope.spawn(move || service.serve(seat, calls, stream));
    if served.is_err() {
        service.end_one();
        if let Ok(stream) = answer {
            service.refuse(&stream, Cause::Thread);
        }
        desk.take_back(service.rt, number);
    }
}

/// Takes a connection under a number, and returns its seat and the way for its calls.
fn seat_with(
    desk: &mut Desk,
    calls: &Sender<Call, Global>,
    number: u8,
) -> Result<(Seat, Sender<Call, Global>), AllocError> {
    let seat = desk.seat(number)?;
    Ok((seat, calls.clone()?))
}
