//! A socket that listens.
ghost use Rattle.std.specs.Prelude.{IfOk};
ghost use Rattle.listening.specs.Server.{IsPortFor};

use std::io;
use std::net::{Net, OpenListener, TcpListener, TcpStream};

/// Binds a socket that listens on 127.0.0.1 alone, at a port, or at one that the system chooses if
/// the port is 0. Returns it with its port.
pub fn bind<R: Net<Listener = TcpListener, Stream = TcpStream>>(
    rt: &R,
    port: u16,
) -> io::Result<(TcpListener, u16)>
    ensures { IfOk result (λ bound. IsPortFor port bound.1) }
{
    let listener = TcpListener::bind(rt, ("127.0.0.1", port))?;
    if port != 0 {
        return Ok((listener, port));
    }
    let chosen = listener.local_addr()?.port();
    Ok((listener, chosen))
}
