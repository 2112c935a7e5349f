//! Connections as they are taken, also where descriptors run out.
use statement::print_refusal;
use std::io;
use std::io::ErrorKind;
use std::net::{OpenListener, TcpListener, TcpStream};
use values::Refusal;

/// Answers a connection that cannot be served. Nothing more can be done where that is not sent.
pub(crate) fn refuse(stream: &TcpStream) {
    let mut writer = stream;
    let _ = print_refusal(&mut writer, &Refusal::Memory);
}

/// What becomes of a connection that is taken.
#[derive(Debug, Drop)]
pub(crate) enum Taken {
    /// It can be served.
    Stream(TcpStream),
    /// It is gone.
    Gone,
    /// It was refused, since it took the last descriptor.
    Refused,
}

/// A listener with a second descriptor, which is let go where there is no other for a connection.
#[derive(Drop)]
pub(crate) struct Acceptor {
    listener: TcpListener,
    spare: io::Result<TcpListener>,
}

impl Acceptor {
    /// Keeps a second descriptor of the listener.
    pub(crate) fn new(listener: TcpListener) -> Acceptor {
        let spare = listener.try_clone();
        Acceptor { listener, spare }
    }

    /// Takes the next connection.
    pub(crate) fn accept(&mut self) -> Taken {
        match self.listener.accept() {
            Ok((stream, _peer)) => Taken::Stream(stream),
            Err(error) if error.kind() == ErrorKind::ConnectionAborted => Taken::Gone,
            Err(_) => self.accept_by_spare(),
        }
    }

    /// Takes the next connection by the descriptor that was kept. It is refused if there is still
    /// no other.
    fn accept_by_spare(&mut self) -> Taken {
        self.spare = Err(io::Error::from(ErrorKind::Other));
        let taken = self.listener.accept();
        self.spare = self.listener.try_clone();
        let Ok((stream, _peer)) = taken else {
            return Taken::Gone;
        };
        if self.spare.is_ok() {
            return Taken::Stream(stream);
        }
        refuse(&stream);
        drop(stream);
        self.spare = self.listener.try_clone();
        Taken::Refused
    }
}
