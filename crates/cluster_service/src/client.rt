//! A client that waits for the answer to its request.
use cluster_waiting::Waits;
use mio::net::TcpStream;
use std::io::ErrorKind;

/// A client whose request is pending.
#[derive(Drop)]
pub enum Client {
    /// It waits, on this connection.
    Waiting(TcpStream),
    /// It was told that its request took too long. Nobody gets the answer.
    Told,
}

/// Whether a client has not closed its sending side. One that has gone away has closed it; one that
/// only sends no more cannot be told apart.
fn sends(stream: &TcpStream) -> bool {
    let mut piece = [0; 1];
    match stream.peek(&mut piece) {
        Ok(count) => count != 0,
        Err(error) => matches!(error.kind(), ErrorKind::WouldBlock | ErrorKind::Interrupted),
    }
}

impl Waits for Client {
    fn is_waiting(&self) -> bool {
        match self {
            Client::Waiting(_) => true,
            Client::Told => false,
        }
    }

    fn is_there(&self) -> bool {
        match self {
            Client::Waiting(stream) => sends(stream),
            Client::Told => false,
        }
    }
}
