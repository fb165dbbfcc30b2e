//! The door of the network, with a client on the same machine.
use super::*;
use std::cell::Cell;
use std::io;
use std::io::{Read, Write};
use std::net::{TcpListener, TcpStream};
use std::test::Fail;

const REQUEST: &[u8] = b"GET /loads HTTP/1.1\r\nHost: localhost\r\n\r\n";

const REPLY: &[u8] = b"HTTP/1.1 200 OK\r\nContent-Length: 2\r\n\r\n{}";

fn listener(rt: &HostRuntime) -> io::Result<TcpListener> {
    TcpListener::bind(rt, (Ipv4Addr::LOCALHOST, 0))
}

#[test]
fn a_request_and_its_reply_pass_through_the_door(rt: HostRuntime) -> Result<(), Fail> {
    // A port that nobody listens on any more.
    let port = listener(&rt)?.local_addr()?.port();
    let mut door = TcpDoor::new(rt);
    door.listen(port)?;
    let mut client = TcpStream::connect(&rt, (Ipv4Addr::LOCALHOST, port))?;
    client.write_all(REQUEST)?;

    let mut request = [0; 100];
    assert!(rt; door.accept()?);
    let n = door.read(&mut request)?;
    assert_eq!(rt; &request[..n], REQUEST);
    assert_eq!(rt; door.write(REPLY)?, REPLY.len());
    door.finish();

    let mut reply = [0; 100];
    let n = client.read(&mut reply)?;
    assert_eq!(rt; &reply[..n], REPLY);
    assert_eq!(rt; client.read(&mut reply)?, 0);
    Ok(())
}

/// A listener whose first connection is lost before it is accepted.
#[derive(Drop)]
struct Losing {
    listener: TcpListener,
    fault: Cell<Option<ErrorKind>>,
}

impl OpenListener for Losing {
    type Stream = TcpStream;

    fn accept(&self) -> io::Result<(TcpStream, SocketAddr)> {
        match self.fault.take() {
            Some(kind) => Err(io::Error::from(kind)),
            None => self.listener.accept(),
        }
    }
}

/// Whether the door accepts a connection after a lost one.
fn accepts_behind(rt: &HostRuntime, kind: ErrorKind) -> Result<bool, Fail> {
    let losing = Losing {
        listener: listener(rt)?,
        fault: Cell::new(Some(kind)),
    };
    let _client = TcpStream::connect(rt, losing.listener.local_addr()?)?;
    Ok(accept_from(&losing).is_ok())
}

#[test]
fn a_lost_connection_is_passed_over_and_a_fault_of_the_listener_is_not(
    rt: HostRuntime,
) -> Result<(), Fail> {
    assert!(rt; accepts_behind(&rt, ErrorKind::ConnectionAborted)?);
    assert!(rt; accepts_behind(&rt, ErrorKind::ConnectionReset)?);
    assert!(rt; accepts_behind(&rt, ErrorKind::Interrupted)?);
    assert!(rt; !accepts_behind(&rt, ErrorKind::Uncategorized)?);
    Ok(())
}
