//! Calls of a connection that wait, by a clock that is set.
use super::*;
use std::cell::Cell;
use std::net::{Ipv4Addr, SocketAddr, TcpListener, TcpStream};
use std::test::Fail;

/// A clock that stands at a moment that is set.
#[derive(Drop)]
struct SetClock {
    moment: Cell<Duration>,
}

impl Clock for SetClock {
    fn monotonic(&self) -> io::Result<Duration> {
        Ok(self.moment.get())
    }

    fn since_1970(&self) -> io::Result<Duration> {
        Err(io::Error::from(ErrorKind::Unsupported))
    }
}

/// A stream that gives a byte at a moment, or moves the clock on for as long as it was told to wait. It
/// takes one byte of each piece. It fails unless it was told since the last call how long to wait.
#[derive(Drop)]
struct Peer<'a> {
    clock: &'a SetClock,
    comes_at: Duration,
    to_read: Cell<Option<Duration>>,
    to_write: Cell<Option<Duration>>,
    /// For how long the last write might wait.
    waited: Duration,
}

impl<'a> Peer<'a> {
    fn new(clock: &'a SetClock) -> Peer<'a> {
        Peer {
            clock,
            comes_at: Duration::ZERO,
            to_read: Cell::new(None),
            to_write: Cell::new(None),
            waited: Duration::ZERO,
        }
    }
}

impl<'a> OpenStream for Peer<'a> {
    fn set_read_timeout(&self, wait: Option<Duration>) -> io::Result<()> {
        self.to_read.set(wait);
        Ok(())
    }

    fn set_write_timeout(&self, wait: Option<Duration>) -> io::Result<()> {
        self.to_write.set(wait);
        Ok(())
    }
}

impl<'a> Read for Peer<'a> {
    fn read(&mut self, buffer: &mut [u8]) -> io::Result<usize> {
        let Some(wait) = self.to_read.take() else {
            return Err(io::Error::from(ErrorKind::Unsupported));
        };
        let now = self.clock.moment.get();
        let end = now.saturating_add(wait);
        if self.comes_at > end {
            self.clock.moment.set(end);
            return Err(io::Error::from(ErrorKind::WouldBlock));
        }
        if self.comes_at > now {
            self.clock.moment.set(self.comes_at);
        }
        Ok(buffer.len().min(1))
    }
}

impl<'a> Write for Peer<'a> {
    fn write(&mut self, piece: &[u8]) -> io::Result<usize> {
        match self.to_write.take() {
            Some(wait) => {
                self.waited = wait;
                Ok(piece.len().min(1))
            }
            None => Err(io::Error::from(ErrorKind::Unsupported)),
        }
    }

    fn flush(&mut self) -> io::Result<()> {
        Ok(())
    }
}

/// The millisecond by which a read ends that begins at one, of a peer whose next byte comes at another, and
/// whether it came. A client is there or not.
fn read_at(
    listener: &Option<(u16, TcpListener)>,
    deadlines: &mut Deadlines,
    start: u64,
    comes_at: u64,
) -> (u128, bool) {
    let clock = SetClock {
        moment: Cell::new(Duration::from_millis(start)),
    };
    let mut peer = Peer::new(&clock);
    peer.comes_at = Duration::from_millis(comes_at);
    let mut next = None;
    let got = read_in_time(
        &clock,
        listener,
        &mut next,
        &mut peer,
        deadlines,
        &mut [0; 2],
    );
    (clock.moment.get().as_millis(), got.is_ok())
}

fn listening(rt: &HostRuntime) -> io::Result<Option<(u16, TcpListener)>> {
    let listener = TcpListener::bind(rt, (Ipv4Addr::LOCALHOST, 0))?;
    let port = listener.local_addr()?.port();
    Ok(Some((port, listener)))
}

#[test]
fn a_peer_that_nobody_waits_for_has_five_and_thirty_seconds(rt: HostRuntime) -> Result<(), Fail> {
    let listener = listening(&rt)?;
    let mut deadlines = NONE_BEGUN;
    // It may lie idle for 5 seconds.
    assert_eq!(rt;
        read_at(&listener, &mut deadlines, 0, 5_001),
        (5_000, false)
    );
    assert_eq!(rt; read_at(&listener, &mut deadlines, 0, 4_980), (4_980, true));
    // Its request then has 30 seconds.
    assert_eq!(rt;
        read_at(&listener, &mut deadlines, 5_000, 34_900),
        (34_900, true)
    );
    assert_eq!(rt;
        read_at(&listener, &mut deadlines, 34_900, 36_000),
        (35_000, false)
    );
    Ok(())
}

#[test]
fn a_peer_gives_way_where_another_waits(rt: HostRuntime) -> Result<(), Fail> {
    let listener = listening(&rt)?;
    let Some((port, _)) = &listener else {
        return Ok(());
    };
    let address = SocketAddr::from((Ipv4Addr::LOCALHOST, *port));
    let _first = TcpStream::connect(&rt, address)?;
    let mut deadlines = NONE_BEGUN;
    assert_eq!(rt; read_at(&listener, &mut deadlines, 0, 51), (50, false));
    let _second = TcpStream::connect(&rt, address)?;
    assert_eq!(rt; read_at(&listener, &mut deadlines, 0, 20), (20, true));
    assert_eq!(rt;
        read_at(&listener, &mut deadlines, 20, 2_000),
        (2_000, true)
    );
    assert_eq!(rt;
        read_at(&listener, &mut deadlines, 2_000, 2_200),
        (2_050, false)
    );
    Ok(())
}

/// How many milliseconds a write at one may wait, or None if it comes too late. It takes one byte of the
/// piece.
fn write_at(deadlines: &mut Deadlines, now: u64, piece: &[u8]) -> Option<u128> {
    let clock = SetClock {
        moment: Cell::new(Duration::from_millis(now)),
    };
    let mut peer = Peer::new(&clock);
    match write_in_time(&clock, &mut peer, deadlines, piece) {
        Ok(_) => Some(peer.waited.as_millis()),
        Err(Failed) => None,
    }
}

#[test]
fn a_reply_has_thirty_seconds_from_its_first_byte_to_its_last(rt: HostRuntime) {
    let mut deadlines = NONE_BEGUN;
    assert_eq!(rt; write_at(&mut deadlines, 100_000, b"{}"), Some(30_000));
    assert_eq!(rt; write_at(&mut deadlines, 130_000, b"{}"), None);
    assert_eq!(rt; write_at(&mut deadlines, 129_000, b"}"), Some(1_000));
    assert_eq!(rt; write_at(&mut deadlines, 300_000, b"{"), Some(30_000));
}
