//! A server that answers every request with one fixed reply, which `bench/serve` holds airdv's beside.
use std::io;
use std::io::{Read, Write};
use std::net::{Ipv4Addr, Net, OpenListener, OpenStream, SocketAddr};

/// A connection is served so many requests at most, as by airdv.
pub const MOST_REQUESTS: u32 = 1_000;

/// So many bytes are read from a connection at once, at most, as by airdv.
const PIECE: usize = 65_536;

/// How much of a head's end was read last: the carriage return and the line feed of its last line, and
/// those of the empty line.
#[derive(Clone, Copy)]
enum Ending {
    Nothing,
    Return,
    Line,
    LastReturn,
    Head,
}

/// Serves so many connections on 127.0.0.1, one after the other. A connection whose read or write fails
/// is over, and the next one is served.
pub fn serve<N: Net>(net: &N, port: u16, connections: u32, reply: &[u8]) -> io::Result<()> {
    let listener = net.bind(SocketAddr::from((Ipv4Addr::LOCALHOST, port)))?;
    for _ in 0..connections {
        let (mut stream, _) = listener.accept()?;
        stream.set_nodelay(true)?;
        let _ = answer(&mut stream, reply);
    }
    Ok(())
}

/// Answers each request of a connection, as soon as the empty line after its head is read. A request
/// has no body.
fn answer<S: Read + Write>(stream: &mut S, reply: &[u8]) -> io::Result<()> {
    let mut piece = [0; PIECE];
    let mut ending = Ending::Nothing;
    let mut answered = 0;
    for _ in 0..u64::MAX {
        let n = stream.read(&mut piece)?;
        if n == 0 {
            return Ok(());
        }
        for byte in &piece[..n] {
            ending = after(ending, *byte);
            if let Ending::Head = ending {
                stream.write_all(reply)?;
                answered += 1;
                if answered == MOST_REQUESTS {
                    return Ok(());
                }
            }
        }
    }
    Ok(())
}

/// How much of a head's end was read, one byte further.
fn after(ending: Ending, byte: u8) -> Ending {
    match (ending, byte) {
        (Ending::Line, b'\r') => Ending::LastReturn,
        (_, b'\r') => Ending::Return,
        (Ending::Return, b'\n') => Ending::Line,
        (Ending::LastReturn, b'\n') => Ending::Head,
        _ => Ending::Nothing,
    }
}
