use crate::connections::Connections;
use crate::ports::Ports;
use pay_frame::{Reader, Writer};
use pay_peers::{CLAIM_SECONDS, Dial, Dialed, QUIET_SECONDS};
use std::io;
use std::io::Read;
use std::net::{IpAddr, Ipv4Addr, Net, SocketAddr, TcpListener, TcpStream};
use std::sync::Wait;
use std::sync::atomic::{AtomicBool, Ordering};
use std::time::Duration;

/// The most milliseconds that an attempt to connect may take, so that a node can stop.
const DIAL_MILLIS: u64 = 1_000;

/// The most milliseconds that a write of WANTs may wait. A write waits only if the sockets between
/// the two nodes hold less than a window's WANTs. The peer may then wait to write, until this
/// connection ends.
const WRITE_MILLIS: u64 = 1_000;

/// A connector to peers on this machine, which works until the node stops.
#[derive(Drop)]
pub(crate) struct Dialer<'a, R> {
    pub rt: &'a R,
    pub ports: &'a Ports,
    pub dialed: &'a Connections,
    pub stop: &'a AtomicBool,
}

/// An outbound connection, and its place among the open ones. The connection is shut down when it
/// is dropped.
pub(crate) struct DialedStream<'a, R: Wait> {
    rt: &'a R,
    dialed: &'a Connections,
    place: usize,
    stream: TcpStream,
    // whether a claim is waited for
    asks: bool,
}

impl<R: Wait> Drop for DialedStream<'_, R> {
    fn drop(self) {
        let DialedStream {
            rt,
            dialed,
            place,
            stream,
            asks: _,
        } = self;
        dialed.shut(rt, place);
        drop(stream);
    }
}

impl<R: Wait> Read for DialedStream<'_, R> {
    fn read(&mut self, buffer: &mut [u8]) -> io::Result<usize> {
        let count = self.stream.read(buffer)?;
        if self.asks {
            self.asks = false;
            let _ = wait_for(&self.stream, QUIET_SECONDS);
        }
        Ok(count)
    }
}

impl<'a, R> Dial<Reader<DialedStream<'a, R>>, Writer<TcpStream>> for Dialer<'a, R>
where
    R: Net<Listener = TcpListener, Stream = TcpStream> + Wait,
{
    fn dial(
        &self,
        peer: u16,
        asks: bool,
    ) -> Dialed<Reader<DialedStream<'a, R>>, Writer<TcpStream>> {
        if self.stop.load(Ordering::SeqCst) {
            return Dialed::Stop;
        }
        match self.connect(peer, asks) {
            Some((reader, writer)) => Dialed::Streams(Reader::new(reader), Writer::new(writer)),
            None => Dialed::Failed,
        }
    }
}

impl<'a, R: Net<Listener = TcpListener, Stream = TcpStream> + Wait> Dialer<'a, R> {
    // Connects to `peer`. Returns both directions of a connection that is kept among the open ones.
    fn connect(&self, peer: u16, asks: bool) -> Option<(DialedStream<'a, R>, TcpStream)> {
        let port = self.ports.of(peer)?;
        let address = SocketAddr::new(IpAddr::V4(Ipv4Addr::LOCALHOST), port);
        let wait = Duration::from_millis(DIAL_MILLIS);
        let stream = TcpStream::connect_timeout(self.rt, &address, wait).ok()?;
        if is_own_end(&stream, port) {
            return None;
        }
        let _ = stream.set_nodelay(true);
        let _ = wait_for(&stream, if asks { CLAIM_SECONDS } else { QUIET_SECONDS });
        let _ = stream.set_write_timeout(Some(Duration::from_millis(WRITE_MILLIS)));
        let writer = stream.try_clone().ok()?;
        let place = self.dialed.keep(self.rt, self.stop, &stream)?;
        let reader = DialedStream {
            rt: self.rt,
            dialed: self.dialed,
            place,
            stream,
            asks,
        };
        Some((reader, writer))
    }
}

// Limits the wait of each read of `stream` to `seconds` seconds.
fn wait_for(stream: &TcpStream, seconds: u64) -> io::Result<()> {
    stream.set_read_timeout(Some(Duration::from_secs(seconds)))
}

// Returns whether a stream is connected to itself. If nobody listens, the system may give a
// connection the very port that it goes to.
fn is_own_end(stream: &TcpStream, port: u16) -> bool {
    match stream.local_addr() {
        Ok(address) => address.port() == port,
        Err(_) => false,
    }
}
