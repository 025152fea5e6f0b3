//! How connections of peers and of the desk's clients are accepted.

ghost use Rattle.std.specs.Prelude.{◌≡◌, ◌≤◌, IfSome};
ghost use Rattle.pay_net.specs.Places.{descriptors_of, least_places, places_within};

use crate::clients::MOST_CLIENTS;
use crate::inbound::{Entry, InboundConnections};
use pay_durable::{DurableOutput, Keeper};
use pay_frame::{Reader, Writer};
use pay_hmac::PreparedHmac;
use pay_node::{Beginning, FetchSeat};
use pay_peers::{Admission, NodeContext, Observer, PeerEvent, write_peer};
use std::net::{IpAddr, Ipv4Addr, Net, Shutdown, SocketAddr, TcpListener, TcpStream};
use std::os::fd::OwnedFd;
use std::sync::atomic::{AtomicBool, Ordering};
use std::sync::{Mutex, Wait};
use std::thread::Threads;
use std::time::{Clock, Duration};
use std::{io, thread};

/// A socket that listens on a port of this machine.
#[derive(Drop)]
pub(crate) struct Listening {
    listener: TcpListener,
    // This socket under a type that can be shut down: a thread that waits for a connection then
    // gets an error at once.
    same: TcpStream,
}

impl Listening {
    pub(crate) fn on<R>(rt: &R, port: u16) -> io::Result<Listening>
    where
        R: Net<Listener = TcpListener, Stream = TcpStream>,
    {
        let address = SocketAddr::new(IpAddr::V4(Ipv4Addr::LOCALHOST), port);
        let listener = TcpListener::bind(rt, address)?;
        let same = TcpStream::from(OwnedFd::from(listener.try_clone()?));
        Ok(Listening { listener, same })
    }

    /// Ends the wait for connections for good.
    pub(crate) fn shut(&self) {
        let _ = self.same.shutdown(Shutdown::Both);
    }
}

impl Door for Listening {
    fn next(&self) -> io::Result<TcpStream> {
        let (stream, _) = self.listener.accept()?;
        Ok(stream)
    }
}

/// The greatest number of inbound connections. Each peer of the largest group has its current
/// connection and another. One more connection may have an unknown sender, and one more makes room
/// for a newcomer.
pub const MOST_CONNECTIONS: u16 = 256;

/// The descriptors of an inbound connection, of a client of the desk and of a connected member, and
/// those left for all else that a node has open.
const OF_CONNECTION: u64 = 2;

const OF_DIALED: u64 = 3;

const OF_NODE: u64 = 32;

/// Returns how many inbound connections a node of `members` members may have at once, if the system
/// allows it `limit` descriptors. All descriptors that the node has open are no more than these.
/// Returns `None` if the descriptors don't suffice for the current connection and another of each
/// peer.
// promise: limits
pub fn places_within(limit: u64, members: u16) -> Option<u16>
    ensures value { result ≡ places_within limit members }
    ensures within { IfSome result (λ places. descriptors_of members places ≤ limit) }
    ensures enough { IfSome result (λ places. members ≤ 128 → least_places members ≤ places) }
{
    if limit < descriptors_needed(members) {
        return None;
    }
    let places = (limit - descriptors_of(members)) / OF_CONNECTION;
    Some(places.min(u64::from(MOST_CONNECTIONS)) as u16)
}

/// Returns how many descriptors a node of `members` members needs at least.
pub fn descriptors_needed(members: u16) -> u64
    ensures { result ≡ descriptors_of members (least_places members) }
{
    descriptors_of(members) + OF_CONNECTION * 2 * u64::from(members)
}

// Returns how many descriptors a node has open besides those of inbound connections.
fn descriptors_of(members: u16) -> u64
    ensures { result ≡ descriptors_of members 0 }
{
    OF_NODE + OF_CONNECTION * u64::from(MOST_CLIENTS) + OF_DIALED * u64::from(members)
}

/// The pause of an acceptor after a connection that it couldn't accept.
pub(crate) const PAUSE_MILLIS: u64 = 10;

/// The pause after a connection was abandoned, before its place is looked for.
const LEAVE_MILLIS: u64 = 1;

/// A source of accepted connections.
pub(crate) trait Door {
    /// Waits for the next connection.
    fn next(&self) -> io::Result<TcpStream>;
}

/// A host, which answers connections. Its threads know that it may be shared.
pub(crate) trait Host {
    /// Returns the place of `stream` among the open connections, if it may have one. If all places
    /// are taken, a connection is abandoned and its place is waited for.
    fn admit<R: Wait + Clock>(&self, rt: &R, stream: &TcpStream) -> Option<usize>;

    /// Answers `stream` until it ends, and releases its `place`.
    fn attend<R: Wait>(&self, rt: &R, stream: &TcpStream, place: usize);

    /// Releases the `place` of a connection that nobody answers.
    fn turn_away<R: Wait>(&self, rt: &R, place: usize);
}

/// What the threads share that answer WANTs: a seat for each peer, the open connections, and the
/// durability gate that keeps the history before a frame is written.
#[derive(Drop)]
pub(crate) struct Answering<'a, R, S: Beginning, K, O> {
    pub context: &'a NodeContext<'a, R, S, PreparedHmac>,
    pub keeper: &'a K,
    pub seats: &'a [(u16, Mutex<FetchSeat>)],
    pub inbound: &'a InboundConnections,
    pub observer: &'a O,
    pub stop: &'a AtomicBool,
}

/// The admission of the connection at a place as a peer's.
#[derive(Drop)]
struct Admitting<'a, O> {
    inbound: &'a InboundConnections,
    observer: &'a O,
    place: usize,
}

impl<O: Observer<PeerEvent>> Admission for Admitting<'_, O> {
    fn admit<R: Wait>(&self, rt: &R, peer: u16, number: u64) -> bool {
        self.inbound.ask(rt, self.place, peer, number)
    }

    fn mistrust(&self, peer: u16) {
        self.observer.observe(peer, PeerEvent::Unopened);
    }
}

impl<H, S, K, O> Host for Answering<'_, H, S, K, O>
where
    S: Beginning,
    H: Wait,
    K: Keeper,
    O: Observer<PeerEvent>,
{
    fn admit<R: Wait + Clock>(&self, rt: &R, stream: &TcpStream) -> Option<usize> {
        for _ in rt.forever() {
            match self.inbound.admit(rt, self.context.node, self.stop, stream) {
                Entry::At(place) => return Some(place),
                Entry::Refused => return None,
                Entry::Full => {}
            }
            thread::sleep(rt, Duration::from_millis(LEAVE_MILLIS));
        }
        None
    }

    fn attend<R: Wait>(&self, rt: &R, stream: &TcpStream, place: usize) {
        if let Some(leave) = self.inbound.leave(place) {
            let _ = stream.set_nodelay(true);
            let mut reader = Reader::new(stream);
            let mut writer = DurableOutput::new(
                rt,
                self.keeper,
                self.context.node,
                Writer::new(stream),
            );
            let admitting = Admitting {
                inbound: self.inbound,
                observer: self.observer,
                place,
            };
            let _ = write_peer(
                self.context,
                self.seats,
                leave,
                &admitting,
                &mut reader,
                &mut writer,
            );
        }
        self.inbound.shut(rt, place);
    }

    fn turn_away<R: Wait>(&self, rt: &R, place: usize) {
        self.inbound.shut(rt, place);
    }
}

/// Accepts connections and has each answered, in a thread of its own, until the node stops and the
/// listening socket is shut down. Returns after all of these threads have ended.
pub(crate) fn accept_all<R, S, D>(rt: &R, host: &S, stop: &AtomicBool, door: &D)
where
    R: Threads + Wait + Clock + Sync,
    S: Host + Sync,
    D: Door,
{
    thread::scope(thread::scope_env(), rt, |scope| {
        for _ in rt.forever() {
            let stream = next_connection(rt, stop, door);
            if stop.load(Ordering::SeqCst) {
                return;
            }
            let Some(stream) = stream else {
                continue;
            };
            let Some(place) = host.admit(rt, &stream) else {
                continue;
            };
            let started = scope.spawn(move || host.attend(rt, &stream, place));
            if started.is_err() {
                host.turn_away(rt, place);
            }
        }
    });
}

// Waits for a connection. If that fails it pauses, unless the node stops: the next one may fail at
// once too.
fn next_connection<R: Clock, D: Door>(rt: &R, stop: &AtomicBool, door: &D) -> Option<TcpStream> {
    match door.next() {
        Ok(stream) => Some(stream),
        Err(_) => {
            if !stop.load(Ordering::SeqCst) {
                thread::sleep(rt, Duration::from_millis(PAUSE_MILLIS));
            }
            None
        }
    }
}
