//! Four nodes of one group in one process, each in a thread of its own. Their connections go over
//! the loopback interface. Member 0 pays member 1, and each owner asks until it is settled.

ghost use Rattle.std.specs.Prelude.{◌≡◌, length};
ghost use Rattle.pay_link.specs.Keys.{IsKeysOf};

use pay_durable::Unkept;
use pay_frame::{Reader, Writer};
use pay_hmac::PreparedHmac;
use pay_link::{Genesis, Keys, test_keys};
use pay_member::Member;
use pay_net::{
    News, NodeConfig, NodeFigures, NodeRuntime, NodeStart, Ports, Receipts, Watcher, run_node,
};
use pay_node::OwnMember;
use pay_peers::{Ahead, Dials, Observer};
use std::alloc::Global;
use std::io::{Read, Write};
use std::net::{IpAddr, Ipv4Addr, Net, SocketAddr, TcpListener, TcpStream};
use std::sync::Wait;
use std::sync::atomic::{AtomicU32, Ordering};
use std::thread::Threads;
use std::time::{Clock, Duration};
use std::{io, thread};

/// The opening balance of each member.
const OPENING: &[u64] = &[100, 0, 0, 50];

/// The most questions of an owner, and the milliseconds between two of them.
const TURNS: u32 = 4_000;

const PAUSE: u64 = 5;

/// An owner's lines: `first`, and then the question whether the payment is settled, until `settled`
/// counts all four owners.
#[derive(Drop)]
struct Asking<'a, R> {
    rt: &'a R,
    settled: &'a AtomicU32,
    first: &'static [u8],
    turns: u32,
}

impl<R: Clock> Read for Asking<'_, R> {
    fn read(&mut self, buffer: &mut [u8]) -> io::Result<usize> {
        let mut line: &'static [u8] = self.first;
        self.first = &[];
        if line.is_empty() {
            if self.turns == 0 || self.settled.load(Ordering::SeqCst) == 4 {
                return Ok(0);
            }
            self.turns -= 1;
            thread::sleep(self.rt, Duration::from_millis(PAUSE));
            line = b"STATE 0 0\n";
        }
        let count = line.len().min(buffer.len());
        buffer[..count].copy_from_slice(&line[..count]);
        Ok(count)
    }
}

/// An owner who reads the answers, and counts in `settled` once one says that it is settled.
#[derive(Drop)]
struct Told<'a> {
    settled: &'a AtomicU32,
    is_told: bool,
}

impl Write for Told<'_> {
    fn write(&mut self, bytes: &[u8]) -> io::Result<usize> {
        if !self.is_told && has_settled(bytes) {
            self.is_told = true;
            self.settled.fetch_add(1, Ordering::SeqCst);
        }
        Ok(bytes.len())
    }

    fn flush(&mut self) -> io::Result<()> {
        Ok(())
    }
}

// Returns whether the answers `text` have one that says that the payment is settled.
fn has_settled(text: &[u8]) -> bool {
    for from in 0..text.len() {
        if text[from..].starts_with(b"state 0 0 settled\n") {
            return true;
        }
    }
    false
}

/// An observer that notes nothing.
#[derive(Clone, Copy)]
struct Quiet;

impl Observer<News> for Quiet {
    fn observe(&self, _peer: u16, _news: News) {}
}

impl Watcher for Quiet {
    fn watch(&self, _figures: &NodeFigures) {}

    fn forgets(&self) {}

    fn starves(&self) {}
}

/// What the four nodes share.
#[derive(Drop)]
struct Group {
    quiet: Quiet,
    unkept: Unkept,
    settled: AtomicU32,
    ports: Vec<u8>,
}

// Runs the node of `start`. Returns whether its receipts were judged, and the front of account 0 and
// the balance of account 1 at its end.
fn serve<'x, R: NodeRuntime>(
    rt: &'x R,
    alloc: Global,
    start: NodeStart,
    tagger: &PreparedHmac,
    ports: &'x Ports,
    group: &'x Group,
    first: &'static [u8],
) -> Option<(bool, u32, u64)>
    requires { length ports.now ≡ length start.member.keys.keys }
{
    let config = NodeConfig {
        ports,
        nonce: 0,
        dials: Dials::Usual,
        ahead: Ahead::usual(),
        observer: &group.quiet,
        places: 16,
        shown_every: None,
        keeper: &group.unkept,
        socket: None,
    };
    let mut reader = Reader::new(Asking {
        rt,
        settled: &group.settled,
        first,
        turns: TURNS,
    });
    let writer = Writer::new(Told {
        settled: &group.settled,
        is_told: false,
    });
    let (ended, _writer) = run_node(rt, alloc, start, tagger, &config, &mut reader, writer);
    let (member, receipts) = ended.ok()?;
    Some(came_of(&member, receipts))
}

// Returns whether the receipts of `member` were judged, and the front of account 0 and the balance of
// account 1.
fn came_of(member: &OwnMember, receipts: Receipts) -> (bool, u32, u64) {
    let view = member.view();
    let balance = if member.genesis().members() > 1 {
        view.balance(1)
    } else {
        0
    };
    (receipts == Receipts::Consistent, view.front(0), balance)
}

// Runs the node of the member with these `keys`.
fn run<R: NodeRuntime>(
    rt: &R,
    alloc: Global,
    genesis: Genesis,
    keys: Keys,
    ports: &Ports,
    group: &Group,
) -> Option<(bool, u32, u64)>
    requires keys { IsKeysOf genesis keys }
    requires ports { length ports.now ≡ genesis.members }
{
    let first: &'static [u8] = if keys.own() == 0 {
        b"PAY 7 1 30\n"
    } else {
        b""
    };
    let tagger = keys.tagger(alloc).ok()?;
    let member: OwnMember = Member::new(alloc, genesis, keys).ok()?;
    let start = NodeStart::fresh(alloc, member);
    serve(rt, alloc, start, &tagger, ports, group, first)
}

// Runs the node of the member `own`.
fn run_as<R: NodeRuntime>(
    rt: &R,
    alloc: Global,
    group: &Group,
    own: u16,
) -> Option<(bool, u32, u64)> {
    let genesis = Genesis::new(alloc, 4, 1, OPENING).ok()?;
    if own >= genesis.members() {
        return None;
    }
    let ports = Ports::read(alloc, &genesis, &group.ports).ok()?;
    let keys = test_keys(alloc, &genesis, own).ok()?;
    run(rt, alloc, genesis, keys, &ports, group)
}

// Binds a free port of the loopback interface.
fn free_listener<R>(rt: &R) -> io::Result<(TcpListener, u16)>
where
    R: Net<Listener = TcpListener, Stream = TcpStream>,
{
    let address = SocketAddr::new(IpAddr::V4(Ipv4Addr::LOCALHOST), 0);
    let listener = TcpListener::bind(rt, address)?;
    let port = listener.local_addr()?.port();
    Ok((listener, port))
}

// Returns a file of four free ports.
fn free_ports<R>(rt: &R, alloc: Global) -> Option<Vec<u8>>
where
    R: Net<Listener = TcpListener, Stream = TcpStream>,
{
    let (one, a) = free_listener(rt).ok()?;
    let (two, b) = free_listener(rt).ok()?;
    let (three, c) = free_listener(rt).ok()?;
    let (four, d) = free_listener(rt).ok()?;
    drop((one, two, three, four));
    let text = format!(in alloc; "{{\"ports\":[{a},{b},{c},{d}]}}").ok()?;
    Some(text.into_bytes())
}

// Runs the four nodes, and returns how many of them ended with the payment settled, and receipts
// that were judged.
fn count_settled<R>(rt: &R, alloc: Global) -> Option<usize>
where
    R: Threads + Wait + Clock + Net<Listener = TcpListener, Stream = TcpStream> + Sync,
{
    let group = Group {
        quiet: Quiet,
        unkept: Unkept,
        settled: AtomicU32::new(0),
        ports: free_ports(rt, alloc)?,
    };
    let mut nodes = [(0, None), (1, None), (2, None), (3, None)];
    thread::for_each_mut(
        rt,
        &mut nodes,
        4,
        &|_, node: &mut (u16, Option<(bool, u32, u64)>)| {
            node.1 = run_as(rt, alloc, &group, node.0)
        },
    );
    let settled = nodes.iter().filter(|node| node.1 == Some((true, 1, 30)));
    Some(settled.count())
}

#[test]
fn four_nodes_settle_a_payment(rt: HostRuntime) {
    assert_eq!(rt; count_settled(&rt, rt.alloc()), Some(4));
}
