//! A node that runs among its peers until its desk's input ends.

ghost use Rattle.std.specs.Prelude.{◌≡◌, ◌+◌, ◌*◌, IfOk, MatchResult, length};
ghost use Rattle.pay_durable.specs.Kept.{HasAtLeast};
ghost use Rattle.pay_frame.specs.Counts.{KeepsCounts, counts_of, no_other_faults};
ghost use Rattle.pay_net.specs.Desks.{HasServed, desk_from, desk_streams, first_desk};
ghost use Rattle.pay_net.specs.Running.{CountsReads, HasEnded, HasRun, IsNodeFault, node_of};
ghost use Rattle.pay_net.specs.Workers.{AllWorked};
ghost use Rattle.pay_node.specs.Nodes.{AreFresh};

use crate::accepting::Listening;
use crate::clients::{FirstDesk, MOST_CLIENTS, NodeDesk, serve_client};
use crate::closing::{Receipts, finish};
use crate::connections::Connections;
use crate::contacts::{Contacts, News};
use crate::desk_socket::DeskSocket;
use crate::inbound::InboundConnections;
use crate::ports::Ports;
use crate::seats::{Seats, gather_seats, seat_threads};
use crate::start::{NodeFault, NodeStart, node_of};
use crate::watching::Watcher;
use crate::workers::{Worker, readers_of, workers_of};
use pay_desk::{Desk, KeptValues};
use pay_durable::{DurableOutput, Keeper};
use pay_frame::{Input, Output, StreamFault};
use pay_hmac::PreparedHmac;
use pay_node::{Beginning, FetchSeat, Node, OwnMember, Seat};
use pay_peers::{Ahead, Dials, NodeContext, NodeTeller, Observer};
use std::alloc::{AllocError, Global};
use std::marker::Brand;
use std::net::{Net, TcpListener, TcpStream};
use std::sync::atomic::{AtomicBool, Ordering};
use std::sync::{Condvar, Mutex, Wait};
use std::thread;
use std::thread::Threads;
use std::time::{Clock, Duration};

/// What a node needs of the runtime that it runs on.
pub trait NodeRuntime: Threads
    + Wait
    + Clock
    + Net<Listener = TcpListener, Stream = TcpStream>
    + Sync {}

impl<R> NodeRuntime for R
where
    R: Threads + Wait + Clock + Net<Listener = TcpListener, Stream = TcpStream> + Sync,
{}

/// What a node needs for its peers and its desk's clients, and the durability gate that keeps its
/// history.
#[derive(Drop)]
pub struct NodeConfig<'a, O, K> {
    /// The port of each member.
    pub ports: &'a Ports,
    /// The number from which this start's challenges are drawn: see [`NodeContext::nonce`].
    ///
    /// [`NodeContext::nonce`]: pay_peers::NodeContext::nonce
    pub nonce: u64,
    /// How often the node connects to a peer that it doesn't reach.
    pub dials: Dials,
    /// The pipelining depth: how many of a peer's frames may be in flight.
    pub ahead: Ahead,
    /// The observer of peer events, which is also shown the node's metrics.
    pub observer: &'a O,
    /// The greatest number of inbound connections: see [`places_within`].
    ///
    /// [`places_within`]: crate::places_within
    pub places: u16,
    /// The time between two displays of the metrics, if they are shown.
    pub shown_every: Option<Duration>,
    /// The durability gate: it has to keep the history before anything that follows from the
    /// history leaves the node.
    pub keeper: &'a K,
    /// The socket for further clients of the desk, if there is one.
    pub socket: Option<&'a DeskSocket>,
}

/// A wait that ends early when a node stops.
#[derive(Drop)]
pub(crate) struct Pause {
    has_ended: Mutex<bool>,
    ended: Condvar,
}

impl Pause {
    pub(crate) fn new() -> Pause {
        Pause {
            has_ended: Mutex::new(false),
            ended: Condvar::new(),
        }
    }

    /// Waits for `time`, or until all waits are ended. Returns whether they are.
    pub(crate) fn wait<R: Wait + Clock>(&self, rt: &R, time: Duration) -> bool {
        let has_ended = self.has_ended.lock(rt);
        let (has_ended, _) = self
            .ended
            .wait_timeout_while(rt, has_ended, time, |has_ended| !*has_ended);
        *has_ended
    }

    /// Ends all waits, even those that begin later.
    pub(crate) fn end<R: Wait>(&self, rt: &R) {
        *self.has_ended.lock(rt) = true;
        self.ended.notify_all();
    }
}

// The flag to stop is set under the node's lock, so no waiter tests it before and sleeps after. Two
// orders of locks occur: the node's and then a shared seat's, and the inbound connections' and then
// the node's. The lock of the outbound connections is taken with no other.
/// All that the threads of a node wait for: listening sockets, open connections, and pauses.
#[derive(Drop)]
pub(crate) struct Waits<'a> {
    pub listening: &'a Listening,
    pub socket: Option<&'a DeskSocket>,
    pub dialed: Connections,
    pub inbound: InboundConnections,
    pub clients: Connections,
    pub pause: Pause,
    /// True if the node stops.
    pub stop: AtomicBool,
}

impl<'a> Waits<'a> {
    /// Creates the waits of a node of `members` members, with `places` places for inbound
    /// connections, before any is open.
    pub(crate) fn new(
        alloc: Global,
        members: u16,
        places: u16,
        listening: &'a Listening,
        socket: Option<&'a DeskSocket>,
    ) -> Result<Waits<'a>, AllocError> {
        Ok(Waits {
            listening,
            socket,
            dialed: Connections::new(alloc, members)?,
            inbound: InboundConnections::new(alloc, places)?,
            clients: Connections::new(alloc, MOST_CLIENTS)?,
            pause: Pause::new(),
            stop: AtomicBool::new(false),
        })
    }

    /// Ends all waits, including those for what the member has still to send. The flag is set
    /// first: a thread that finds it unset is shut down or woken here.
    pub(crate) fn end<R: Wait, S: Beginning>(&self, rt: &R, node: &Node<S>) {
        self.stop.store(true, Ordering::SeqCst);
        self.listening.shut();
        self.pause.end(rt);
        self.dialed.shut_all(rt);
        self.inbound.shut_all(rt);
        if let Some(socket) = self.socket {
            socket.shut();
        }
        self.clients.shut_all(rt);
        for leave in self.inbound.all_leave() {
            node.stop_waiting(rt, leave);
        }
    }
}

/// What a node runs with, whatever its member is.
#[derive(Drop)]
struct Site<'a, H, O, K> {
    rt: &'a H,
    alloc: Global,
    tagger: &'a PreparedHmac,
    config: &'a NodeConfig<'a, O, K>,
    listening: &'a Listening,
}

/// What the threads of a node share.
#[derive(Drop)]
pub(crate) struct Running<'a, H, S: Beginning, O, K> {
    pub context: &'a NodeContext<'a, H, S, PreparedHmac>,
    pub config: &'a NodeConfig<'a, O, K>,
    pub waits: &'a Waits<'a>,
    pub contacts: &'a Contacts<'a, H, O>,
    pub writers: &'a [(u16, Mutex<FetchSeat>)],
}

/// Runs the member of `start` as a node among its peers until the input of its desk ends. Returns
/// the member, and whether its history was compared with all receipts of the seats. Memory may run
/// out for the comparison, and the member must not be lost then. The desk continues with what is
/// kept of the member's payments. If `config` has a socket, its clients give lines to the desk too,
/// between those of the input.
///
/// The node listens on its own port, and connects to the ports of all others. The fault `Port`
/// gives the port and the reason if the node can't listen. A fault of the desk ends the node too,
/// and is returned. Nothing that follows from the history leaves the node before its durability
/// gate has kept the history. If the gate fails, writes fail, and so does the end. No clause names
/// a gate's refusal, so none says of the fault `Write` that a write failed.
// promise: one desk (ended); node's end (ended, durable, whole, reads); ids (ended)
// promise: nothing is lost (durable, whole); end of a restart (ended)
pub fn run_node<H, O, K, In, Out>(
    rt: &H,
    alloc: Global,
    start: NodeStart,
    tagger: &PreparedHmac,
    config: &NodeConfig<'_, O, K>,
    reader: &mut In,
    writer: Out,
) -> (Result<(OwnMember, Receipts), NodeFault>, Out)
where
    H: NodeRuntime,
    O: Observer<News> + Watcher + Sync,
    K: Keeper + Sync,
    In: Input,
    Out: Output,
    requires ports { length config.now.ports.now ≡ length start.member.keys.keys }
    ensures ended { HasEnded (node_of start)
        (first_desk (node_of start) start.kept) config.now.ports.now
        (desk_streams (In.remaining reader.old) (In.remaining reader.new)
        (Out.contents writer) (Out.contents result.1)) result.0 }
    ensures durable { IfOk result.0 (λ _. K.kept config.now.keeper.now (node_of start)) }
    ensures whole { IfOk result.0 (λ ended.
        HasAtLeast (K.has config.now.keeper.now) (length ended.0.history)) }
    ensures reads { CountsReads In.call_count In.failure_count In.remaining
        reader.old reader.new result.0 }
{
    let port = config.ports.port(start.own());
    let listening = match Listening::on(rt, port) {
        Ok(listening) => listening,
        Err(error) => return (Err(NodeFault::Port(port, error.kind())), writer),
    };
    let site = Site {
        rt,
        alloc,
        tagger,
        config,
        listening: &listening,
    };
    site.run::<Brand, In, Out>(start, reader, writer)
}

impl<H, O, K> Site<'_, H, O, K>
where
    H: NodeRuntime,
    O: Observer<News> + Watcher + Sync,
    K: Keeper + Sync,
{
    // Runs a node of this `start`. Types name its member by `S`.
    fn run<S: Beginning + FirstDesk + Send + Sync, In: Input, Out: Output>(
        &self,
        start: NodeStart,
        reader: &mut In,
        writer: Out,
    ) -> (Result<(OwnMember, Receipts), NodeFault>, Out)
        requires beginning { start.member ≡ S.beginning }
        requires first { first_desk (node_of start) start.kept ≡ S.first }
        ensures ended { HasEnded (node_of start) S.first self.now.config.now.ports.now
            (desk_streams (In.remaining reader.old) (In.remaining reader.new)
            (Out.contents writer) (Out.contents result.1)) result.0 }
        ensures durable { IfOk result.0
            (λ _. K.kept self.now.config.now.keeper.now (node_of start)) }
        ensures whole { IfOk result.0 (λ ended.
            HasAtLeast (K.has self.now.config.now.keeper.now) (length ended.0.history)) }
        ensures reads { CountsReads In.call_count In.failure_count In.remaining
            reader.old reader.new result.0 }
    {
        let (rt, alloc, keeper) = (self.rt, self.alloc, self.config.keeper);
        let (member, kept, compares) = start.into_parts();
        let seats = 2 * member.keys().members() - 1;
        let Ok((node, seats)) = node_of::<S>(alloc, member, seats, compares) else {
            return (Err(NodeFault::Engine(StreamFault::Memory)), writer);
        };
        let mut gated = DurableOutput::new(rt, keeper, &node, writer);
        let ran = self.run_threads(&node, kept, seats, reader, &mut gated);
        let writer = gated.into_inner();
        (finish(rt, alloc, keeper, node, ran), writer)
    }

    // Runs the threads of a node until the input of its desk ends, and returns all seats.
    #[tactic(auto, using(crate::proofs::Desks::begins_so))]
    fn run_threads<S: Beginning + FirstDesk + Send + Sync, In: Input, Out: Output>(
        &self,
        node: &Node<S>,
        kept: KeptValues,
        seats: Vec<Seat>,
        reader: &mut In,
        writer: &mut Out,
    ) -> Result<Vec<Seat>, NodeFault>
        requires fresh { AreFresh node.now.seats seats.items }
        requires count { node.now.seats + 1 ≡ 2 * length node.now.keys.keys }
        requires first { first_desk node.now kept ≡ S.first }
        ensures ran { MatchResult result
            (λ seats. HasRun node.now S.first seats.items
            (desk_streams (In.remaining reader.old) (In.remaining reader.new)
            (Out.contents writer.old) (Out.contents writer.new)))
            (IsNodeFault node.now S.first self.now.config.now.ports.now
            (desk_streams (In.remaining reader.old) (In.remaining reader.new)
            (Out.contents writer.old) (Out.contents writer.new))) }
        ensures reads { CountsReads In.call_count In.failure_count In.remaining
            reader.old reader.new result }
    {
        let (rt, alloc, config) = (self.rt, self.alloc, self.config);
        let context = NodeContext {
            rt,
            alloc,
            node,
            tagger: self.tagger,
            nonce: config.nonce,
        };
        let (own, members) = (node.keys().own(), node.keys().members());
        let waits = Waits::new(alloc, members, config.places, self.listening, config.socket)?;
        let contacts = Contacts::new(rt, alloc, config.observer, &waits.stop, members)?;
        let has_socket = config.socket.is_some();
        let seats = seat_threads(alloc, own, members, seats)?;
        let Seats {
            readers,
            writers,
            desk,
            left,
        } = seats;
        let mut workers = workers_of(alloc, has_socket, config.shown_every, readers)?;
        let running = Running {
            context: &context,
            config,
            waits: &waits,
            contacts: &contacts,
            writers: writers.as_slice(),
        };
        let (desk, ended) = running.serve(kept, desk, &mut workers, reader, writer);
        match ended {
            Ok(()) => Ok(gather_seats(Seats {
                readers: readers_of(workers),
                writers,
                desk,
                left,
            })?),
            Err(fault) => Err(NodeFault::Engine(fault)),
        }
    }
}

impl<'a, H, S, O, K> Running<'a, H, S, O, K>
where
    H: NodeRuntime,
    S: Beginning + FirstDesk + Send + Sync,
    O: Observer<News> + Watcher + Sync,
    K: Keeper + Sync,
{
    // Answers the lines of the input, and those of all clients on the socket, with one desk, which
    // calls the node from `seat`, while the workers run. If no thread can be made the workers run
    // last, and end at once.
    fn serve<In: Input, Out: Output>(
        &self,
        kept: KeptValues,
        seat: Seat,
        workers: &mut Vec<Worker>,
        reader: &mut In,
        writer: &mut Out,
    ) -> (Seat, Result<(), StreamFault>)
        requires first { desk_from self.now.context.now.node.now kept seat ≡ S.first }
        ensures served { HasServed S.first result.0
            (desk_streams (In.remaining reader.old) (In.remaining reader.new)
            (Out.contents writer.old) (Out.contents writer.new)) result.1 }
        ensures counts { let counted =
            counts_of In.call_count In.failure_count In.remaining Out.failure_count in
            KeepsCounts no_other_faults
            (counted reader.old writer.old) (counted reader.new writer.new) result.1 }
        ensures workers { AllWorked workers.old.items workers.new.items }
    {
        let NodeContext {
            rt,
            alloc,
            node,
            ..
        } = *self.context;
        let desk = Mutex::new(NodeDesk::new(self.desk(kept, seat)));
        let (_, ended) = thread::join_mut(
            rt,
            &mut || self.work_all(&desk, workers),
            &mut || {
                let ended = serve_client(rt, alloc, &desk, reader, writer);
                self.waits.end(rt, node);
                ended
            },
        );
        (desk.into_inner().into_seat(), ended)
    }
}

impl<'a, H: Wait, S: Beginning, O, K: Keeper> Running<'a, H, S, O, K> {
    // Returns a desk over the node, which calls it from `seat` and continues with what is kept.
    fn desk(&self, kept: KeptValues, seat: Seat) -> Desk<NodeTeller<'a, H, S, K>>
        ensures { result ≡ desk_from self.now.context.now.node.now kept seat }
    {
        let NodeContext { rt, node, .. } = *self.context;
        let keys = node.keys();
        // a member submits fewer values than there are numbers
        let next = u32::try_from(kept.len()).unwrap_or(u32::MAX);
        let teller = NodeTeller::new(rt, node, self.config.keeper, seat, next);
        Desk::with_kept(teller, keys.members(), keys.own(), kept)
    }
}
