//! Workers that read from peers, each in a thread of its own, and the peer events that they report.

ghost use Rattle.std.specs.Prelude.{◌≡◌, drop, Bool, IfOk, IfSome, IsTrue, length};
ghost use Rattle.std.specs.List.{list_any};
ghost use Rattle.pay_link.specs.Claims.{IsNonce};
ghost use Rattle.pay_link.specs.Keys.{IsPeer};
ghost use Rattle.pay_node.specs.Nodes.{HasNext};
ghost use Rattle.pay_node.specs.Receipts.{has_entry};
ghost use Rattle.pay_peers.specs.Ahead.{LooksForLie};
ghost use Rattle.pay_peers.specs.Dialing.{gain_by, IsLastWord};
ghost use Rattle.pay_peers.specs.Growing.{EachGrows, SeatGrows, HasGrown};
ghost use Rattle.pay_peers.specs.Window.{first_window};

use crate::backoff::{Backoff, Dials, is_quiet};
use crate::challenging::{CLAIM_SECONDS, ask_claim};
use crate::feeding::PeerReader;
use crate::reading_ahead::read_ahead;
use crate::window::Ahead;
use pay_frame::{EngineFault, Input, Output};
use pay_hmac::Tagger;
use pay_link::NONCES;
use pay_link::laws::judgement_opens;
use pay_member::Lie;
use pay_node::{Beginning, Gate, Node, Receipt, Standing};
use std::alloc::{AllocError, Global};
use std::sync::Wait;
use std::thread;
use std::thread::Threads;
use std::time::{Clock, Duration, Instant};

/// What the threads for a node's peers share.
#[derive(Drop)]
pub struct NodeContext<'a, R, S: Beginning, T> {
    pub rt: &'a R,
    pub alloc: Global,
    pub node: &'a Node<S>,
    /// The tagger, with the keys that the node shares with its peers.
    pub tagger: &'a T,
    /// The number from which the challenges of this start are drawn. A node that starts again draws
    /// it again, so that no earlier claim answers one of them.
    pub nonce: u64,
}

/// An observer of what happens to each peer.
pub trait Observer<E> {
    /// Notes `event` of `peer`.
    fn observe(&self, peer: u16, event: E);
}

/// An event of a worker and its peer.
#[derive(Clone, Copy, Debug, PartialEq, Eq)]
pub enum PeerEvent {
    /// The peer made a claim on a challenge of this start, or a frame of it was accepted.
    Heard,
    /// A frame in the peer's name failed authentication: its tag isn't the one under the shared
    /// key.
    Unopened,
    /// A connection had no claim, and no authenticated frame.
    Missed,
    /// The worker connected to the peer for the last time.
    GaveUp,
    /// The peer sent a protocol violation, so nothing more is read from it.
    Lied(Lie),
    /// A connection ended because memory ran out.
    Starved,
}

/// The result of a connection.
#[derive(Clone, Copy, Debug, PartialEq, Eq)]
pub(crate) enum Gain {
    /// No claim, and no authenticated frame.
    Nothing,
    /// A claim, or authenticated frames, none of them accepted.
    Refused,
    /// Frames, at least one of them accepted.
    Taken,
}

impl Gain {
    /// Returns the result of a connection. `claimed` says whether the peer made a claim, and the
    /// seat's `receipts` after the first `before` ones belong to the connection.
    pub(crate) fn of(claimed: bool, before: usize, receipts: &[Receipt]) -> Gain
        ensures { result ≡ gain_by claimed (drop before receipts.now) }
    {
        let new = receipts.get(before..).unwrap_or(&[]);
        if new.is_empty() {
            if claimed {
                Gain::Refused
            } else {
                Gain::Nothing
            }
        } else if have_entry(new) {
            Gain::Taken
        } else {
            Gain::Refused
        }
    }
}

// Returns whether the call of one of these receipts has an entry in the history.
fn have_entry(receipts: &[Receipt]) -> bool
    ensures { result ≡ list_any (λ r. has_entry r.call) receipts.now }
{
    receipts.iter().any(|receipt| receipt.has_entry())
}

/// A provider of a worker's streams.
pub trait Dial<In, Out> {
    /// Tries once to connect to `peer`. If `asks` is set, the first bytes have to come within
    /// [`CLAIM_SECONDS`]. All other bytes, and the first ones if `asks` isn't set, have to come
    /// within [`QUIET_SECONDS`].
    ///
    /// [`QUIET_SECONDS`]: crate::QUIET_SECONDS
    fn dial(&self, peer: u16, asks: bool) -> Dialed<In, Out>;
}

/// What came of connecting.
#[derive(Drop)]
pub enum Dialed<In, Out> {
    /// A connection: what comes from the peer, and what goes to it.
    Streams(In, Out),
    /// There is no connection; the worker may try again.
    Failed,
    /// The worker has to end.
    Stop,
}

// If the thread of a worker can't be started, the worker runs after another one (`for_each_mut`,
// for which `run_readers` changes pairs in place). Its peer is then connected only after that
// worker ends. A scope's threads would be refused one by one, but tell nothing of the seats that
// they were lent.
//
// A quiet connection is ended, and its peer is connected again. No frame distinguishes a dead
// connection from a peer that has nothing to say, and every request of a node on it would cost a
// receipt. The new connection requests the next missing frame, so no frame comes twice. The peer
// waits for what it has to send, and doesn't see that the earlier connection has ended. It abandons
// a connection that requested nothing new for two minutes, if a newcomer needs the place. Otherwise
// an idle group would have 256 connections at each node.
//
// A peer that doesn't know challenges waits at one for ever, as at a WANT for a place that it
// hasn't sent yet. So after a challenge without an answer a free node reads without one.
/// Runs a worker for each peer and its seat in `pairs`. Each worker connects again and again. The
/// worker requests the peer's claim, and feeds the node from the connection after the node is free,
/// with up to `ahead` frames in flight. A worker ends when it is told to stop, or after as many
/// connections in a row without a result as `dials` allows. A connection that stood for
/// [`QUIET_SECONDS`] and delivered nothing doesn't count. The `observer` is told what happens to
/// each peer. Returns after all workers have ended.
///
/// [`QUIET_SECONDS`]: crate::QUIET_SECONDS
// promise: workers
pub fn run_readers<H, S, T, G, D, O, In, Out>(
    context: &NodeContext<'_, H, S, T>,
    gate: &G,
    dial: &D,
    observer: &O,
    dials: Dials,
    ahead: Ahead,
    pairs: &mut [(u16, PeerReader)],
)
where
    H: Threads + Wait + Clock + Sync,
    S: Beginning + Send + Sync,
    T: Tagger + Sync,
    G: Gate + Sync,
    D: Dial<In, Out> + Sync,
    O: Observer<PeerEvent> + Sync,
    In: Input + Drop + Send,
    Out: Output + Drop + Send,
    ensures { EachGrows pairs.old pairs.new }
{
    let workers = Workers {
        context,
        gate,
        dial,
        observer,
        dials,
        ahead,
    };
    let threads = pairs.len().max(1);
    thread::for_each_mut(
        context.rt,
        pairs,
        threads,
        &|_, pair: &mut (u16, PeerReader)|
            ensures { HasGrown pair.entry.now pair.exit.now }
        { workers.keep_reading(pair.0, &mut pair.1) },
    );
}

/// What all workers share.
#[derive(Drop)]
struct Workers<'a, H, S: Beginning, T, G, D, O> {
    context: &'a NodeContext<'a, H, S, T>,
    gate: &'a G,
    dial: &'a D,
    observer: &'a O,
    dials: Dials,
    ahead: Ahead,
}

impl<H, S, T, G, D, O> Workers<'_, H, S, T, G, D, O>
where
    H: Wait + Clock,
    S: Beginning,
    T: Tagger,
    G: Gate,
    O: Observer<PeerEvent>,
{
    // Runs a worker.
    fn keep_reading<In, Out>(&self, peer: u16, asking: &mut PeerReader)
    where
        D: Dial<In, Out>,
        In: Input + Drop,
        Out: Output + Drop,
        ensures { SeatGrows peer asking.old.seat asking.new.seat }
    {
        let NodeContext { rt, nonce, .. } = *self.context;
        let mut backoff = Backoff::new(self.dials);
        let mut turn = nonce;
        let mut asks = true;
        for _ in rt.forever() {
            let begun = Instant::now(rt).ok();
            let challenge = asks.then_some(turn % NONCES);
            let gain = match self.last_word(peer, asking, &backoff) {
                Ok(Some(last)) => {
                    self.observer.observe(peer, last);
                    return;
                }
                Ok(None) => match self.dial.dial(peer, asks) {
                    Dialed::Stop => return,
                    Dialed::Failed => Gain::Nothing,
                    Dialed::Streams(reader, writer) => {
                        self.feed(peer, challenge, asking, reader, writer)
                    }
                },
                Err(_) => {
                    self.observer.observe(peer, PeerEvent::Starved);
                    Gain::Nothing
                }
            };
            let stood = seconds_since(rt, begun);
            asks = !asks || gain != Gain::Nothing || stood < CLAIM_SECONDS - 1;
            turn = turn.wrapping_add(1);
            let pause = self.note(peer, stood, gain, &mut backoff);
            thread::sleep(rt, Duration::from_millis(pause));
        }
    }

    // Returns why `peer` isn't connected any more, if it isn't. Memory can be refused only to the
    // receipt of its protocol violation.
    // promise: lies
    fn last_word(
        &self,
        peer: u16,
        asking: &mut PeerReader,
        backoff: &Backoff,
    ) -> Result<Option<PeerEvent>, AllocError>
        ensures looked { LooksForLie self.now.context.now.node.now peer
            asking.old.seat asking.old.lie asking.new }
        ensures word { IfOk result
            (IsLastWord self.now.context.now.node.now peer backoff.now asking.new.lie) }
    {
        let NodeContext {
            rt,
            alloc,
            node,
            ..
        } = *self.context;
        if node.keys().is_peer(peer) {
            if asking.lie.is_none() {
                asking.lie = node.accuse(rt, alloc, &mut asking.seat, peer)?;
            }
            if let Some(lie) = asking.lie {
                return Ok(Some(PeerEvent::Lied(lie)));
            }
        }
        Ok(backoff.is_over().then_some(PeerEvent::GaveUp))
    }

    // Notes the result of a connection that stood for `stood` seconds, and returns for how many
    // milliseconds the worker pauses. A quiet connection isn't counted, since even a healthy peer
    // may have nothing to say.
    fn note(&self, peer: u16, stood: u64, gain: Gain, backoff: &mut Backoff) -> u64 {
        if gain == Gain::Nothing {
            if is_quiet(stood) {
                return 0;
            }
            self.observer.observe(peer, PeerEvent::Missed);
        }
        backoff.note(gain)
    }

    // Reports that memory ran out on a connection, if it did.
    fn tell_refusal(&self, peer: u16, ended: Result<(), EngineFault>) {
        if let Err(EngineFault::Memory) = ended {
            self.observer.observe(peer, PeerEvent::Starved);
        }
    }

    // Begins a connection with the next frame from `peer`, if there are numbers left.
    fn begin(&self, peer: u16, asking: &mut PeerReader) -> bool
        requires { IsPeer self.now.context.now.node.now.keys peer }
        ensures seat { asking.new.seat ≡ asking.old.seat }
        ensures begun { IsTrue result → asking.new.window
            ≡ first_window self.now.ahead.count asking.new.window.due }
        ensures next { IsTrue result
            → HasNext self.now.context.now.node.now peer asking.new.window.due }
    {
        let NodeContext { rt, node, .. } = *self.context;
        asking.begin(self.ahead, node.next(rt, peer))
    }

    // Requests the claim of `peer`, and notes it. Returns whether the peer made a claim.
    fn ask<In: Input, Out: Output>(
        &self,
        peer: u16,
        nonce: u64,
        reader: &mut In,
        writer: &mut Out,
    ) -> bool
        requires peer { IsPeer self.now.context.now.node.now.keys peer }
        requires nonce { IsNonce nonce }
    {
        match ask_claim(self.context, peer, nonce, reader, writer) {
            Ok(Some(taken)) => {
                self.context.node.note_claim(self.context.rt, peer, taken);
                self.observer.observe(peer, PeerEvent::Heard);
                true
            }
            Ok(None) => false,
            Err(_) => {
                self.observer.observe(peer, PeerEvent::Starved);
                false
            }
        }
    }

    // Feeds the node from one connection, if the node is free. The peer's claim is requested first,
    // if `challenge` has a nonce for that.
    fn feed<In, Out>(
        &self,
        peer: u16,
        challenge: Option<u64>,
        asking: &mut PeerReader,
        reader: In,
        writer: Out,
    ) -> Gain
    where
        In: Input + Drop,
        Out: Output + Drop,
        requires { IfSome challenge IsNonce }
        ensures seat { SeatGrows peer asking.old.seat asking.new.seat }
        ensures gain { (claimed : Bool) × (result
            ≡ gain_by claimed (drop (length asking.old.seat.receipts) asking.new.seat.receipts)) }
    {
        // for the proof, a law: the call does nothing
        judgement_opens();
        let NodeContext { rt, node, .. } = *self.context;
        if !node.keys().is_peer(peer) {
            return Gain::Nothing;
        }
        let mut reader = reader;
        let mut writer = writer;
        let claimed = match challenge {
            Some(nonce) => self.ask(peer, nonce, &mut reader, &mut writer),
            None => false,
        };
        if challenge.is_some() && !claimed {
            return Gain::Nothing;
        }
        let before = asking.seat.receipts().len();
        if node.standing(rt) == Standing::Free && self.begin(peer, asking) {
            let ended = read_ahead(
                self.context,
                self.gate,
                peer,
                self.ahead,
                asking,
                &mut reader,
                &mut writer,
            );
            self.tell_refusal(peer, ended);
        }
        let gain = Gain::of(claimed, before, asking.seat.receipts());
        if !claimed && gain == Gain::Taken {
            self.observer.observe(peer, PeerEvent::Heard);
        }
        gain
    }
}

// Returns how many whole seconds ago `begun` was. Without a clock, the answer is 0.
fn seconds_since<R: Clock>(rt: &R, begun: Option<Instant>) -> u64 {
    let Some(begun) = begun else {
        return 0;
    };
    match begun.elapsed(rt) {
        Ok(time) => time.as_secs(),
        Err(_) => 0,
    }
}
