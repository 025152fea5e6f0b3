//! What a running node shows about itself, and what looks at it.

ghost use Rattle.std.specs.Prelude.{◌≡◌, IfOk, IfSome, OnOk, map};
ghost use Rattle.pay_desk.specs.Words.{short_by};
ghost use Rattle.pay_net.specs.Figures.{AreFigures, AreFiguresOf, AreUsed, has_lied_by};
ghost use Rattle.pay_net.specs.Figures.{was_lost_by, was_met_by};
ghost use Rattle.pay_net.specs.Running.{peers_of};

use crate::contacts::{Contacts, News};
use crate::inbound::{InboundConnections, LOOKS_A_SECOND};
use crate::running::Pause;
use pay_book::{Entry, Excerpt};
use pay_durable::Keeper;
use pay_frame::SEQS;
use pay_member::PaymentState;
use pay_node::{Beginning, Gatherer, Node, OwnMember};
use pay_peers::{Observer, PeerEvent};
use std::alloc::{AllocError, Global};
use std::sync::Wait;
use std::time::{Clock, Duration};

/// Metrics of a member, all of one moment. They are the settled entries of each account, the
/// member's own balance, the length of its history, and the frames to be sent to each peer. Of its
/// own account they are the used numbers, the waiting entries (at most 1,000), and what the balance
/// lacks for the first of them.
#[derive(Drop)]
pub struct MemberFigures {
    pub fronts: Vec<u32>,
    pub balance: u64,
    pub entries: usize,
    pub sent: u64,
    pub used: u32,
    pub waiting: usize,
    pub short: u64,
}

/// What a node knows of a peer.
#[derive(Clone, Copy, Debug)]
pub struct PeerFigures {
    pub peer: u16,
    /// The event of the peer that was reported last.
    pub last: Option<News>,
    /// True if a frame in the peer's name failed authentication.
    pub mistrusted: bool,
    /// The seconds for which nothing came from the peer, if anything ever did.
    pub silent_seconds: Option<u64>,
    /// The count of frames that the peer requested.
    pub asked: u64,
}

impl PeerFigures {
    /// Returns whether the peer is connected.
    // promise: figures
    pub fn is_met(&self) -> bool
        ensures { result ≡ was_met_by self.now.last }
    {
        match self.last {
            Some(News::Met) => true,
            Some(News::Lost | News::GivenUp | News::Lied(_) | News::Unopened) | None => false,
        }
    }

    /// Returns whether the peer was connected and isn't now, was abandoned, or sent a protocol
    /// violation.
    // promise: figures
    pub fn is_lost(&self) -> bool
        ensures { result ≡ was_lost_by self.now.last }
    {
        match self.last {
            Some(News::Lost | News::GivenUp | News::Lied(_)) => true,
            Some(News::Met | News::Unopened) | None => false,
        }
    }

    /// Returns whether the peer sent a protocol violation.
    // promise: figures; lies
    pub fn has_lied(&self) -> bool
        ensures { result ≡ has_lied_by self.now.last }
    {
        match self.last {
            Some(News::Lied(_)) => true,
            Some(News::Met | News::Lost | News::GivenUp | News::Unopened) | None => false,
        }
    }
}

/// The metrics of a node.
#[derive(Drop)]
pub struct NodeFigures {
    pub member: MemberFigures,
    /// The count of the history's entries on the disk, if it is known.
    pub durable: Option<usize>,
    pub peers: Vec<PeerFigures>,
}

/// A viewer of a node's metrics, which sees them from time to time while the node runs.
pub trait Watcher {
    /// Notes `figures`, the metrics, in a thread that nothing else of the node waits for.
    fn watch(&self, figures: &NodeFigures);

    /// Notes that the member has lost state. This is reported once.
    fn forgets(&self);

    /// Notes that the node is out of memory. This is reported once.
    fn starves(&self);
}

/// A gatherer of a member's metrics.
#[derive(Drop)]
struct Showing {
    alloc: Global,
    figures: MemberFigures,
}

impl Gatherer for Showing {
    ghost gathers = { λ _ member answer new. OnOk answer (AreFigures member new.figures) };

    fn gather(&mut self, member: &OwnMember) -> Result<(), AllocError> {
        self.figures = figures_of(self.alloc, member)?;
        Ok(())
    }
}

/// Returns the metrics of the member of `node`, by one look at it.
pub(crate) fn member_figures<R, S>(
    rt: &R,
    alloc: Global,
    node: &Node<S>,
) -> Result<MemberFigures, AllocError>
where
    R: Wait,
    S: Beginning,
    ensures { IfOk result (AreFiguresOf node.now) }
{
    let mut showing = Showing {
        alloc,
        figures: MemberFigures {
            fronts: Vec::new(alloc),
            balance: 0,
            entries: 0,
            sent: 0,
            used: 0,
            waiting: 0,
            short: 0,
        },
    };
    node.lend(rt, &mut showing)?;
    Ok(showing.figures)
}

fn figures_of(alloc: Global, member: &OwnMember) -> Result<MemberFigures, AllocError>
    ensures { IfOk result (AreFigures member.now) }
{
    let own = member.keys().own();
    let waiting = member.view().waiting(alloc, own)?;
    Ok(MemberFigures {
        fronts: member.fronts(alloc)?,
        balance: member.balance(own),
        entries: member.history().len(),
        sent: member.sent_len(),
        used: used_of(member),
        waiting: waiting.entries().len(),
        short: short_of(&waiting),
    })
}

// Returns how many numbers of the member's own account are used, by bisection.
fn used_of(member: &OwnMember) -> u32
    ensures { AreUsed member.now result }
{
    let own = member.keys().own();
    let mut used: u32 = 0;
    let mut unknown = SEQS;
    while used < unknown {
        let middle = used + (unknown - used) / 2;
        match member.state(own, middle) {
            PaymentState::Unknown => unknown = middle,
            _ => used = middle + 1,
        }
    }
    used
}

// Returns what the balance lacks for the first entry that waits.
#[tactic(auto, unfolding(pay_desk::specs::Words::short_by))]
fn short_of(waiting: &Excerpt) -> u64
    ensures { result ≡ short_by waiting.now.balance waiting.now.entries }
{
    let Some(first) = waiting.entries().first() else {
        return 0;
    };
    match first.entry {
        Entry::Pay { amount, .. } => amount.saturating_sub(waiting.balance()),
        Entry::Void => 0,
    }
}

/// The display of a node's metrics to its observer.
#[derive(Drop)]
pub(crate) struct Watching<'a, R, S: Beginning, K, O> {
    pub rt: &'a R,
    pub alloc: Global,
    pub node: &'a Node<S>,
    pub keeper: &'a K,
    pub contacts: &'a Contacts<'a, R, O>,
    pub inbound: &'a InboundConnections,
    pub observer: &'a O,
    pub pause: &'a Pause,
}

impl<R, S, K, O> Watching<'_, R, S, K, O>
where
    R: Wait + Clock,
    S: Beginning,
    K: Keeper,
    O: Observer<News> + Watcher,
{
    /// Shows the metrics now and then in intervals of `every`, until the node stops.
    pub(crate) fn run(&self, every: Duration) {
        for _ in self.rt.forever() {
            if let Ok(figures) = self.figures() {
                self.observer.watch(&figures);
            }
            if self.pause.wait(self.rt, every) {
                return;
            }
        }
    }

    // Returns the node's metrics. The count of entries on the disk is taken first, so it isn't more
    // than the history has.
    // promise: figures
    fn figures(&self) -> Result<NodeFigures, AllocError>
        ensures member { IfOk result (λ figures. AreFiguresOf self.now.node.now figures.member) }
        ensures durable { IfOk result (λ figures.
            IfSome figures.durable (K.has self.now.keeper.now)) }
        ensures peers { IfOk result (λ figures.
            map (λ p. p.peer) figures.peers.items ≡ peers_of self.now.node.now.keys) }
    {
        let durable = self.keeper.durable(self.rt);
        let keys = self.node.keys();
        let peers = self
            .contacts
            .figures(self.alloc, keys.own(), keys.members(), self.inbound)?;
        self.figures_with(durable, peers)
    }

    // Returns the member's metrics together with these.
    // promise: figures
    fn figures_with(
        &self,
        durable: Option<usize>,
        peers: Vec<PeerFigures>,
    ) -> Result<NodeFigures, AllocError>
        ensures member { IfOk result (λ figures. AreFiguresOf self.now.node.now figures.member) }
        ensures durable { IfOk result (λ figures. figures.durable ≡ durable) }
        ensures peers { IfOk result (λ figures. figures.peers ≡ peers) }
    {
        Ok(NodeFigures {
            member: member_figures(self.rt, self.alloc, self.node)?,
            durable,
            peers,
        })
    }
}

/// The milliseconds between two looks at whether a node continues as it should.
const LOOK_MILLIS: u64 = 1_000 / LOOKS_A_SECOND;

/// A watch on whether a node's member has lost state or is out of memory, which is reported. The
/// watch also looks at the inbound connections.
#[derive(Drop)]
pub(crate) struct Noticing<'a, R, S: Beginning, O> {
    pub rt: &'a R,
    pub node: &'a Node<S>,
    pub contacts: &'a Contacts<'a, R, O>,
    pub inbound: &'a InboundConnections,
    pub observer: &'a O,
    pub pause: &'a Pause,
}

impl<R, S, O> Noticing<'_, R, S, O>
where
    R: Wait + Clock,
    S: Beginning,
    O: Observer<News> + Watcher,
{
    /// Looks until the member has lost state, or until the node stops, and once more then.
    pub(crate) fn run(&self) {
        let mut stops = false;
        let mut starves = false;
        for _ in self.rt.forever() {
            if self.node.forgets() {
                self.observer.forgets();
                return;
            }
            if stops {
                return;
            }
            self.inbound.look(self.rt, self.node);
            self.accuse_liars();
            if !starves && self.contacts.are_starved() {
                self.observer.starves();
                starves = true;
            }
            stops = self.pause.wait(self.rt, Duration::from_millis(LOOK_MILLIS));
        }
    }

    // Reports each peer with a protocol violation, unless that was reported before. Its reader
    // would report it only at the peer's next frame.
    fn accuse_liars(&self) {
        let keys = self.node.keys();
        for peer in 0..keys.members() {
            if peer == keys.own() || !self.node.may_have_lied(peer) {
                continue;
            }
            if let Some(lie) = self.node.lie(self.rt, peer) {
                self.contacts.observe(peer, PeerEvent::Lied(lie));
            }
        }
    }
}
