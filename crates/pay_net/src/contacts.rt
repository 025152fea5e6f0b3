//! What is known about each peer: whether it is connected, disconnected, abandoned or failed
//! authentication, and what is reported.

ghost use Rattle.std.specs.Prelude.{◌≡◌, ◌+◌, min, false, true, None, Some, if◌then◌else◌, IfSome};
ghost use Rattle.std.specs.Prelude.{◌/◌, IfOk, map, option_map};
ghost use Rattle.std.specs.Option.{option_or};
ghost use Rattle.pay_net.specs.Contacts.{MayFollow, is_lost, news_of_lie, news_when_heard};
ghost use Rattle.pay_net.specs.Running.{others_below};
ghost use Rattle.pay_net.specs.declared.contacts.News.TheVariants.{GivenUp, Lost, Unopened};

use crate::inbound::InboundConnections;
use crate::refusals::Refusals;
use crate::watching::PeerFigures;
use pay_member::Lie;
use pay_peers::{Observer, PeerEvent};
use std::alloc::{AllocError, Global};
use std::sync::atomic::{AtomicBool, Ordering};
use std::sync::{Mutex, Wait};
use std::time::{Clock, Instant};

/// A peer event that is reported.
#[derive(Clone, Copy, Debug, PartialEq, Eq)]
pub enum News {
    /// The peer made a claim on a challenge of this start, or a frame of it was accepted.
    Met,
    /// The peer was connected, and connecting to it fails now.
    Lost,
    /// The node connected to the peer for the last time.
    GivenUp,
    /// The peer sent a protocol violation, so nothing more is read from it.
    Lied(Lie),
    /// A frame in the peer's name failed authentication: its tag isn't the one under the shared
    /// key.
    Unopened,
}

/// The count of failed connections in a row to a peer until it is disconnected.
pub(crate) const LOST_DIALS: u64 = 2;

/// The milliseconds for which nothing came from a disconnected peer. So a peer is reported
/// disconnected and connected at most once a second.
pub(crate) const LOST_MILLIS: u64 = 1_000;

// A clock decides whether a peer is disconnected, so a peer that comes and goes can't fill a log
// file. A claim counts as hearing it, since peers that haven't paid send nothing else. A WANT
// doesn't count, since anyone can play it back. A connection alone doesn't either, since a tunnel's
// near end accepts any.
/// The state of a peer: the event that was reported last, and how many connections failed since it
/// was heard. It also says whether a failed authentication was reported.
#[derive(Drop)]
pub(crate) struct Contact {
    last: Option<News>,
    missed: u64,
    mistrusted: bool,
}

impl Contact {
    pub(crate) fn new() -> Contact
        ensures { result ≡ record { last = None; missed = 0; mistrusted = false } }
    {
        Contact {
            last: None,
            missed: 0,
            mistrusted: false,
        }
    }

    /// Returns the event that was reported last.
    pub(crate) fn last(&self) -> Option<News>
        ensures { result ≡ self.now.last }
    {
        self.last
    }

    /// Returns whether a frame in the peer's name failed authentication.
    pub(crate) fn is_mistrusted(&self) -> bool
        ensures { result ≡ self.now.mistrusted }
    {
        self.mistrusted
    }

    /// Notes that the peer was heard. Returns the event to report, if there is one.
    // promise: news of peers
    pub(crate) fn hear(&mut self) -> Option<News>
        ensures news { result ≡ news_when_heard self.old.last }
        ensures in_turn { IfSome result (MayFollow self.old.last) }
        ensures last { self.new.last ≡ option_or result self.old.last }
        ensures missed { self.new.missed ≡ 0 }
    {
        self.missed = 0;
        match self.last {
            Some(News::Met | News::GivenUp | News::Lied(_)) => None,
            None | Some(News::Lost | News::Unopened) => self.tell(News::Met),
        }
    }

    /// Notes that connecting to the peer failed, after `silence` milliseconds without anything from
    /// it. Returns the event to report, if there is one.
    // promise: news of peers
    pub(crate) fn miss(&mut self, silence: u64) -> Option<News>
        ensures missed { self.new.missed ≡ min (self.old.missed + 1) u64.MAX }
        ensures news { result
            ≡ (if is_lost self.old.last self.new.missed silence then Some Lost else None) }
        ensures in_turn { IfSome result (MayFollow self.old.last) }
        ensures last { self.new.last ≡ option_or result self.old.last }
    {
        self.missed = self.missed.saturating_add(1);
        if self.missed < LOST_DIALS || silence < LOST_MILLIS {
            return None;
        }
        match self.last {
            Some(News::Met) => self.tell(News::Lost),
            None | Some(News::Lost | News::GivenUp | News::Lied(_) | News::Unopened) => None,
        }
    }

    /// Notes that the node connected to the peer for the last time. Returns the event to report.
    // promise: news of peers
    pub(crate) fn give_up(&mut self) -> Option<News>
        ensures news { result ≡ Some GivenUp }
        ensures last { self.new.last ≡ result }
    {
        self.tell(News::GivenUp)
    }

    /// Notes that the peer sent a protocol violation, `lie`. The violation is reported once, and
    /// after it only a failed authentication is.
    // promise: news of peers; lies
    pub(crate) fn accuse(&mut self, lie: Lie) -> Option<News>
        ensures news { result ≡ news_of_lie self.old.last lie }
        ensures in_turn { IfSome result (MayFollow self.old.last) }
        ensures last { self.new.last ≡ option_or result self.old.last }
    {
        match self.last {
            Some(News::Lied(_)) => None,
            None | Some(News::Met | News::Lost | News::GivenUp | News::Unopened) => {
                self.tell(News::Lied(lie))
            }
        }
    }

    /// Notes that a frame in the peer's name failed authentication. The failure is reported once,
    /// and changes nothing else.
    // promise: news of peers
    pub(crate) fn mistrust(&mut self) -> Option<News>
        ensures news { result ≡ (if self.old.mistrusted then None else Some Unopened) }
        ensures same { self.new ≡ record self.old { mistrusted = true } }
    {
        if self.mistrusted {
            return None;
        }
        self.mistrusted = true;
        Some(News::Unopened)
    }

    fn tell(&mut self, news: News) -> Option<News>
        ensures news { result ≡ Some news }
        ensures same { self.new ≡ record self.old { last = Some news } }
    {
        self.last = Some(news);
        self.last
    }
}

/// The state of a running node's peers, and what their events are reported to. After the node stops
/// nothing is reported any more.
#[derive(Drop)]
pub(crate) struct Contacts<'a, R, O> {
    rt: &'a R,
    observer: &'a O,
    stop: &'a AtomicBool,
    peers: Vec<Mutex<Heard>>,
    begun: Option<Instant>,
    refusals: Mutex<Refusals>,
}

// The state of a peer, and when it was heard last.
#[derive(Drop)]
struct Heard {
    contact: Contact,
    last: Option<Instant>,
}

impl<'a, R: Wait + Clock, O: Observer<News>> Contacts<'a, R, O> {
    /// Creates the states of `members` peers, none of them heard. Events are reported to `observer`
    /// until `stop` is set.
    pub(crate) fn new(
        rt: &'a R,
        alloc: Global,
        observer: &'a O,
        stop: &'a AtomicBool,
        members: u16,
    ) -> Result<Contacts<'a, R, O>, AllocError> {
        let mut peers = Vec::new(alloc);
        for _ in 0..members {
            peers.push(Mutex::new(Heard {
                contact: Contact::new(),
                last: None,
            }))?;
        }
        Ok(Contacts {
            rt,
            observer,
            stop,
            peers,
            begun: Instant::now(rt).ok(),
            refusals: Mutex::new(Refusals::new()),
        })
    }

    /// Returns what is known now about each peer of the member `own` among `members`.
    // promise: figures
    pub(crate) fn figures(
        &self,
        alloc: Global,
        own: u16,
        members: u16,
        inbound: &InboundConnections,
    ) -> Result<Vec<PeerFigures>, AllocError>
        ensures { IfOk result (λ figures.
            map (λ p. p.peer) figures.items ≡ others_below own members) }
    {
        let mut figures = Vec::new(alloc);
        for peer in 0..members {
            if peer != own {
                figures.push(self.figures_of(peer, inbound))?;
            }
        }
        Ok(figures)
    }

    fn figures_of(&self, peer: u16, inbound: &InboundConnections) -> PeerFigures
        ensures { result.peer ≡ peer }
    {
        let asked = inbound.want_count(self.rt, peer);
        let Some(heard) = self.peers.get(usize::from(peer)) else {
            return figures_by(peer, &Contact::new(), None, asked);
        };
        let heard = heard.lock(self.rt);
        let silence = match heard.last {
            Some(_) => Some(silence_since(self.rt, heard.last)),
            None => None,
        };
        figures_by(peer, &heard.contact, silence, asked)
    }

    /// Returns whether the threads that read from peers are still out of memory.
    pub(crate) fn are_starved(&self) -> bool {
        self.refusals.lock(self.rt).are_lasting()
    }

    // Notes that memory ran out. Without a clock, this always happens at one time.
    fn note_refusal(&self) {
        let now = silence_since(self.rt, self.begun);
        self.refusals.lock(self.rt).note(now);
    }

    // Reports an event of `peer`, if there is one, under its lock, so that no other event of it is
    // reported before.
    fn tell(&self, peer: u16, news: Option<News>) {
        if let Some(news) = news {
            if !self.stop.load(Ordering::SeqCst) {
                self.observer.observe(peer, news);
            }
        }
    }
}

impl<R: Wait + Clock, O: Observer<News>> Observer<PeerEvent> for Contacts<'_, R, O> {
    fn observe(&self, peer: u16, event: PeerEvent) {
        if let Some(heard) = self.peers.get(usize::from(peer)) {
            let mut heard = heard.lock(self.rt);
            let news = match event {
                PeerEvent::Heard => {
                    heard.last = Instant::now(self.rt).ok();
                    heard.contact.hear()
                }
                PeerEvent::Missed => {
                    let silence = silence_since(self.rt, heard.last);
                    heard.contact.miss(silence)
                }
                PeerEvent::GaveUp => heard.contact.give_up(),
                PeerEvent::Lied(lie) => heard.contact.accuse(lie),
                PeerEvent::Unopened => heard.contact.mistrust(),
                PeerEvent::Starved => {
                    self.note_refusal();
                    None
                }
            };
            self.tell(peer, news);
        }
    }
}

// Returns what is known about a peer that was silent for `silence` milliseconds and requested
// `asked` frames.
// promise: figures
fn figures_by(peer: u16, contact: &Contact, silence: Option<u64>, asked: u64) -> PeerFigures
    ensures peer { result.peer ≡ peer }
    ensures last { result.last ≡ contact.now.last }
    ensures mistrusted { result.mistrusted ≡ contact.now.mistrusted }
    ensures silent { result.silent_seconds ≡ option_map (λ millis. millis / 1000) silence }
    ensures asked { result.asked ≡ asked }
{
    PeerFigures {
        peer,
        last: contact.last(),
        mistrusted: contact.is_mistrusted(),
        silent_seconds: match silence {
            Some(millis) => Some(millis / 1_000),
            None => None,
        },
        asked,
    }
}

// Returns how many milliseconds ago `last` was. Without a clock, the answer is the greatest number.
fn silence_since<R: Clock>(rt: &R, last: Option<Instant>) -> u64 {
    let Some(last) = last else {
        return u64::MAX;
    };
    match last.elapsed(rt) {
        Ok(silence) => u64::try_from(silence.as_millis()).unwrap_or(u64::MAX),
        Err(_) => u64::MAX,
    }
}
