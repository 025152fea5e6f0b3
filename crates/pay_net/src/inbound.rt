//! The inbound connections: which of them are current, and which are closed for newcomers.

ghost use Rattle.std.specs.Prelude.{◌≡◌, ◌↔◌, ◌<◌, ◌&&◌, ◌++◌, ◌∷◌, [], None, IfOk, IfSome, IsTrue};
ghost use Rattle.std.specs.Prelude.{OnErr, OnOk, Some, cond, count_by, length, position, replicate};
ghost use Rattle.std.specs.Prelude.{slice_set};
ghost use Rattle.std.specs.List.{Any};
ghost use Rattle.pay_net.specs.Inbound.{is_current_of, is_nobody, is_waiting_of, waits_beside};
ghost use Rattle.pay_net.specs.Inbound.{IsCurrentOnce, has_another, has_another_at, is_new};
ghost use Rattle.pay_net.specs.Inbound.{list_with_claim, list_with_current, list_with_owner};
ghost use Rattle.pay_net.specs.Inbound.{place_at, standing_after, stands_at, want_count};
ghost use Rattle.pay_net.specs.Inbound.{who_makes_place, without};

use crate::connections::{shut, shut_all};
use pay_frame::MOST_MEMBERS;
use pay_node::{Beginning, Node};
use pay_peers::QUIET_SECONDS;
use std::alloc::{AllocError, Global};
use std::marker::Model;
use std::net::{Shutdown, TcpStream};
use std::sync::atomic::{AtomicBool, AtomicU64, Ordering};
use std::sync::{Mutex, Wait};

/// The owner of an inbound connection.
#[derive(Clone, Copy)]
pub(crate) enum Owner {
    /// No WANT on the connection was authenticated.
    Nobody,
    /// The sender of the connection's first WANT. The connection isn't this peer's current one.
    Peer(u16),
    /// This peer, and the connection is its current one: the last on which it requested a number
    /// above all before.
    Current(u16),
}

impl Owner {
    pub(crate) fn is_nobody(self) -> bool
        ensures { result ≡ is_nobody self }
    {
        match self {
            Owner::Nobody => true,
            Owner::Peer(_) | Owner::Current(_) => false,
        }
    }

    pub(crate) fn is_current_of(self, peer: u16) -> bool
        ensures { result ≡ is_current_of peer self }
    {
        match self {
            Owner::Current(own) => own == peer,
            Owner::Nobody | Owner::Peer(_) => false,
        }
    }

    /// Returns whether both are nobody's, or both belong to one peer and aren't its current one.
    pub(crate) fn waits_beside(self, other: Owner) -> bool
        ensures { result ≡ waits_beside self other }
    {
        match self {
            Owner::Nobody => other.is_nobody(),
            Owner::Peer(peer) => other.is_waiting_of(peer),
            Owner::Current(_) => false,
        }
    }

    fn is_waiting_of(self, peer: u16) -> bool
        ensures { result ≡ is_waiting_of peer self }
    {
        match self {
            Owner::Peer(own) => own == peer,
            Owner::Nobody | Owner::Current(_) => false,
        }
    }
}

/// The place of an inbound connection, and its owner.
#[derive(Clone, Copy)]
pub(crate) struct Inbound {
    pub(crate) place: usize,
    pub(crate) owner: Owner,
}

// A peer's current inbound connection is the one that last requested a number above all before, and
// no newcomer ends it. A WANT's bytes never change, so anyone who recorded a WANT can play it back
// without a key, but not a WANT that hasn't come yet. A correct peer sends a new WANT with each
// frame that it accepts. A replay becomes a peer's, waits, and is closed for the next newcomer.
//
// The oldest connection that isn't current and has another of its owner beside it is closed. Nobody
// counts as an owner too. So no peer needs to request anything new to keep one connection besides
// its current one. A peer that comes by a slow tunnel isn't ended by replays before its first WANT
// is there. 127 peers with two connections each and one of nobody have 255 places of 256, so there
// always is one to close. Replays could exhaust a bound for each peer, as they once exhausted a
// bound of two.
//
// Replays may delay a peer, and never keep it out. A peer that connects again has no current
// connection until it requests a number above its earlier requests, which are as many as its
// pipelining depth. Until then its connection is served like any other, and ended after some 250
// newer ones in a small group. At 100 replays a second it connects again every few seconds. A node
// that has just started knows no numbers, so a replay may be current until the peer requests more.
// A faulty member with its key can have some 250 connections wait, and each costs a wake-up at
// every change. 1,500 payments at once then take 16 times as long, and a payment alone twice.
/// The open inbound connections, oldest first, with the greatest number that each peer requested.
#[derive(Drop)]
pub(crate) struct InboundList {
    inbound: Vec<Inbound>,
    greatest: Vec<Option<u64>>,
}

impl Model for InboundList {
    ghost use Rattle.pay_net.specs.Inbound.{IsCurrentOnce, InboundState};

    ghost Value = { InboundState };

    ghost view = { λ l. record { inbound = l.inbound.items; greatest = l.greatest.items } };

    ghost invariant = { λ l. IsCurrentOnce l.inbound.items };
}

impl InboundList {
    /// Creates room for `most` connections, without requests of any peer.
    pub(crate) fn new(alloc: Global, most: u16) -> Result<InboundList, AllocError>
        ensures { IfOk result (λ list.
            list ≡ record { inbound = []; greatest = replicate MOST_MEMBERS None }) }
    {
        let inbound = Vec::with_capacity(alloc, usize::from(most))?;
        let greatest = vec![in alloc; None; usize::from(MOST_MEMBERS)]?;
        Ok(InboundList { inbound, greatest })
    }

    /// Returns how many connections are open.
    pub(crate) fn len(&self) -> usize
        ensures { result ≡ length self.now.inbound }
    {
        self.inbound.len()
    }

    /// Returns whether a connection is open at `place`.
    pub(crate) fn has(&self, place: usize) -> bool
        ensures { IsTrue result ↔ Any (λ g. g.place ≡ place) self.now.inbound }
    {
        self.inbound
            .iter()
            .any(|connection| connection.place == place)
    }

    /// Adds a connection at `place`, as nobody's.
    pub(crate) fn enter(&mut self, place: usize) -> Result<(), AllocError>
        ensures ok { OnOk result (self.new ≡ record self.old {
          inbound
              = self.old.inbound ++ (record { place = place; owner = Owner.Nobody }) ∷ [];
        }) }
        ensures err { OnErr result (self.new ≡ self.old) }
    {
        self.inbound.push(Inbound {
            place,
            owner: Owner::Nobody,
        })?;
        Ok(())
    }

    /// Removes the connection at `place`.
    pub(crate) fn leave(&mut self, place: usize)
        ensures { self.new ≡ record self.old {
          inbound
              = without (position (stands_at place) self.old.inbound) self.old.inbound;
        } }
    {
        let at = first_at(self.inbound.as_slice(), place);
        let _ = taken_off(&mut self.inbound, at);
    }

    /// Removes the connection at `place`, if another waits beside it. Returns whether one does.
    // promise: inbound connections
    pub(crate) fn leave_another(&mut self, place: usize) -> bool
        ensures another { result ≡ has_another_at place self.old.inbound }
        ensures left { self.new ≡ cond result (record self.old {
          inbound
              = without (position (stands_at place) self.old.inbound) self.old.inbound;
        }) self.old }
    {
        if !has_another_at(self.inbound.as_slice(), place) {
            return false;
        }
        self.leave(place);
        true
    }

    /// Removes a connection to make room for a newcomer, and returns its place.
    // promise: inbound connections
    pub(crate) fn make_place(&mut self) -> Option<usize>
        ensures place { result ≡ place_at (who_makes_place self.old.inbound) self.old.inbound }
        ensures left { self.new ≡ record self.old {
          inbound
              = without (who_makes_place self.old.inbound) self.old.inbound;
        } }
    {
        let at = makes_place(self.inbound.as_slice());
        taken_off(&mut self.inbound, at)
    }

    /// Returns how many frames `peer` requested.
    // promise: figures
    pub(crate) fn want_count(&self, peer: u16) -> u64
        ensures { result ≡ want_count peer self.now.greatest }
    {
        match self.greatest.get(usize::from(peer)) {
            Some(Some(greatest)) => greatest.saturating_add(1),
            Some(None) | None => 0,
        }
    }

    /// Notes that a WANT of `peer` for `number` came at `place`.
    // promise: inbound connections
    pub(crate) fn ask(&mut self, place: usize, peer: u16, number: u64)
        ensures after { self.new ≡ standing_after place peer number self.old }
        ensures once { IsCurrentOnce self.new.inbound }
    {
        if is_noted(&mut self.greatest, peer, number) {
            make_current(&mut self.inbound, place, peer);
        } else {
            claim(&mut self.inbound, place, peer);
        }
    }
}

// Notes a number that `peer` requests, if it is above those before. Returns whether it is.
fn is_noted(greatest: &mut Vec<Option<u64>>, peer: u16, number: u64) -> bool
    ensures new { result ≡ is_new peer number greatest.old.items }
    ensures noted { greatest.new.items
        ≡ cond result (slice_set greatest.old.items peer (Some number)) greatest.old.items }
{
    let Some(most) = greatest.get_mut(usize::from(peer)) else {
        return false;
    };
    if let Some(most) = *most {
        if number <= most {
            return false;
        }
    }
    *most = Some(number);
    true
}

// Makes the connection at `place` the current one of `peer`, and no other.
fn make_current(inbound: &mut Vec<Inbound>, place: usize, peer: u16)
    ensures { inbound.new.items ≡ list_with_current place peer inbound.old.items }
{
    let former = first_current(inbound.as_slice(), peer);
    set_owner(inbound, former, Owner::Peer(peer));
    let at = first_at(inbound.as_slice(), place);
    set_owner(inbound, at, Owner::Current(peer));
}

// Makes the connection at `place` the peer's, if it is nobody's.
fn claim(inbound: &mut Vec<Inbound>, place: usize, peer: u16)
    ensures { inbound.new.items ≡ list_with_claim place peer inbound.old.items }
{
    let at = first_stranger_at(inbound.as_slice(), place);
    set_owner(inbound, at, Owner::Peer(peer));
}

// Returns the index of the connection that is removed for a newcomer.
fn makes_place(inbound: &[Inbound]) -> Option<usize>
    ensures value { result ≡ who_makes_place inbound.now }
    ensures within { IfSome result (λ at. at < length inbound.now) }
{
    inbound
        .iter()
        .position(|connection| has_another(inbound, connection))
}

fn has_another(inbound: &[Inbound], connection: &Inbound) -> bool
    ensures { result ≡ has_another inbound.now connection.now }
{
    waiting_beside(inbound, connection.owner) > 1
}

fn has_another_at(inbound: &[Inbound], place: usize) -> bool
    ensures { result ≡ has_another_at place inbound.now }
{
    inbound.iter().any(|connection| connection.place == place && has_another(inbound, connection))
}

fn waiting_beside(inbound: &[Inbound], owner: Owner) -> usize
    ensures { result ≡ count_by (λ g. waits_beside owner g.owner) inbound.now }
{
    inbound
        .iter()
        .filter(|connection| owner.waits_beside(connection.owner))
        .count()
}

fn first_at(inbound: &[Inbound], place: usize) -> Option<usize>
    ensures value { result ≡ position (stands_at place) inbound.now }
    ensures within { IfSome result (λ at. at < length inbound.now) }
{
    inbound
        .iter()
        .position(|connection| connection.place == place)
}

fn first_current(inbound: &[Inbound], peer: u16) -> Option<usize>
    ensures value { result ≡ position (λ g. is_current_of peer g.owner) inbound.now }
    ensures within { IfSome result (λ at. at < length inbound.now) }
{
    inbound
        .iter()
        .position(|connection| connection.owner.is_current_of(peer))
}

fn first_stranger_at(inbound: &[Inbound], place: usize) -> Option<usize>
    ensures value { result
        ≡ position (λ g. is_nobody g.owner && stands_at place g) inbound.now }
    ensures within { IfSome result (λ at. at < length inbound.now) }
{
    inbound.iter().position(|connection| connection.owner.is_nobody() && connection.place == place)
}

// Removes the connection at the index `at` from a list, and returns its place.
fn taken_off(inbound: &mut Vec<Inbound>, at: Option<usize>) -> Option<usize>
    requires { IfSome at (λ i. i < length inbound.old.items) }
    ensures place { result ≡ place_at at inbound.old.items }
    ensures left { inbound.new.items ≡ without at inbound.old.items }
{
    let at = at?;
    let connection = inbound.remove(at);
    Some(connection.place)
}

// Gives the connection at the index `at`, if there is one, this `owner`.
fn set_owner(inbound: &mut Vec<Inbound>, at: Option<usize>, owner: Owner)
    requires { IfSome at (λ i. i < length inbound.old.items) }
    ensures { inbound.new.items ≡ list_with_owner at owner inbound.old.items }
{
    if let Some(at) = at {
        inbound[at].owner = owner;
    }
}

/// How often the connections are looked at in a second.
pub(crate) const LOOKS_A_SECOND: u64 = 10;

/// The count of looks after its last new WANT that make a connection quiet: its peer has connected
/// again long before.
const QUIET_LOOKS: u64 = 2 * QUIET_SECONDS * LOOKS_A_SECOND;

/// The inbound connections. Each has a place, and a flag that ends its wait for what isn't sent
/// yet. A quiet connection with another one waiting beside it is abandoned.
///
/// An abandoned connection is nobody's at once, and isn't open any more. Another comes to its place
/// after its thread released the place. So a flag is never lowered while somebody may still have to
/// see it.
#[derive(Drop)]
pub(crate) struct InboundConnections {
    room: Mutex<Room>,
    leave: Vec<AtomicBool>,
    // a clock that counts the looks, and its value when each connection last requested something
    // new
    looks: AtomicU64,
    asked: Vec<AtomicU64>,
}

/// What became of a connection that wants a place.
#[derive(Clone, Copy)]
pub(crate) enum Entry {
    At(usize),
    /// All places are taken. A connection is abandoned, if none was up to now.
    Full,
    /// The connection can't be kept, or no more connections are kept.
    Refused,
}

// The open connections, and for each place a clone of its connection, which serves to shut it down.
#[derive(Drop)]
struct Room {
    list: InboundList,
    streams: Vec<Option<TcpStream>>,
}

impl InboundConnections {
    /// Creates room for `most` connections.
    pub(crate) fn new(alloc: Global, most: u16) -> Result<InboundConnections, AllocError> {
        let list = InboundList::new(alloc, most)?;
        let mut streams = Vec::new(alloc);
        let mut leave = Vec::new(alloc);
        let mut asked = Vec::new(alloc);
        for _ in 0..most {
            streams.push(None)?;
            leave.push(AtomicBool::new(false))?;
            asked.push(AtomicU64::new(0))?;
        }
        Ok(InboundConnections {
            room: Mutex::new(Room { list, streams }),
            leave,
            looks: AtomicU64::new(0),
            asked,
        })
    }

    /// Gives the connection `stream` a place, unless all connections are or will be shut down.
    ///
    /// `stop` is set before all are shut down, so what is kept after it was tested here is shut
    /// down with them.
    pub(crate) fn admit<R, S>(
        &self,
        rt: &R,
        node: &Node<S>,
        stop: &AtomicBool,
        stream: &TcpStream,
    ) -> Entry
    where
        R: Wait,
        S: Beginning,
    {
        let Ok(clone) = stream.try_clone() else {
            return Entry::Refused;
        };
        let mut room = self.room.lock(rt);
        if stop.load(Ordering::SeqCst) {
            return Entry::Refused;
        }
        let Some(free) = room.streams.iter().position(|kept| kept.is_none()) else {
            if room.list.len() == room.streams.len() {
                let place = room.list.make_place();
                self.give_up(rt, node, &*room, place);
            }
            return Entry::Full;
        };
        if room.list.enter(free).is_err() {
            return Entry::Refused;
        }
        if let (Some(kept), Some(leave)) = (room.streams.get_mut(free), self.leave.get(free)) {
            leave.store(false, Ordering::SeqCst);
            *kept = Some(clone);
        }
        self.note_asked(free);
        Entry::At(free)
    }

    /// Notes that a WANT of `peer` for `number` came on the connection at `place`. The connection
    /// is the peer's from then on, and its current one if the number is above all before. Returns
    /// whether the connection is still open.
    pub(crate) fn ask<R: Wait>(&self, rt: &R, place: usize, peer: u16, number: u64) -> bool {
        let mut room = self.room.lock(rt);
        self.note_asked(place);
        room.list.ask(place, peer, number);
        room.list.has(place)
    }

    /// Returns how many frames `peer` requested.
    pub(crate) fn want_count<R: Wait>(&self, rt: &R, peer: u16) -> u64 {
        self.room.lock(rt).list.want_count(peer)
    }

    /// Counts a look, and abandons the quiet connections with another one waiting beside them:
    /// their peers have connected again long before.
    pub(crate) fn look<R: Wait, S: Beginning>(&self, rt: &R, node: &Node<S>) {
        let looks = self.looks.fetch_add(1, Ordering::SeqCst);
        for (place, asked) in self.asked.iter().enumerate() {
            if looks.saturating_sub(asked.load(Ordering::SeqCst)) > QUIET_LOOKS {
                self.give_up_another(rt, node, place);
            }
        }
    }

    // Abandons the connection at `place`, if another waits beside it.
    fn give_up_another<R: Wait, S: Beginning>(&self, rt: &R, node: &Node<S>, place: usize) {
        let mut room = self.room.lock(rt);
        if room.list.leave_another(place) {
            self.give_up(rt, node, &*room, Some(place));
        }
    }

    // Notes that something new was requested at `place` now.
    fn note_asked(&self, place: usize) {
        if let Some(asked) = self.asked.get(place) {
            asked.store(self.looks.load(Ordering::SeqCst), Ordering::SeqCst);
        }
    }

    /// Returns the flag of `place`.
    pub(crate) fn leave(&self, place: usize) -> Option<&AtomicBool> {
        self.leave.get(place)
    }

    /// Returns the flags of all places.
    pub(crate) fn all_leave(&self) -> &[AtomicBool] {
        self.leave.as_slice()
    }

    /// Shuts down the connection at `place`, and releases the place.
    pub(crate) fn shut<R: Wait>(&self, rt: &R, place: usize) {
        let mut room = self.room.lock(rt);
        room.list.leave(place);
        shut(room.streams.as_mut_slice(), place);
    }

    /// Shuts down all connections that are answered. The connections keep their places.
    pub(crate) fn shut_all<R: Wait>(&self, rt: &R) {
        let room = self.room.lock(rt);
        shut_all(room.streams.as_slice());
    }

    // Ends every wait of the thread of a removed connection, so that it releases the place.
    fn give_up<R, S>(&self, rt: &R, node: &Node<S>, room: &Room, place: Option<usize>)
    where
        R: Wait,
        S: Beginning,
    {
        let Some(place) = place else {
            return;
        };
        if let (Some(Some(stream)), Some(leave)) = (
            room.streams.get(place),
            self.leave.get(place),
        ) {
            let _ = stream.shutdown(Shutdown::Both);
            // under the lock, so that no other connection comes to this place before the flag is
            // set
            node.stop_waiting(rt, leave);
        }
    }
}
