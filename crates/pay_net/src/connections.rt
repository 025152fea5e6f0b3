use std::alloc::{AllocError, Global};
use std::net::{Shutdown, TcpStream};
use std::sync::atomic::{AtomicBool, AtomicU64, Ordering};
use std::sync::{Mutex, Wait};

/// Clones of the open connections, so that they can be shut down while others read from them or
/// write to them.
///
/// There is a place for each connection that may be open at once. A clone holds its connection
/// open, so a thread that is done with a connection releases its place.
#[derive(Drop)]
pub(crate) struct Connections {
    places: Mutex<Vec<Option<TcpStream>>>,
    // a clock that counts each time that a connection was heard, and its value when each was heard
    // last
    heard: AtomicU64,
    heard_last: Vec<AtomicU64>,
}

impl Connections {
    /// Creates room for `most` connections.
    pub(crate) fn new(alloc: Global, most: u16) -> Result<Connections, AllocError> {
        let mut places = Vec::new(alloc);
        let mut heard_last = Vec::new(alloc);
        for _ in 0..most {
            places.push(None)?;
            heard_last.push(AtomicU64::new(0))?;
        }
        Ok(Connections {
            places: Mutex::new(places),
            heard: AtomicU64::new(0),
            heard_last,
        })
    }

    /// Keeps a clone of `stream` and returns its place. Returns `None` if all places are taken, if
    /// all connections are or will be shut down, or if the stream can't be cloned.
    ///
    /// `stop` is set before all are shut down, so what is kept after it was tested here is shut
    /// down with them.
    pub(crate) fn keep<R: Wait>(
        &self,
        rt: &R,
        stop: &AtomicBool,
        stream: &TcpStream,
    ) -> Option<usize> {
        let clone = stream.try_clone().ok()?;
        let mut places = self.places.lock(rt);
        if stop.load(Ordering::SeqCst) {
            return None;
        }
        let free = places.iter().position(|place| place.is_none())?;
        if let Some(place) = places.get_mut(free) {
            *place = Some(clone);
        }
        self.hear(free);
        Some(free)
    }

    /// Notes that something came on the connection at `place`.
    pub(crate) fn hear(&self, place: usize) {
        if let Some(last) = self.heard_last.get(place) {
            let before = self.heard.fetch_add(1, Ordering::SeqCst);
            last.store(before.saturating_add(1), Ordering::SeqCst);
        }
    }

    /// Returns how often connections were heard.
    pub(crate) fn times_heard(&self) -> u64 {
        self.heard.load(Ordering::SeqCst)
    }

    /// Shuts down the connection that wasn't heard for longest, if it wasn't heard after the time
    /// `since`. The connection keeps its place until its thread releases the place.
    pub(crate) fn shut_idlest<R: Wait>(&self, rt: &R, since: u64) {
        let places = self.places.lock(rt);
        let mut least = since;
        let mut idlest = None;
        for (place, last) in self.heard_last.iter().enumerate() {
            let heard = last.load(Ordering::SeqCst);
            if heard <= least {
                least = heard;
                idlest = Some(place);
            }
        }
        let Some(place) = idlest else {
            return;
        };
        if let Some(Some(stream)) = places.get(place) {
            let _ = stream.shutdown(Shutdown::Both);
        }
    }

    /// Shuts down the connection at `place`, and releases the place.
    pub(crate) fn shut<R: Wait>(&self, rt: &R, place: usize) {
        let mut places = self.places.lock(rt);
        shut(places.as_mut_slice(), place);
    }

    /// Shuts down all open connections. The connections keep their places.
    pub(crate) fn shut_all<R: Wait>(&self, rt: &R) {
        let places = self.places.lock(rt);
        shut_all(places.as_slice());
    }
}

/// Shuts down the connection at `place` of `kept`, if there is one, and keeps it no more.
pub(crate) fn shut(kept: &mut [Option<TcpStream>], place: usize) {
    if let Some(kept) = kept.get_mut(place) {
        if let Some(stream) = kept.take() {
            let _ = stream.shutdown(Shutdown::Both);
        }
    }
}

/// Shuts down all connections in `kept`, and keeps them.
pub(crate) fn shut_all(kept: &[Option<TcpStream>]) {
    for stream in kept.iter().flatten() {
        let _ = stream.shutdown(Shutdown::Both);
    }
}
