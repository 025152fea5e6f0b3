//! A log over a disk that fails at each of its calls, and over one that loses part of a write.

ghost use Rattle.std.specs.Prelude.{[]};

use pay_log::{
    Device, DeviceFault, Header, Log, LogFault, LossyFile, MOST_PAYLOAD, Payloads, Recovered,
    read_log, recover,
};
use std::alloc::Global;
use std::io::ErrorKind;
use std::process::Abort;
use std::test::Fail;

const KEY: [u8; 32] = [7; 32];

const HEADER: Header = Header {
    genesis: [1; 32],
    member: 2,
    keys: [3; 32],
};

/// How a failing disk fails.
pub(crate) const FULL: ErrorKind = ErrorKind::StorageFull;

/// What is appended, each in one chunk: of 57, 52 and 61 bytes after the header's 75.
const TEXTS: &[&str] = &["first", "", "the third"];

/// The place at which each record block ends in the file, after the header.
const ENDS: &[usize] = &[75, 132, 184, 245];

/// A disk with a call that fails, by its number from 0. Of an append in that call `torn` bytes are
/// written. The disk keeps what a crash leaves.
#[derive(Drop)]
pub(crate) struct FailingDisk {
    pub(crate) bytes: Vec<u8>,
    fails: usize,
    torn: usize,
    pub(crate) calls: usize,
}

impl FailingDisk {
    pub(crate) fn new(bytes: Vec<u8>, fails: usize, torn: usize) -> FailingDisk {
        FailingDisk {
            bytes,
            fails,
            torn,
            calls: 0,
        }
    }

    // Returns whether this call fails, and counts the call.
    fn is_failing(&mut self) -> bool {
        let fails = self.calls == self.fails;
        self.calls = self.calls.saturating_add(1);
        fails
    }
}

impl Device for FailingDisk {
    ghost is_known = { λ f. ⊥ };

    ghost seen = { λ f. [] };

    ghost may_leave = { λ f c. ⊥ };

    ghost moment = { λ f. 0 };

    ghost left_since = { λ f t c. ⊥ };

    ghost counts_now = { λ f t c le now. now };

    ghost only_now = { λ f c left. left };

    fn read(&mut self, alloc: Global, from: usize, most: usize) -> Result<Vec<u8>, DeviceFault> {
        let end = from.saturating_add(most).min(self.bytes.len());
        let from = from.min(end);
        Ok(self.bytes[from..end].to_vec(alloc)?)
    }

    fn append(&mut self, bytes: &[u8]) -> Result<(), ErrorKind> {
        let fails = self.is_failing();
        let len = if fails {
            self.torn.min(bytes.len())
        } else {
            bytes.len()
        };
        let Ok(()) = self.bytes.extend_from_slice(&bytes[..len]) else {
            return Err(FULL);
        };
        if fails { Err(FULL) } else { Ok(()) }
    }

    fn sync(&mut self) -> Result<(), ErrorKind> {
        if self.is_failing() { Err(FULL) } else { Ok(()) }
    }
}

/// A disk that outlives its log.
#[derive(Drop)]
struct Lent<'a> {
    disk: &'a mut FailingDisk,
}

impl Device for Lent<'_> {
    ghost is_known = { λ f. ⊥ };

    ghost seen = { λ f. [] };

    ghost may_leave = { λ f c. ⊥ };

    ghost moment = { λ f. 0 };

    ghost left_since = { λ f t c. ⊥ };

    ghost counts_now = { λ f t c le now. now };

    ghost only_now = { λ f c left. left };

    fn read(&mut self, alloc: Global, from: usize, most: usize) -> Result<Vec<u8>, DeviceFault> {
        self.disk.read(alloc, from, most)
    }

    fn append(&mut self, bytes: &[u8]) -> Result<(), ErrorKind> {
        self.disk.append(bytes)
    }

    fn sync(&mut self) -> Result<(), ErrorKind> {
        self.disk.sync()
    }
}

fn append_text<D: Device>(alloc: Global, log: &mut Log<D>, text: &str) -> Result<(), LogFault> {
    let payload = text.as_bytes();
    if payload.len() > MOST_PAYLOAD {
        return Err(LogFault::from(FULL));
    }
    Ok(log.append(alloc, payload)?)
}

/// Returns how many texts `payloads` has, if they are a prefix of all texts.
fn texts_in(payloads: &Payloads) -> Option<usize> {
    for (place, payload) in payloads.items.iter().enumerate() {
        if place >= TEXTS.len() || payload.as_slice() != TEXTS[place].as_bytes() {
            return None;
        }
    }
    Some(payloads.items.len())
}

/// Creates a disk of `bytes` that doesn't fail.
fn sound_disk(alloc: Global, bytes: &[u8]) -> Result<FailingDisk, Fail> {
    Ok(FailingDisk::new(bytes.to_vec(alloc)?, usize::MAX, 0))
}

/// Returns how many texts are read from a log of `bytes` on a disk that doesn't fail, if they are a
/// prefix of all texts.
fn texts_on(alloc: Global, bytes: &[u8]) -> Result<Option<usize>, Fail> {
    let mut disk = sound_disk(alloc, bytes)?;
    let mut payloads = Payloads::new(alloc);
    read_log(alloc, &mut disk, &KEY, &HEADER, &mut payloads)?;
    Ok(texts_in(&payloads))
}

/// Returns the log after a crash at the call `fails`, with `torn` bytes of an append written. It
/// also returns how many texts were acknowledged, and whether each call after a failed one failed
/// too. Returns `None` if no log could be created.
fn log_after_crash(
    alloc: Global,
    fails: usize,
    torn: usize,
) -> Result<Option<(Vec<u8>, usize, bool)>, Fail> {
    let mut disk = FailingDisk::new(Vec::new(alloc), fails, torn);
    let Ok(log) = Log::create(alloc, Lent { disk: &mut disk }, &KEY, &HEADER) else {
        return Ok(None);
    };
    let mut log = log;
    let mut acknowledged = 0;
    let mut has_failed = false;
    let mut stops = true;
    for (place, text) in TEXTS.iter().enumerate() {
        match append_text(alloc, &mut log, text) {
            Ok(()) => {
                stops = stops && !has_failed;
                acknowledged = place + 1;
            }
            Err(fault) => {
                stops = stops && fault == LogFault::from(FULL);
                has_failed = true;
            }
        }
    }
    drop(log);
    Ok(Some((disk.bytes, acknowledged, stops)))
}

#[test]
fn failing_disk_loses_no_acknowledged_text(rt: HostRuntime) -> Result<(), Fail> {
    for fails in 0..9 {
        for torn in 0..62 {
            let left = log_after_crash(rt.alloc(), fails, torn)?;
            assert!(rt; left.is_some() == (fails > 1), "call {fails}");
            let Some((bytes, acknowledged, stops)) = left else {
                continue;
            };
            assert!(rt; stops, "call {fails}");
            let read = texts_on(rt.alloc(), &bytes)?;
            let is_right = read == Some(acknowledged)
                || read == Some(acknowledged.saturating_add(1));
            assert!(rt; is_right, "call {fails}, {torn} bytes");
        }
    }
    Ok(())
}

/// Creates a log of all texts on a disk that doesn't fail, and returns its bytes.
fn texts_bytes(alloc: Global) -> Result<Vec<u8>, Fail> {
    match log_after_crash(alloc, usize::MAX, 0)? {
        Some((bytes, ..)) => Ok(bytes),
        None => Err(Fail::new("no log")),
    }
}

/// Returns the bytes from the place `from` to the place `to`, as far as `bytes` has any.
fn part(bytes: &[u8], from: usize, to: usize) -> &[u8] {
    let to = to.min(bytes.len());
    let from = from.min(to);
    &bytes[from..to]
}

/// Returns how many texts are read again from a log of `bytes` on a lossy disk, after a crash left
/// `torn` of a further write.
fn texts_after_a_crash(alloc: Global, bytes: &[u8], torn: &[u8]) -> Result<Option<usize>, Fail> {
    let mut left = bytes.to_vec(alloc)?;
    left.extend_from_slice(torn)?;
    let mut old = LossyFile::new(alloc, left);
    let new = LossyFile::new(alloc, Vec::new(alloc));
    let payloads = Payloads::new(alloc);
    let recovered = recover(alloc, &mut old, new, &KEY, &HEADER, payloads)?;
    let Recovered { mut log, sink, .. } = recovered;
    append_text(alloc, &mut log, "a fourth")?;
    Ok(texts_in(&sink))
}

#[test]
fn lossy_disk_loses_no_acknowledged_text(rt: HostRuntime) -> Result<(), Fail> {
    let alloc = rt.alloc();
    let bytes = texts_bytes(alloc)?;
    for len in 0..bytes.len() {
        // what stood elsewhere is no chunk but for its mark, cut anywhere
        let end = ENDS[2].saturating_add(len).min(ENDS[3] - 1);
        let torn = part(&bytes, ENDS[2], end);
        assert_eq!(rt;
            texts_after_a_crash(alloc, &bytes, torn)?,
            Some(3),
            "{len} bytes"
        );
    }
    Ok(())
}
