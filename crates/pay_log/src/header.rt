//! The header of a log's file: whom the log belongs to, and which part differs in another log.

ghost use Rattle.std.specs.Prelude.{◌≡◌, ◌↔◌, ◌+◌, ◌≤◌, IfErr, IfOk, IsTrue, OnOk, drop, length};
ghost use Rattle.std.specs.Prelude.{take};
ghost use Rattle.pay_log.specs.Headers.{header_bytes, IsForeignHeader};

use crate::chunk::HEADER_LEN;
use std::alloc::{AllocError, Global};
use std::fmt;

/// The first eight bytes of a log.
const MAGIC: [u8; 8] = *b"payd log";

/// The number of the format, in one byte.
const VERSION: u8 = 4;

/// The identity of a log: its genesis, its member and the member's keys.
#[derive(Clone, Copy, Debug, PartialEq, Eq)]
pub struct Header {
    /// The SHA-256 of the genesis.
    pub genesis: [u8; 32],
    /// The member's number.
    pub member: u16,
    /// The fingerprint of the member's keys.
    pub keys: [u8; 32],
}

impl Header {
    /// Returns the header's 75 bytes.
    pub fn encode(&self, alloc: Global) -> Result<Vec<u8>, AllocError>
        ensures { IfOk result (λ bytes. bytes.items ≡ header_bytes self.now) }
    {
        let mut bytes = Vec::with_capacity(alloc, HEADER_LEN)?;
        bytes.extend_from_slice(&MAGIC)?;
        bytes.push(VERSION)?;
        bytes.extend_from_slice(&self.genesis)?;
        bytes.extend_from_slice(&self.member.to_be_bytes())?;
        bytes.extend_from_slice(&self.keys)?;
        Ok(bytes)
    }

    /// Returns the first part of this header that `front` doesn't begin with, if there is one.
    pub fn judge(&self, front: &[u8]) -> Result<(), Mismatch>
        ensures same { OnOk result (take HEADER_LEN front.now ≡ header_bytes self.now) }
        ensures differs { IfErr result (IsForeignHeader self.now front.now) }
    {
        if front.len() < HEADER_LEN {
            return Err(Mismatch::NoLog);
        }
        if !is_at(front, 0, &MAGIC) {
            return Err(Mismatch::NoLog);
        }
        if !is_at(front, 8, &[VERSION]) {
            return Err(Mismatch::Version);
        }
        if !is_at(front, 9, &self.genesis) {
            return Err(Mismatch::Genesis);
        }
        if !is_at(front, 41, &self.member.to_be_bytes()) {
            return Err(Mismatch::Member);
        }
        if !is_at(front, 43, &self.keys) {
            return Err(Mismatch::Keys);
        }
        Ok(())
    }
}

// Returns whether the bytes from `at` on begin with `part`.
fn is_at(bytes: &[u8], at: usize, part: &[u8]) -> bool
    requires { at + length part.now ≤ length bytes.now }
    ensures { IsTrue result ↔ (take (length part.now) (drop at bytes.now) ≡ part.now) }
{
    let there = &bytes[at..at + part.len()];
    there == part
}

/// The first part of a header that differs from that of this node's log.
#[derive(Clone, Copy, Debug, PartialEq, Eq)]
pub enum Mismatch {
    /// The file is no log, or has no whole header.
    NoLog,
    /// Another version of the format.
    Version,
    /// A log of another genesis.
    Genesis,
    /// A log of another member.
    Member,
    /// A log under other keys.
    Keys,
}

impl Mismatch {
    ghost use Rattle.std.specs.Prelude.{◌≡◌};
    ghost use Rattle.pay_log.specs.Faults.{mismatch_name};

    pub const fn name(self) -> &'static str
        ensures value { result.now ≡ mismatch_name self }
    {
        match self {
            Mismatch::NoLog => "NoLog",
            Mismatch::Version => "Version",
            Mismatch::Genesis => "Genesis",
            Mismatch::Member => "Member",
            Mismatch::Keys => "Keys",
        }
    }
}

impl fmt::Display for Mismatch {
    ghost use Rattle.std.specs.Prelude.{Some};
    ghost use Rattle.pay_log.specs.Faults.{mismatch_name};

    ghost output = { λ part. Some (mismatch_name part) };

    fn fmt<W: fmt::Write>(&self, f: &mut fmt::Formatter<W>) -> fmt::Result {
        f.write_str(self.name())
    }
}
