//! A peer's stream over devices that fail: a read or a write of any number, a byte a call.

use crate::streams::{FRAME, TWICE, WANTS, fresh};
use pay_frame::{EngineFault, Reader, Writer};
use pay_hmac::HmacSha256;
use pay_member::serve;
use std::alloc::Global;
use std::io;
use std::io::{ErrorKind, Read, Write};
use std::process::Abort;
use std::test::Fail;

/// A reader that gives a byte at each of its first `reads` reads, and fails at the next one.
#[derive(Drop)]
struct FailingReader<'a> {
    rest: &'a [u8],
    reads: usize,
}

impl Read for FailingReader<'_> {
    fn read(&mut self, buffer: &mut [u8]) -> io::Result<usize> {
        if self.reads == 0 {
            return Err(io::Error::from(ErrorKind::ConnectionReset));
        }
        self.reads -= 1;
        match (self.rest.split_first(), buffer.first_mut()) {
            (Some((byte, rest)), Some(place)) => {
                *place = *byte;
                self.rest = rest;
                Ok(1)
            }
            _ => Ok(0),
        }
    }
}

/// How a write is refused.
#[derive(Clone, Copy, PartialEq, Eq)]
enum Refusal {
    Fails,
    TakesNothing,
}

/// A writer that takes a byte at each of its first `writes` writes, and refuses the next one.
#[derive(Drop)]
struct FailingWriter {
    text: Vec<u8>,
    writes: usize,
    refusal: Refusal,
}

impl Write for FailingWriter {
    fn write(&mut self, bytes: &[u8]) -> io::Result<usize> {
        if self.writes == 0 {
            return match self.refusal {
                Refusal::Fails => Err(io::Error::from(ErrorKind::BrokenPipe)),
                Refusal::TakesNothing => Ok(0),
            };
        }
        self.writes -= 1;
        match bytes.first() {
            Some(byte) => {
                if self.text.push(*byte).is_err() {
                    return Err(io::Error::from(ErrorKind::OutOfMemory));
                }
                Ok(1)
            }
            None => Ok(0),
        }
    }

    fn flush(&mut self) -> io::Result<()> {
        Ok(())
    }
}

/// Returns what is written for `bytes`, and how the loop ends. After `reads` reads the next read
/// fails, and after `writes` writes the next write ends as `refusal` says.
fn serve_failing(
    alloc: Global,
    bytes: &[u8],
    reads: usize,
    writes: usize,
    refusal: Refusal,
) -> Result<(Vec<u8>, Result<(), EngineFault>), Fail> {
    let mut member = fresh(alloc)?;
    let mut reader = Reader::new(FailingReader { rest: bytes, reads });
    let mut writer = Writer::new(FailingWriter {
        text: Vec::new(alloc),
        writes,
        refusal,
    });
    let ended = serve(
        alloc,
        &mut member,
        0,
        &HmacSha256,
        0,
        &mut reader,
        &mut writer,
    );
    Ok((writer.into_inner().text, ended))
}

/// Shows that all reads before the one that fails are answered.
#[test]
fn each_read_fails(rt: HostRuntime) -> Result<(), Fail> {
    let stream = hex::decode(rt.alloc(), TWICE)?;
    let wants = hex::decode(rt.alloc(), WANTS)?;
    // one more read comes to the input's end
    let needed = stream.len() + 1;
    for reads in 0..=needed {
        let (text, ended) = serve_failing(
            rt.alloc(),
            stream.as_slice(),
            reads,
            usize::MAX,
            Refusal::Fails,
        )?;
        let answered = wants.get(..(1 + reads.min(stream.len()) / FRAME) * FRAME);
        assert_eq!(rt; answered, Some(text.as_slice()), "after {reads} reads");
        let end = if reads < needed {
            Err(EngineFault::Read)
        } else {
            Ok(())
        };
        assert_eq!(rt; ended, end, "after {reads} reads");
    }
    Ok(())
}

/// Shows that all bytes before the write that fails or takes nothing have gone out, and no others.
#[test]
fn each_write_fails(rt: HostRuntime) -> Result<(), Fail> {
    let stream = hex::decode(rt.alloc(), TWICE)?;
    let wants = hex::decode(rt.alloc(), WANTS)?;
    for refusal in &[Refusal::Fails, Refusal::TakesNothing] {
        for writes in 0..=wants.len() {
            let (text, ended) = serve_failing(
                rt.alloc(),
                stream.as_slice(),
                usize::MAX,
                writes,
                *refusal,
            )?;
            assert_eq!(rt;
                wants.get(..writes),
                Some(text.as_slice()),
                "after {writes} writes"
            );
            let end = if writes < wants.len() {
                Err(EngineFault::Write)
            } else {
                Ok(())
            };
            assert_eq!(rt; ended, end, "after {writes} writes");
        }
    }
    Ok(())
}
