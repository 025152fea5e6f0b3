//! Member 1 of four is fed from the stream of member 0, over memory.

ghost use Rattle.std.specs.Prelude.{IfOk};
ghost use Rattle.pay_link.specs.Keys.{IsPeer};

use pay_book::PlainBook;
use pay_echo::PlainInstance;
use pay_frame::{EngineFault, FrameFault, Reader, Writer};
use pay_hmac::HmacSha256;
use pay_link::{Genesis, Keys};
use pay_member::{Member, serve};
use std::alloc::Global;
use std::process::Abort;
use std::test::Fail;

/// The length of a frame with no value, and so of a WANT.
pub(crate) const FRAME: usize = 56;

/// A frame of member 0, as another program makes it with its test key, twice.
pub(crate) const TWICE: &str =
    "0036010100000001000000000000000000000000000000005f12d89ce8c7abea683f0a05ef33cbece12e0cde1d4330bb9b635f1c06e23b620036010100000001000000000000000000000000000000005f12d89ce8c7abea683f0a05ef33cbece12e0cde1d4330bb9b635f1c06e23b62";

/// A frame under a tag of zeros, which doesn't open.
const MISTAGGED: &str =
    "0036010100000001000000000000000000000000000000000000000000000000000000000000000000000000000000000000000000000000";

/// What member 1 asks of member 0, as another program tags it: its frame 0, and then twice its
/// frame 1.
pub(crate) const WANTS: &str =
    "003601040001000000000000000000000000000000000000244be1e1d2b6c34b2e0eded224b9e9bc03045e0dd6060b250f2a7f38257e8908003601040001000000000000000000010000000000000000abc08308999c120482dbcf8386bff193850732924e3bacd9ac0a94968a840db3003601040001000000000000000000010000000000000000abc08308999c120482dbcf8386bff193850732924e3bacd9ac0a94968a840db3";

/// The key of members 0 and 1, which no other frame here is tagged under.
const KEY: [u8; 32] = [
    0, 0, 0, 0, 0, 0, 0, 0, 0, 0, 0, 0, 0, 0, 0, 0, 0, 0, 0, 0, 0, 0, 0, 0, 0, 0, 0, 0, 0, 0, 0, 1,
];

pub(crate) fn fresh(alloc: Global) -> Result<Member<PlainInstance, PlainBook>, Fail>
    ensures { IfOk result (λ member. IsPeer member.keys 0) }
{
    let genesis = Genesis::new(alloc, 4, 1, &[100, 0, 0, 50])?;
    let keys = Keys::new(alloc, &genesis, 1, &[KEY; 4])?;
    Ok(Member::new(alloc, genesis, keys)?)
}

/// Returns what is written for `bytes`, and how the loop ends.
fn serve_stream(alloc: Global, bytes: &[u8]) -> Result<(Vec<u8>, Result<(), EngineFault>), Fail> {
    let mut member = fresh(alloc)?;
    let mut reader = Reader::new(bytes);
    let mut writer = Writer::new(Vec::new(alloc));
    let ended = serve(
        alloc,
        &mut member,
        0,
        &HmacSha256,
        0,
        &mut reader,
        &mut writer,
    );
    Ok((writer.into_inner(), ended))
}

/// Returns what is written for `bytes`, and how the loop ends. If memory runs out for a call or for
/// the list that is written to, the bytes are served once more.
fn served_at_last(alloc: Global, bytes: &[u8]) -> Result<(Vec<u8>, Result<(), EngineFault>), Fail> {
    match serve_stream(alloc, bytes)? {
        (_, Err(EngineFault::Memory | EngineFault::Write)) => serve_stream(alloc, bytes),
        first => Ok(first),
    }
}

/// Returns whether the first `answered` of `wants` are written for `part`, the first bytes of a
/// stream. The first WANT is written before any frame.
fn is_answered(alloc: Global, part: &[u8], wants: &[u8], answered: usize) -> Result<bool, Fail> {
    let (text, ended) = served_at_last(alloc, part)?;
    let end = if part.len() % FRAME == 0 {
        Ok(())
    } else {
        Err(EngineFault::Frame(FrameFault::Truncated))
    };
    let wanted = wants.get(..answered.saturating_mul(FRAME));
    Ok(wanted == Some(text.as_slice()) && ended == end)
}

/// Shows that each whole frame of `stream` is answered if the frames `opens`.
fn cut_anywhere(
    rt: &(impl Abort + AllocGlobal),
    stream: &[u8],
    wants: &[u8],
    opens: bool,
) -> Result<(), Fail> {
    for cut in 0..=stream.len() {
        let part = stream.get(..cut).unwrap_or_default();
        let answered = if opens { 1 + cut / FRAME } else { 1 };
        let is_answered = is_answered(rt.alloc(), part, wants, answered)?;
        assert!(rt; is_answered, "at {cut}");
    }
    Ok(())
}

#[test]
fn frames_cut_anywhere(rt: HostRuntime) -> Result<(), Fail> {
    let wants = hex::decode(rt.alloc(), WANTS)?;
    for (stream, opens) in &[(TWICE, true), (MISTAGGED, false)] {
        let stream = hex::decode(rt.alloc(), stream)?;
        cut_anywhere(&rt, stream.as_slice(), wants.as_slice(), *opens)?;
    }
    Ok(())
}
