ghost use Rattle.std.specs.Prelude.{◌≡◌, IfOk};
ghost use Rattle.pay_frame.specs.Frame.{IsFrame, frame_bytes, frame_of_parts, head_bytes};

use crate::body::Body;
use crate::limits::LEAST_LENGTH;
use std::alloc::{AllocError, Global};

const VERSION: u8 = 1;

/// Encodes a frame's head, the bytes before its value, into `head`.
// promise: memory; one reading
pub fn head_into(head: &mut [u8; 24], from: u16, to: u16, number: u64, body: &Body)
    ensures spelled { head.new ≡ head_bytes from to number body.now }
{
    let value_len = body.value().len();
    let length = ((usize::from(LEAST_LENGTH) + value_len) as u16).to_be_bytes();
    let value_length = (value_len as u16).to_be_bytes();
    let sender = from.to_be_bytes();
    let receiver = to.to_be_bytes();
    let place = number.to_be_bytes();
    let owner = body.owner().to_be_bytes();
    let seq = body.seq().to_be_bytes();
    *head = [
        length[0],
        length[1],
        VERSION,
        body.kind().code(),
        sender[0],
        sender[1],
        receiver[0],
        receiver[1],
        place[0],
        place[1],
        place[2],
        place[3],
        place[4],
        place[5],
        place[6],
        place[7],
        owner[0],
        owner[1],
        seq[0],
        seq[1],
        seq[2],
        seq[3],
        value_length[0],
        value_length[1],
    ];
}

/// Encodes a frame `from` a sender `to` a receiver, with its `number`, `body` and `tag`.
// promise: one reading
pub fn write(
    alloc: Global,
    from: u16,
    to: u16,
    number: u64,
    body: &Body,
    tag: &[u8; 32],
) -> Result<Vec<u8>, AllocError>
    ensures spelled { IfOk result (λ bytes.
        bytes.items ≡ frame_bytes (frame_of_parts from to number body.now tag.now)) }
    ensures frame { IfOk result (λ _. IsFrame (frame_of_parts from to number body.now tag.now)) }
{
    let mut head = [0u8; 24];
    head_into(&mut head, from, to, number, body);
    let mut bytes = Vec::with_capacity(alloc, head.len() + body.value().len() + tag.len())?;
    bytes.extend_from_slice(&head)?;
    bytes.extend_from_slice(body.value())?;
    bytes.extend_from_slice(tag)?;
    Ok(bytes)
}
