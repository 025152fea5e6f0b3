//! Records as they are written.

ghost use Rattle.std.specs.Prelude.{◌≡◌, ◌+◌, ◌++◌, OnErr, OnOk, IfOk, ◌≤◌, length};
ghost use Rattle.std.specs.Int.{w16, to_be_bytes};
ghost use Rattle.pay_frame.specs.declared.limits.TheConstants.{GREATEST_VALUE};
ghost use Rattle.pay_record.specs.Loggable.{FitsRecord, IsWithinLimits};
ghost use Rattle.pay_record.specs.Records.{body_bytes, frame_part, kind_code, known_bits};
ghost use Rattle.pay_record.specs.Records.{record_fields, record_of, reply_bytes};

use crate::reading::{ASK, FRAME, MOST_RECORD, QUERY};
use pay_frame::Body;
use pay_link::Checked;
use pay_member::{Event, HistoryEntry, Reply, Told, Took};
use std::alloc::{AllocError, Global};

/// Appends the record of `entry` to `out`. `id` belongs only to a submitted value, and is 0 if
/// nobody named an id.
// promise: records
pub fn push_record(
    alloc: Global,
    out: &mut Vec<u8>,
    entry: &HistoryEntry,
    id: u64,
) -> Result<(), AllocError>
    requires { FitsRecord entry.now.event }
    ensures appended { OnOk result (out.new.items
        ≡ out.old.items ++ record_of (record { entry = entry.now; id = id })) }
    ensures err { OnErr result (out.new.items ≡ out.old.items) }
    ensures size { OnOk result (length out.new.items ≤ length out.old.items + MOST_RECORD) }
{
    is_sound(&entry.event);
    let record = encode(alloc, entry, id)?;
    Ok(out.extend_from_slice(&record)?)
}

#[tactic(auto, unfolding(crate::specs::Records::record_of))]
fn encode(alloc: Global, entry: &HistoryEntry, id: u64) -> Result<Vec<u8>, AllocError>
    requires { FitsRecord entry.now.event }
    ensures { IfOk result (λ bytes.
        bytes.items ≡ record_of (record { entry = entry.now; id = id })) }
{
    let mut out = Vec::new(alloc);
    out.push(code_of(&entry.event))?;
    out.extend_from_slice(&entry.stamp.to_be_bytes())?;
    push_fields(&mut out, &entry.event, id, entry.reply)?;
    Ok(out)
}

// States that an authenticated frame is within its limits. The call does nothing.
fn is_sound(event: &Event)
    ensures { IsWithinLimits event.now }
{
    match event {
        Event::Ask(_) | Event::Query(_) => {}
        Event::Taken(checked) => {
            let _body = checked.body();
        }
    }
}

fn code_of(event: &Event) -> u8
    ensures { result ≡ kind_code event.now }
{
    match event {
        Event::Ask(_) => ASK,
        Event::Taken(_) => FRAME,
        Event::Query(_) => QUERY,
    }
}

fn push_fields(out: &mut Vec<u8>, event: &Event, id: u64, reply: Reply) -> Result<(), AllocError>
    requires { FitsRecord event.now }
    ensures { OnOk result (out.new.items
        ≡ out.old.items ++ record_fields event.now id reply) }
{
    match event {
        Event::Ask(value) => {
            out.extend_from_slice(&id.to_be_bytes())?;
            push_reply(out, reply)?;
            push_value(out, value.as_slice())
        }
        Event::Taken(checked) => {
            push_reply(out, reply)?;
            push_frame(out, checked)
        }
        Event::Query(account) => {
            out.extend_from_slice(&account.to_be_bytes())?;
            push_reply(out, reply)
        }
    }
}

fn push_reply(out: &mut Vec<u8>, reply: Reply) -> Result<(), AllocError>
    ensures { OnOk result (out.new.items ≡ out.old.items ++ reply_bytes reply) }
{
    match reply {
        Reply::Asked(seq) => out.extend_from_slice(&seq.to_be_bytes()),
        Reply::Took(took) => push_took(out, took),
        Reply::Told(told) => push_told(out, told),
    }
}

fn push_took(out: &mut Vec<u8>, took: Took) -> Result<(), AllocError>
    ensures { OnOk result (out.new.items ≡ out.old.items ++ reply_bytes (Reply.Took took)) }
{
    out.push(known_bits(took))?;
    out.extend_from_slice(&took.settled.to_be_bytes())
}

fn push_told(out: &mut Vec<u8>, told: Told) -> Result<(), AllocError>
    ensures { OnOk result (out.new.items ≡ out.old.items ++ reply_bytes (Reply.Told told)) }
{
    out.extend_from_slice(&told.balance.to_be_bytes())?;
    out.extend_from_slice(&told.front.to_be_bytes())?;
    Ok(out.extend_from_slice(&told.listed.to_be_bytes())?)
}

fn known_bits(took: Took) -> u8
    ensures { result ≡ known_bits took }
{
    u8::from(took.echo) + 2 * u8::from(took.ready) + 4 * u8::from(took.deliver)
}

fn push_value(out: &mut Vec<u8>, value: &[u8]) -> Result<(), AllocError>
    requires { length value.now ≤ GREATEST_VALUE }
    ensures { OnOk result (out.new.items
        ≡ out.old.items ++ to_be_bytes w16 (length value.now) ++ value.now) }
{
    out.extend_from_slice(&(value.len() as u16).to_be_bytes())?;
    out.extend_from_slice(value)
}

fn push_frame(out: &mut Vec<u8>, checked: &Checked) -> Result<(), AllocError>
    ensures { OnOk result (out.new.items ≡ out.old.items ++ frame_part checked.now.frame) }
{
    out.extend_from_slice(&checked.from().to_be_bytes())?;
    out.extend_from_slice(&checked.number().to_be_bytes())?;
    push_body(out, checked.body())
}

fn push_body(out: &mut Vec<u8>, body: &Body) -> Result<(), AllocError>
    ensures { OnOk result (out.new.items ≡ out.old.items ++ body_bytes body.now) }
{
    out.push(body.kind().code())?;
    out.extend_from_slice(&body.owner().to_be_bytes())?;
    out.extend_from_slice(&body.seq().to_be_bytes())?;
    push_value(out, body.value())
}
