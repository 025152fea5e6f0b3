//! How an export's file is read: the parts that an object of JSON has, and then what they say.

ghost use Rattle.std.specs.Prelude.{◌≡◌, ◌≤◌, length, IfOk, IfSome, option_and_then, option_map};
ghost use Rattle.std.specs.Prelude.{◌⊎◌, true};
ghost use Rattle.pay_audit.specs.Export.{export_in, is_sized, export_judgement};
ghost use Rattle.pay_frame.specs.declared.limits.TheConstants.{SEQS};
ghost use Rattle.pay_link.specs.Files.{genesis_said};
ghost use Rattle.serde_json.specs.Find.{as_array};
ghost use Rattle.serde_json.specs.View.{items_view, view};
ghost use Rattle.pay_audit.specs.Export as export;

use crate::exported::{Export, ExportFault, OwnerList};
use hex::{FromHexError, decode};
use pay_frame::{Bytes, GREATEST_VALUE, SEQS};
use pay_link::{Genesis, GenesisFault, number_at, numbers_at, value_in};
use serde_json::Value;
use std::alloc::{AllocError, Global};
use std::marker::Model;

/// The genesis of an object, as far as the object says it.
#[derive(Drop)]
pub(crate) struct GenesisParts {
    pub(crate) members: u64,
    pub(crate) faults: u64,
    pub(crate) opening: Vec<u64>,
}

impl Model for GenesisParts {
    ghost use Rattle.pay_link.specs.Genesis.{GenesisFields};

    ghost Value = { GenesisFields };

    ghost view = { λ b.
        record { members = b.members; faults = b.faults; opening = b.opening.items } };
}

/// The parts of an export in an object, whatever their sizes.
#[derive(Drop)]
pub(crate) struct Parts {
    pub(crate) genesis: GenesisParts,
    pub(crate) member: u64,
    pub(crate) lists: Vec<OwnerList>,
    pub(crate) front: Vec<u64>,
    pub(crate) balances: Vec<u64>,
}

impl Model for Parts {
    ghost use Rattle.pay_audit.specs.Export.{AreShort, ExportFields};

    ghost Value = { ExportFields };

    ghost view = { λ e. record {
      genesis = e.genesis;
      member = e.member;
      lists = e.lists.items;
      front = e.front.items;
      balances = e.balances.items;
    } };

    ghost invariant = { λ e. AreShort e.lists.items };
}

/// Returns all parts of the object `value`, if it has them.
#[tactic(auto, unfolding(crate::specs::Export::parts_in))]
pub(crate) fn parts_in(alloc: Global, value: &Value) -> Result<Option<Parts>, AllocError>
    ensures { IfOk result (λ parts. parts ≡ export.parts_in (view value.now)) }
{
    let Some(genesis) = genesis_said(alloc, value)? else {
        return Ok(None);
    };
    let Some(member) = number_at(value, "member") else {
        return Ok(None);
    };
    let Some(lists) = lists_in(alloc, value)? else {
        return Ok(None);
    };
    let Some(front) = numbers_at(alloc, value, "front")? else {
        return Ok(None);
    };
    let Some(balances) = numbers_at(alloc, value, "balances")? else {
        return Ok(None);
    };
    Ok(Some(Parts {
        genesis,
        member,
        lists,
        front,
        balances,
    }))
}

fn genesis_said(alloc: Global, value: &Value) -> Result<Option<GenesisParts>, AllocError>
    ensures { IfOk result (λ genesis. genesis ≡ genesis_said (view value.now)) }
{
    let Some(members) = number_at(value, "members") else {
        return Ok(None);
    };
    let Some(faults) = number_at(value, "faults") else {
        return Ok(None);
    };
    let Some(opening) = numbers_at(alloc, value, "opening")? else {
        return Ok(None);
    };
    Ok(Some(GenesisParts {
        members,
        faults,
        opening,
    }))
}

#[tactic(auto, unfolding(crate::specs::Export::lists_in_data))]
fn lists_in(alloc: Global, value: &Value) -> Result<Option<Vec<OwnerList>>, AllocError>
    ensures value { IfOk result (λ lists.
        option_map (λ l. l.items) lists ≡ export.lists_in_data (view value.now)) }
    ensures short { IfOk result (λ lists. IfSome lists (λ l. export.AreShort l.items)) }
{
    let Some(items) = value.get("lists").and_then(Value::as_array) else {
        return Ok(None);
    };
    lists_said(alloc, items.as_slice())
}

/// Returns all lists, if each of `items` contains one.
fn lists_said(alloc: Global, items: &[Value]) -> Result<Option<Vec<OwnerList>>, AllocError>
    ensures value { IfOk result (λ lists.
        option_map (λ l. l.items) lists ≡ export.lists_said (items_view items.now)) }
    ensures short { IfOk result (λ lists. IfSome lists (λ l. export.AreShort l.items)) }
{
    let mut lists = Vec::new(alloc);
    for item in items {
        let Some(list) = list_in(alloc, item)? else {
            return Ok(None);
        };
        lists.push(list)?;
    }
    Ok(Some(lists))
}

/// Returns the list of an owner that `value` contains, if it contains one.
#[tactic(auto, unfolding(crate::specs::Export::list_said))]
fn list_in(alloc: Global, value: &Value) -> Result<Option<OwnerList>, AllocError>
    ensures value { IfOk result (λ list. list ≡ export.list_said (view value.now)) }
    ensures short { IfOk result (λ list. IfSome list (λ l. length l ≤ SEQS)) }
{
    let Some(values) = values_in(alloc, value)? else {
        return Ok(None);
    };
    if values.len() > SEQS as usize {
        return Ok(None);
    }
    Ok(Some(OwnerList::of(alloc, values.as_slice())?))
}

fn values_in(alloc: Global, value: &Value) -> Result<Option<Vec<Bytes>>, AllocError>
    ensures { IfOk result (λ values. option_map (λ v. v.items) values
        ≡ option_and_then export.values_said (as_array (view value.now))) }
{
    let Some(items) = value.as_array() else {
        return Ok(None);
    };
    values_said(alloc, items.as_slice())
}

/// Returns all values, if each of `items` contains one.
fn values_said(alloc: Global, items: &[Value]) -> Result<Option<Vec<Bytes>>, AllocError>
    ensures { IfOk result (λ values.
        option_map (λ v. v.items) values ≡ export.values_said (items_view items.now)) }
{
    let mut values = Vec::new(alloc);
    for item in items {
        let Some(value) = value_said(alloc, item)? else {
            return Ok(None);
        };
        values.push(value)?;
    }
    Ok(Some(values))
}

/// Returns the value that the text `value` encodes, if it encodes one.
fn value_said(alloc: Global, value: &Value) -> Result<Option<Bytes>, AllocError>
    ensures { IfOk result (λ bytes. bytes ≡ export.value_said (view value.now)) }
{
    let Some(text) = value.as_str() else {
        return Ok(None);
    };
    value_of(alloc, text)
}

#[tactic(auto, unfolding(crate::specs::Export::value_of_text))]
fn value_of(alloc: Global, text: &str) -> Result<Option<Bytes>, AllocError>
    ensures { IfOk result (λ bytes. bytes ≡ export.value_of_text text.now) }
{
    match decode(alloc, text.as_bytes()) {
        Ok(bytes) => {
            if bytes.len() > usize::from(GREATEST_VALUE) {
                return Ok(None);
            }
            Ok(Some(Bytes::new(alloc, bytes)?))
        }
        Err(FromHexError::OutOfMemory) => Err(AllocError),
        Err(_) => Ok(None),
    }
}

/// Returns the export that `bytes`, a file of JSON, contain.
// promise: order of refusals; exports
pub fn read_export(alloc: Global, bytes: &[u8]) -> Result<Export, ExportFault>
    ensures { (result ≡ export_in bytes.now) ⊎ (result ≡ Err ExportFault.Memory) }
{
    let Some(value) = value_in(alloc, bytes)? else {
        return Err(ExportFault::BadJson);
    };
    let Some(parts) = parts_in(alloc, &value)? else {
        return Err(ExportFault::BadShape);
    };
    if !is_sized(&parts) {
        return Err(ExportFault::BadShape);
    }
    judge(alloc, parts)
}

// Returns whether the parts are the export of one of the members, with a list, a front and a
// balance for each member.
fn is_sized(parts: &Parts) -> bool
    ensures { result ≡ is_sized parts.now }
{
    let members = parts.genesis.members;
    parts.member < members
        && parts.lists.len() as u64 == members
        && parts.front.len() as u64 == members
        && parts.balances.len() as u64 == members
}

// Returns the export of `parts` of the right sizes, if their genesis is one.
fn judge(alloc: Global, parts: Parts) -> Result<Export, ExportFault>
    requires { is_sized parts ≡ true }
    ensures { (result ≡ export_judgement parts) ⊎ (result ≡ Err ExportFault.Memory) }
{
    let begun = parts.genesis;
    match Genesis::new(alloc, begun.members, begun.faults, begun.opening.as_slice()) {
        Ok(genesis) => Ok(Export {
            genesis,
            member: parts.member as u16,
            lists: parts.lists,
            front: parts.front,
            balances: parts.balances,
        }),
        Err(GenesisFault::Memory) => Err(ExportFault::Memory),
        Err(_) => Err(ExportFault::BadGenesis),
    }
}
