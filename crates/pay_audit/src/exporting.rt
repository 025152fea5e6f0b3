//! A member's own export.

ghost use Rattle.std.specs.Prelude.{◌≡◌, ℕ, List, [], IfOk, Ok, OnOk, Some};
ghost use Rattle.serde_json.specs.Data.{object};
ghost use Rattle.serde_json.specs.View.{members_view, view};
ghost use Rattle.pay_link.specs.Json.{value_in};
ghost use Rattle.pay_audit.specs.Export.{export_in};
ghost use Rattle.pay_audit.specs.Exporting.{export_data, export_of, genesis_members, list_data};
ghost use Rattle.pay_audit.specs.Exporting.{lists_data, numbers_data, value_data};

use crate::laws::export_reads_back;
use hex::encode;
use pay_book::Settle;
use pay_channel::Source;
use pay_channel::laws::lists_are_delivered;
use pay_echo::Instance;
use pay_link::Genesis;
use pay_member::Member;
use pay_member::laws::{book_of_events, legal_histories};
use serde_json::{Map, Value, put};
use std::alloc::{AllocError, Global};

/// Returns what `member` shows of its own without its keys. This is the genesis, each account's
/// list of values in hexadecimal, how many of its entries are settled, and all balances.
///
/// `read_export` reads each text that has this value as that export.
// promise: exports (value, reads_back)
pub fn export<I: Instance + Drop, B: Settle + Drop>(
    alloc: Global,
    member: &Member<I, B>,
) -> Result<Value, AllocError>
    ensures value { IfOk result (λ value. view value ≡ export_data (export_of member.now)) }
    ensures reads_back { IfOk result (λ _. (text : List ℕ)
        → value_in text ≡ Some (export_data (export_of member.now))
        → export_in text ≡ Ok (export_of member.now)) }
{
    // for the proof, laws: the calls do nothing
    book_of_events();
    lists_are_delivered();
    legal_histories();
    export_reads_back();
    // for what their clauses say about a member: the calls do nothing
    member.genesis();
    member.keys().own();
    member.history();
    let mut parts = Map::new(alloc);
    put_genesis(alloc, &mut parts, member.genesis())?;
    put_book(alloc, &mut parts, member)?;
    Ok(Value::Object(parts))
}

/// Puts `genesis` into `parts`, an object that has nothing yet.
pub(crate) fn put_genesis(
    alloc: Global,
    parts: &mut Map<String, Value>,
    genesis: &Genesis,
) -> Result<(), AllocError>
    requires { parts.old.entries ≡ [] }
    ensures { OnOk result (members_view parts.new.entries ≡ genesis_members genesis.now) }
{
    put(parts, alloc, "faults", Value::from(genesis.faults()))?;
    put(parts, alloc, "members", Value::from(genesis.members()))?;
    put(parts, alloc, "opening", opening_of(alloc, genesis)?)
}

/// Puts the number of `member`, and the contents of its ledger, into `parts`, an object that has
/// the genesis.
#[tactic(auto, unfolding(crate::specs::Exporting::export_data))]
fn put_book<I: Instance + Drop, B: Settle + Drop>(
    alloc: Global,
    parts: &mut Map<String, Value>,
    member: &Member<I, B>,
) -> Result<(), AllocError>
    requires { members_view parts.old.entries ≡ genesis_members member.now.genesis }
    ensures { OnOk result
        (object (members_view parts.new.entries) ≡ export_data (export_of member.now)) }
{
    put(parts, alloc, "balances", balances_of(alloc, member)?)?;
    put(parts, alloc, "front", front_of(alloc, member)?)?;
    put(parts, alloc, "lists", lists_of(alloc, member)?)?;
    put(parts, alloc, "member", Value::from(member.keys().own()))
}

fn opening_of(alloc: Global, genesis: &Genesis) -> Result<Value, AllocError>
    ensures { IfOk result (λ value. view value ≡ numbers_data genesis.now.opening) }
{
    let mut numbers = Vec::new(alloc);
    for account in 0..genesis.members() {
        numbers.push(Value::from(genesis.opening(account)))?;
    }
    Ok(Value::Array(numbers))
}

/// Returns how many entries of each account are settled in the ledger of `member`.
fn front_of<I: Instance + Drop, B: Settle + Drop>(
    alloc: Global,
    member: &Member<I, B>,
) -> Result<Value, AllocError>
    ensures { IfOk result (λ value. view value ≡ numbers_data (export_of member.now).front) }
{
    book_of_events();
    let mut front = Vec::new(alloc);
    for account in 0..member.genesis().members() {
        front.push(Value::from(u64::from(member.front(account))))?;
    }
    Ok(Value::Array(front))
}

fn balances_of<I: Instance + Drop, B: Settle + Drop>(
    alloc: Global,
    member: &Member<I, B>,
) -> Result<Value, AllocError>
    ensures { IfOk result (λ value. view value ≡ numbers_data (export_of member.now).balances) }
{
    book_of_events();
    let mut balances = Vec::new(alloc);
    for account in 0..member.genesis().members() {
        balances.push(Value::from(member.balance(account)))?;
    }
    Ok(Value::Array(balances))
}

fn lists_of<I: Instance + Drop, B: Settle + Drop>(
    alloc: Global,
    member: &Member<I, B>,
) -> Result<Value, AllocError>
    ensures { IfOk result (λ value. view value ≡ lists_data (export_of member.now).lists) }
{
    let mut lists = Vec::new(alloc);
    for owner in 0..member.genesis().members() {
        lists.push(list_of(alloc, member, owner)?)?;
    }
    Ok(Value::Array(lists))
}

pub(crate) fn list_of<S: Source>(alloc: Global, source: &S, owner: u16) -> Result<Value, AllocError>
    ensures { IfOk result (λ value. view value ≡ list_data (S.lists source.now owner)) }
{
    let mut values = Vec::new(alloc);
    for place in 0..source.length(owner) {
        values.push(value_of(alloc, source.at(owner, place))?)?;
    }
    Ok(Value::Array(values))
}

fn value_of(alloc: Global, value: &[u8]) -> Result<Value, AllocError>
    ensures { IfOk result (λ text. view text ≡ value_data value.now) }
{
    Ok(Value::from(encode(alloc, value)?))
}
