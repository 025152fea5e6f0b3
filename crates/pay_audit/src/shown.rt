//! The texts of an export and of a genesis that are values in memory.

ghost use Rattle.std.specs.Prelude.{◌≡◌, [], Err, IfOk, IsOkUnless, MatchOption, Ok, OnOk, map};
ghost use Rattle.std.specs.String.{string_bytes};
ghost use Rattle.serde_json.specs.Data.{object};
ghost use Rattle.serde_json.specs.View.{members_view, view};
ghost use Rattle.serde_json.specs.Written.{compact_text};
ghost use Rattle.pay_link.specs.Genesis.{genesis_fault};
ghost use Rattle.pay_audit.specs.ByLists.{next_genesis};
ghost use Rattle.pay_audit.specs.Export.{export_in};
ghost use Rattle.pay_audit.specs.Exporting.{export_data, genesis_members, lists_data, numbers_data};
ghost use Rattle.pay_audit.specs.ReadBack.{HasValues};

use crate::exported::Export;
use crate::exporting::{list_of, put_genesis};
use crate::laws::export_reads_back;
use pay_link::{Genesis, GenesisFault};
use serde_json::{Map, Value, put};
use std::alloc::{AllocError, Global};

/// Returns the text of `export`, without spaces. `read_export` reads it as that export.
// promise: group's book
pub fn shown_text(alloc: Global, export: &Export) -> Result<String, AllocError>
    ensures text { IfOk result
        (λ text. string_bytes text ≡ compact_text (export_data export.now)) }
    ensures reads_back { IfOk result (λ text. HasValues export.now
        → export_in (string_bytes text) ≡ Ok export.now) }
{
    export_reads_back();
    // for what an export's parts are: the call does nothing
    export.genesis.members();
    let value = value_of(alloc, export)?;
    let text = value.to_string(alloc)?;
    Ok(text)
}

/// Returns the text of `genesis`, without spaces.
// promise: group's book
pub fn genesis_text(alloc: Global, genesis: &Genesis) -> Result<String, AllocError>
    ensures { IfOk result (λ text.
        string_bytes text ≡ compact_text (object (genesis_members genesis.now))) }
{
    let value = genesis_value(alloc, genesis)?;
    let text = value.to_string(alloc)?;
    Ok(text)
}

fn genesis_value(alloc: Global, genesis: &Genesis) -> Result<Value, AllocError>
    ensures { IfOk result (λ value. view value ≡ object (genesis_members genesis.now)) }
{
    let mut parts = Map::new(alloc);
    put_genesis(alloc, &mut parts, genesis)?;
    Ok(Value::Object(parts))
}

/// Returns the genesis with each account's balance in `export` as its opening, if the balances have
/// a total that is allowed.
// promise: group's book
pub fn next_genesis(alloc: Global, export: &Export) -> Result<Genesis, GenesisFault>
    ensures fault { MatchOption (genesis_fault (next_genesis export.now))
        (IsOkUnless result GenesisFault.Memory) (λ fault. result ≡ Err fault) }
    ensures value { IfOk result (λ genesis. genesis ≡ next_genesis export.now) }
{
    let genesis = &export.genesis;
    Genesis::new(
        alloc,
        u64::from(genesis.members()),
        u64::from(genesis.faults()),
        export.balances.as_slice(),
    )
}

fn value_of(alloc: Global, export: &Export) -> Result<Value, AllocError>
    ensures { IfOk result (λ value. view value ≡ export_data export.now) }
{
    let mut parts = Map::new(alloc);
    put_genesis(alloc, &mut parts, &export.genesis)?;
    put_book(alloc, &mut parts, export)?;
    Ok(Value::Object(parts))
}

/// Puts the contents of the ledger of `export` into `parts`, an object that has the genesis.
#[tactic(auto, unfolding(crate::specs::Exporting::export_data))]
fn put_book(
    alloc: Global,
    parts: &mut Map<String, Value>,
    export: &Export,
) -> Result<(), AllocError>
    requires { members_view parts.old.entries ≡ genesis_members export.now.genesis }
    ensures { OnOk result (object (members_view parts.new.entries) ≡ export_data export.now) }
{
    put(
        parts,
        alloc,
        "balances",
        numbers(alloc, export.balances.as_slice())?,
    )?;
    put(
        parts,
        alloc,
        "front",
        numbers(alloc, export.front.as_slice())?,
    )?;
    put(parts, alloc, "lists", lists(alloc, export)?)?;
    put(parts, alloc, "member", Value::from(export.member))
}

fn numbers(alloc: Global, numbers: &[u64]) -> Result<Value, AllocError>
    ensures { IfOk result (λ value. view value ≡ numbers_data numbers.now) }
{
    let mut values = Vec::new(alloc);
    for number in numbers {
        values.push(Value::from(*number))?;
    }
    Ok(Value::Array(values))
}

fn lists(alloc: Global, export: &Export) -> Result<Value, AllocError>
    ensures { IfOk result (λ value. view value ≡ lists_data export.now.lists) }
{
    let mut lists = Vec::new(alloc);
    for owner in 0..export.genesis.members() {
        lists.push(list_of(alloc, export, owner)?)?;
    }
    Ok(Value::Array(lists))
}
