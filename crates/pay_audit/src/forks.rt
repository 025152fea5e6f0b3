//! Numbers of accounts under which exports list several values.

ghost use Rattle.std.specs.Prelude.{◌≡◌, ◌++◌, Some, count_by, filter, slice_get, OnOk};
ghost use Rattle.std.specs.List.{flat_map, list_any, range_with_len};
ghost use Rattle.std.specs.Option.{option_copied};
ghost use Rattle.pay_audit.specs.Findings.{first_value, fork_words, if_first, is_forked};
ghost use Rattle.pay_audit.specs.Findings.{lists_other, lists_value, longest, name_words};
ghost use Rattle.pay_audit.specs.Findings.{owner_words, listed_value_at, value_words, values_words};

use crate::findings::{Named, push_entries, push_name};
use pay_channel::Source;
use pay_text::{push_number, push_word};
use std::alloc::AllocError;

/// Appends the forks between the exports of `group`, for each of the `members` accounts, to `out`.
pub(crate) fn push_forks(
    out: &mut Vec<u8>,
    members: u16,
    group: &[Named<'_>],
) -> Result<(), AllocError>
    ensures { OnOk result (out.new.items ≡ out.old.items
        ++ flat_map (owner_words members group.now) (range_with_len 0 members)) }
{
    for owner in 0..members {
        push_owner(out, members, group, owner)?;
    }
    Ok(())
}

// Appends the forks of `owner`, number by number.
#[tactic(auto, unfolding(crate::specs::Findings::owner_words))]
fn push_owner(
    out: &mut Vec<u8>,
    members: u16,
    group: &[Named<'_>],
    owner: u16,
) -> Result<(), AllocError>
    ensures { OnOk result (out.new.items ≡ out.old.items ++ owner_words members group.now owner) }
{
    for seq in 0..longest(group, owner) {
        push_fork(out, members, group, owner, seq)?;
    }
    Ok(())
}

// Returns the length of the longest list of `owner`.
#[tactic(auto, unfolding(crate::specs::Findings::longest))]
fn longest(group: &[Named<'_>], owner: u16) -> u32
    ensures { result ≡ longest owner group.now }
{
    let mut most = 0;
    for named in group {
        most = most.max(named.export.length(owner));
    }
    most
}

// Appends the values under the number `seq`, if there are several.
fn push_fork(
    out: &mut Vec<u8>,
    members: u16,
    group: &[Named<'_>],
    owner: u16,
    seq: u32,
) -> Result<(), AllocError>
    ensures { OnOk result (out.new.items ≡ out.old.items
        ++ fork_words members group.now owner seq) }
{
    if is_forked(group, owner, seq) {
        push_values(out, members, group, owner, seq)
    } else {
        Ok(())
    }
}

// Returns whether an export lists another value than the first that lists one.
fn is_forked(group: &[Named<'_>], owner: u16, seq: u32) -> bool
    ensures { result ≡ is_forked group.now owner seq }
{
    match first_value(group, owner, seq) {
        Some(value) => has_other(group, owner, seq, value),
        None => false,
    }
}

// Returns whether an export lists another value than `value`.
fn has_other(group: &[Named<'_>], owner: u16, seq: u32, value: &[u8]) -> bool
    ensures { result ≡ list_any (lists_other owner seq value.now) group.now }
{
    group
        .iter()
        .any(|named| lists_other(*named, owner, seq, value))
}

// Returns the value of the first export that lists one.
fn first_value<'a>(group: &[Named<'a>], owner: u16, seq: u32) -> Option<&'a [u8]>
    ensures { option_copied result ≡ first_value owner seq group.now }
{
    for named in group {
        let value = value_at(*named, owner, seq);
        if value.is_some() {
            return value;
        }
    }
    None
}

// Returns the value that an export lists under a number, if it lists one.
fn value_at<'a>(named: Named<'a>, owner: u16, seq: u32) -> Option<&'a [u8]>
    ensures { option_copied result ≡ listed_value_at owner seq named.entry }
{
    let Named { export, .. } = named;
    if seq < export.length(owner) {
        Some(export.at(owner, seq))
    } else {
        None
    }
}

fn lists_other(named: Named<'_>, owner: u16, seq: u32, value: &[u8]) -> bool
    ensures { result ≡ lists_other owner seq value.now named.entry }
{
    match value_at(named, owner, seq) {
        Some(listed) => listed != value,
        None => false,
    }
}

fn lists_value(named: Named<'_>, owner: u16, seq: u32, value: &[u8]) -> bool
    ensures { result ≡ lists_value owner seq value.now named.entry }
{
    match value_at(named, owner, seq) {
        Some(listed) => listed == value,
        None => false,
    }
}

// Appends each value, according to the first export that lists it.
#[tactic(auto, unfolding(crate::specs::Findings::values_words))]
fn push_values(
    out: &mut Vec<u8>,
    members: u16,
    group: &[Named<'_>],
    owner: u16,
    seq: u32,
) -> Result<(), AllocError>
    ensures { OnOk result (out.new.items ≡ out.old.items
        ++ values_words members group.now owner seq) }
{
    for (place, named) in group.iter().enumerate() {
        push_if_first(out, members, group, owner, seq, place, *named)?;
    }
    Ok(())
}

// Appends the value of the export at a place, unless an earlier export lists it too.
fn push_if_first(
    out: &mut Vec<u8>,
    members: u16,
    group: &[Named<'_>],
    owner: u16,
    seq: u32,
    place: usize,
    named: Named<'_>,
) -> Result<(), AllocError>
    requires { slice_get group.now place ≡ Some named }
    ensures { OnOk result (out.new.items ≡ out.old.items
        ++ if_first members group.now owner seq (place, named.entry)) }
{
    let Some(value) = value_at(named, owner, seq) else {
        return Ok(());
    };
    if is_listed(&group[..place], owner, seq, value) {
        return Ok(());
    }
    push_value(out, members, group, owner, seq, value)
}

// Returns whether an export lists `value`.
fn is_listed(group: &[Named<'_>], owner: u16, seq: u32, value: &[u8]) -> bool
    ensures { result ≡ list_any (lists_value owner seq value.now) group.now }
{
    group
        .iter()
        .any(|named| lists_value(*named, owner, seq, value))
}

// Appends a value's entries, how many exports list it, and which.
#[tactic(auto, unfolding(crate::specs::Findings::value_words))]
fn push_value(
    out: &mut Vec<u8>,
    members: u16,
    group: &[Named<'_>],
    owner: u16,
    seq: u32,
    value: &[u8],
) -> Result<(), AllocError>
    ensures { OnOk result (out.new.items ≡ out.old.items
        ++ value_words members group.now owner seq value.now) }
{
    push_word(out, "4 fork owner ")?;
    push_number(out, u64::from(owner))?;
    push_word(out, " seq ")?;
    push_number(out, u64::from(seq))?;
    push_entries(out, members, owner, value)?;
    push_word(out, " exports ")?;
    push_number(out, count(group, owner, seq, value) as u64)?;
    push_word(out, " in")?;
    push_names(out, group, owner, seq, value)?;
    push_word(out, "\n")
}

// Returns how many exports list `value`.
fn count(group: &[Named<'_>], owner: u16, seq: u32, value: &[u8]) -> usize
    ensures { result ≡ count_by (lists_value owner seq value.now) group.now }
{
    group
        .iter()
        .filter(|named| lists_value(**named, owner, seq, value))
        .count()
}

// Appends the names of the exports that list `value`.
fn push_names(
    out: &mut Vec<u8>,
    group: &[Named<'_>],
    owner: u16,
    seq: u32,
    value: &[u8],
) -> Result<(), AllocError>
    ensures { OnOk result (out.new.items ≡ out.old.items
        ++ flat_map name_words (filter (lists_value owner seq value.now) group.now)) }
{
    for named in group {
        if lists_value(*named, owner, seq, value) {
            push_name(out, *named)?;
        }
    }
    Ok(())
}
