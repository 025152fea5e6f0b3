//! The lists that more than `f` members have, of one account and of all.

ghost use Rattle.std.specs.Prelude.{◌≡◌, ◌≢◌, ◌<◌, ◌≤◌, ℕ, List, IfNone, IfSome, Some, IsTrue};
ghost use Rattle.std.specs.Prelude.{IsFalse, slice_get, Err, IfErr, IfOk, OnOk, length, map, take};
ghost use Rattle.std.specs.List.{count_by, All, filter};
ghost use Rattle.pay_group.specs.Backing.{has_at, IsGroupList, IsSplit, begins};
ghost use Rattle.pay_group.specs.declared.texts.GroupFault.TheVariants.{Split};

use crate::texts::GroupFault;
use pay_channel::Source;
use std::alloc::{AllocError, Global};
use std::marker::Model;

/// Returns whether `source` lists `value` of an account at `place`.
pub(crate) fn has<S: Source>(source: &S, owner: u16, place: u32, value: &[u8]) -> bool
    ensures { result ≡ has_at place value.now (S.lists source.now owner) }
{
    place < source.length(owner) && value == source.at(owner, place)
}

/// Returns how many of the `sources` list `value` of `owner` at `place`.
pub(crate) fn support<S: Source>(sources: &[&S], owner: u16, place: u32, value: &[u8]) -> usize
    ensures { result ≡ count_by (λ s. has_at place value.now (S.lists s.now owner)) sources.now }
{
    sources
        .iter()
        .filter(|source| has(**source, owner, place, value))
        .count()
}

/// Returns the first value of `owner` at `place` that more than `faults` of the `sources` list.
pub(crate) fn supported_value<'a, S: Source>(
    sources: &[&'a S],
    owner: u16,
    place: u32,
    faults: u16,
) -> Option<&'a [u8]>
    ensures some { IfSome result (λ v. faults
        < count_by (λ s. has_at place v.now (S.lists s.now owner)) sources.now) }
    ensures none { IfNone result ((v : List ℕ)
        → count_by (λ s. has_at place v (S.lists s.now owner)) sources.now ≤ faults) }
{
    for source in sources {
        if place < source.length(owner) {
            let value = source.at(owner, place);
            if support(sources, owner, place, value) > usize::from(faults) {
                return Some(value);
            }
        }
    }
    None
}

/// Returns whether more than `faults` of the `sources` list another value of `owner` than `value`
/// at `place`.
pub(crate) fn is_disputed<S: Source>(
    sources: &[&S],
    owner: u16,
    place: u32,
    faults: u16,
    value: &[u8],
) -> bool
    ensures yes { IsTrue result → (other : List ℕ) × (value.now ≢ other)
        × (faults < count_by (λ s. has_at place other (S.lists s.now owner)) sources.now) }
    ensures no { IsFalse result → (other : List ℕ) → value.now ≢ other
        → count_by (λ s. has_at place other (S.lists s.now owner)) sources.now ≤ faults }
{
    for source in sources {
        if has_rival(*source, sources, owner, place, faults, value) {
            return true;
        }
    }
    false
}

// Returns whether a source lists another value than `value` there, and more than `faults` sources
// list that.
fn has_rival<S: Source>(
    source: &S,
    sources: &[&S],
    owner: u16,
    place: u32,
    faults: u16,
    value: &[u8],
) -> bool
    ensures yes { IsTrue result → (other : List ℕ) × (value.now ≢ other)
        × (faults < count_by (λ s. has_at place other (S.lists s.now owner)) sources.now) }
    ensures no { IsFalse result → (other : List ℕ) → value.now ≢ other
        → slice_get (S.lists source.now owner) place ≡ Some other
        → count_by (λ s. has_at place other (S.lists s.now owner)) sources.now ≤ faults }
{
    if place >= source.length(owner) {
        return false;
    }
    let other = source.at(owner, place);
    value != other && support(sources, owner, place, other) > usize::from(faults)
}

/// A list of an account: the first values that a source lists.
#[derive(Drop)]
pub(crate) struct GroupList<'a, S: Source> {
    source: &'a S,
    owner: u16,
    len: u32,
}

impl<'a, S: Source> Model for GroupList<'a, S> {
    ghost use Rattle.std.specs.Prelude.{◌≤◌, ℕ, List, length, take};

    ghost Value = { List (List ℕ) };

    ghost view = { λ l. take l.len (S.lists l.source.now l.owner) };

    ghost invariant = { λ l. l.len ≤ length (S.lists l.source.now l.owner) };
}

impl<S: Source> GroupList<'_, S> {
    /// Returns how many values the list has.
    pub(crate) fn len(&self) -> u32
        ensures { result ≡ length self.now }
    {
        self.len
    }

    /// Returns the value at `place`.
    pub(crate) fn at(&self, place: u32) -> &[u8]
        requires { place < length self.now }
        ensures { slice_get self.now place ≡ Some result.now }
    {
        self.source.at(self.owner, place)
    }
}

/// Returns what more than `faults` of the `sources` list for the account `owner`: the longest list
/// that they begin with. If there are two such lists the fault says so, with the first number at
/// which they differ.
pub(crate) fn group_list<'a, S: Source>(
    alloc: Global,
    sources: &[&'a S],
    owner: u16,
    faults: u16,
) -> Result<GroupList<'a, S>, GroupFault>
    requires { faults < length sources.now }
    ensures list { IfOk result (IsGroupList faults (map (λ s. S.lists s.now owner) sources.now)) }
    ensures split { IfErr result (λ fault. (of place : ℕ) → fault ≡ Split of place →
        (of ≡ owner) × IsSplit faults (map (λ s. S.lists s.now owner) sources.now) place) }
{
    let mut agreeing = Vec::from_slice(alloc, sources)?;
    let end = longest(sources, owner);
    for place in 0..end {
        let Some(value) = supported_value(agreeing.as_slice(), owner, place, faults) else {
            return Ok(GroupList {
                source: agreeing[0],
                owner,
                len: place,
            });
        };
        if is_disputed(agreeing.as_slice(), owner, place, faults, value) {
            return Err(GroupFault::Split { owner, seq: place });
        }
        agreeing = that_have(alloc, agreeing.as_slice(), owner, place, value)?;
    }
    Ok(GroupList {
        source: agreeing[0],
        owner,
        len: end,
    })
}

// Returns the length of the longest list.
fn longest<S: Source>(sources: &[&S], owner: u16) -> u32
    ensures { All (λ s. length (S.lists s.now owner) ≤ result) sources.now }
{
    let mut longest = 0;
    for source in sources {
        longest = longest.max(source.length(owner));
    }
    longest
}

// Returns those of some sources that list `value` at `place`.
fn that_have<'a, S: Source>(
    alloc: Global,
    sources: &[&'a S],
    owner: u16,
    place: u32,
    value: &[u8],
) -> Result<Vec<&'a S>, AllocError>
    ensures { IfOk result (λ some. some.items
        ≡ filter (λ s. has_at place value.now (S.lists s.now owner)) sources.now) }
{
    let mut some = Vec::with_capacity(alloc, sources.len())?;
    for source in sources {
        if has(*source, owner, place, value) {
            some.push(*source)?;
        }
    }
    Ok(some)
}

/// The group's list of each account.
#[derive(Drop)]
pub struct GroupLists<'a, S: Source> {
    lists: Vec<GroupList<'a, S>>,
}

impl<'a, S: Source> Model for GroupLists<'a, S> {
    ghost use Rattle.std.specs.Prelude.{ℕ, List};

    ghost Value = { List (List (List ℕ)) };

    ghost view = { λ g. g.lists.items };
}

/// Returns what more than `faults` of the `sources` list for each of the `accounts` accounts: the
/// longest list that they begin with. If two values follow one prefix, each with more than `faults`
/// sources, the fault names the account and the number. No earlier account has two such values.
// promise: group's book
pub fn group_lists<'a, S: Source>(
    alloc: Global,
    sources: &[&'a S],
    accounts: u16,
    faults: u16,
) -> Result<GroupLists<'a, S>, GroupFault>
    requires { faults < length sources.now }
    ensures count { IfOk result (λ lists. length lists ≡ accounts) }
    ensures lists { IfOk result (λ lists. (owner : ℕ) (list : List (List ℕ))
        → slice_get lists owner ≡ Some list
        → IsGroupList faults (map (λ s. S.lists s.now owner) sources.now) list) }
    ensures split { IfErr result (λ fault. (owner place : ℕ) → fault ≡ Split owner place →
        (owner < accounts) × IsSplit faults (map (λ s. S.lists s.now owner) sources.now) place) }
    ensures before { IfErr result (λ fault. (owner place account : ℕ) → fault ≡ Split owner place
        → account < owner → (list : List (List ℕ))
        × IsGroupList faults (map (λ s. S.lists s.now account) sources.now) list) }
{
    let mut lists = Vec::with_capacity(alloc, usize::from(accounts))?;
    for owner in 0..accounts {
        lists.push(group_list(alloc, sources, owner, faults)?)?;
    }
    Ok(GroupLists { lists })
}

/// The group's lists. What is no account has no values.
impl<S: Source> Source for GroupLists<'_, S> {
    ghost use Rattle.pay_group.specs.Listed.{list_of_owner};

    ghost lists = { list_of_owner };

    fn length(&self, owner: u16) -> u32 {
        match self.lists.get(usize::from(owner)) {
            Some(list) => list.len(),
            None => 0,
        }
    }

    fn at(&self, owner: u16, k: u32) -> &[u8] {
        self.lists[usize::from(owner)].at(k)
    }
}
