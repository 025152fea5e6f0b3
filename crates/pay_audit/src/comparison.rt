//! Exports' lists, each compared once, with the longest list of its account among the exports
//! before it.

ghost use Rattle.std.specs.Prelude.{◌≡◌, ◌+◌, ◌^◌, ◌<◌, ◌≤◌, ◌∷◌, ◌++◌, ℕ, List, [], length, IfOk};
ghost use Rattle.pay_audit.specs.Auditor.{HasComparedBy};
ghost use Rattle.pay_audit.specs.Compared.{fork_among, fork_by, fork_with, lengths_of, longer};
ghost use Rattle.pay_audit.specs.Compared.{place_if_within};
ghost use Rattle.pay_audit.specs.Export.{ExportFields, list_in};
ghost use Rattle.pay_audit.specs.Verdict.{fork_from};
ghost use Rattle.pay_frame.specs.declared.limits.TheConstants.{MOST_MEMBERS};

use crate::auditing::{Differences, Lengths, Verdict};
use crate::exported::OwnerList;
use std::alloc::{AllocError, Global};

/// What is kept of exports' lists. As long as they agree, it is the longest list of each account,
/// and the lengths of each export's lists. For the first export that differs and those after it, it
/// is the places at which they differ from the longest.
#[derive(Debug, Drop)]
pub(crate) struct Comparison {
    longest: Vec<OwnerList>,
    lengths: Vec<Lengths>,
    differences: Vec<Differences>,
}

impl Comparison {
    pub(crate) fn new(alloc: Global) -> Comparison
        ensures { HasComparedBy [] result }
    {
        Comparison {
            longest: Vec::new(alloc),
            lengths: Vec::new(alloc),
            differences: Vec::new(alloc),
        }
    }

    /// Compares `lists`, those of one more export.
    pub(crate) fn add(
        mut self,
        alloc: Global,
        lists: &[OwnerList],
    ) -> Result<Comparison, AllocError>
        requires { length lists.now ≤ MOST_MEMBERS }
        ensures { IfOk result (λ comparison. (exports : List ExportFields) (e : ExportFields)
            → HasComparedBy exports self → e.lists ≡ lists.now
            → HasComparedBy (exports ++ e ∷ []) comparison) }
    {
        let differences = Differences::of(alloc, self.longest.as_slice(), lists)?;
        if self.differences.is_empty() && !differences.is_any() {
            return self.join(alloc, lists);
        }
        self.differences.push(differences)?;
        Ok(self)
    }

    /// Keeps what is new in `lists`, which agree with the longest.
    fn join(mut self, alloc: Global, lists: &[OwnerList]) -> Result<Comparison, AllocError>
        requires { length lists.now ≤ MOST_MEMBERS }
        ensures longest { IfOk result (λ comparison. (account : ℕ)
            → list_in comparison.longest.items account
            ≡ longer (list_in self.longest.items account) (list_in lists.now account)) }
        ensures accounts { IfOk result (λ comparison.
            (length lists.now ≤ length comparison.longest.items)
            × (length self.longest.items ≤ length comparison.longest.items)) }
        ensures lengths { IfOk result (λ comparison. comparison.lengths.items
            ≡ self.lengths.items ++ lengths_of lists.now ∷ []) }
        ensures differences { IfOk result (λ comparison.
            comparison.differences.items ≡ self.differences.items) }
    {
        let lengths = Lengths::of(alloc, lists)?;
        pad(alloc, &mut self.longest, lists.len())?;
        keep_longer(alloc, self.longest.as_mut_slice(), lists)?;
        self.lengths.push(lengths)?;
        Ok(self)
    }

    /// Returns the first fork between the exports compared.
    pub(crate) fn fork(&self) -> Option<Verdict>
        ensures { (exports : List ExportFields)
            → HasComparedBy exports self.now → result ≡ fork_from 0 exports }
    {
        fork_among(self.lengths.as_slice(), self.differences.as_slice())
    }
}

// Appends empty lists until there is one for each account.
fn pad(alloc: Global, lists: &mut Vec<OwnerList>, accounts: usize) -> Result<(), AllocError>
    ensures same { (account : ℕ)
        → list_in lists.new.items account ≡ list_in lists.old.items account }
    ensures more { length lists.old.items ≤ length lists.new.items }
    ensures enough { IfOk result (λ _. accounts ≤ length lists.new.items) }
{
    for _account in lists.len()..accounts {
        lists.push(OwnerList::new(alloc))?;
    }
    Ok(())
}

// Copies each list that is longer than the one that is kept.
fn keep_longer(alloc: Global, kept: &mut [OwnerList], lists: &[OwnerList]) -> Result<(), AllocError>
    requires { length lists.now ≤ length kept.old }
    ensures { IfOk result (λ _. (account : ℕ) → list_in kept.new account
        ≡ longer (list_in kept.old account) (list_in lists.now account)) }
{
    for (account, list) in lists.iter().enumerate() {
        if kept[account].len() < list.len() {
            kept[account] = list.copy(alloc)?;
        }
    }
    Ok(())
}

// Returns the first fork between an export with lists of these `lengths` and one that differs: each
// is compared with each, in the verdict's order.
fn fork_among(lengths: &[Lengths], differences: &[Differences]) -> Option<Verdict>
    ensures { result ≡ fork_among lengths.now differences.now }
{
    for (one, own) in lengths.iter().enumerate() {
        let fork = fork_with(lengths.len(), differences, one, own);
        if fork.is_some() {
            return fork;
        }
    }
    None
}

// Returns the first fork of export `one` with those that differ. The first of these has the place
// `first`.
fn fork_with(
    first: usize,
    differences: &[Differences],
    one: usize,
    lengths: &Lengths,
) -> Option<Verdict>
    requires { first + length differences.now < 2 ^ 64 }
    ensures { result ≡ fork_with first differences.now one lengths.now }
{
    for (k, other) in differences.iter().enumerate() {
        let fork = fork_by(one, lengths.as_slice(), first + k, other.as_slice());
        if fork.is_some() {
            return fork;
        }
    }
    None
}

// Returns the first fork of export `one`, with lists of these `lengths`, and export `other`, with
// lists that first differ at the places in `differences`.
#[tactic(auto, unfolding(crate::specs::Compared::fork_by))]
fn fork_by(
    one: usize,
    lengths: &[u32],
    other: usize,
    differences: &[Option<u32>],
) -> Option<Verdict>
    requires { length lengths.now ≤ MOST_MEMBERS }
    ensures { result ≡ fork_by one lengths.now other differences.now }
{
    for (owner, length) in lengths.iter().enumerate() {
        let difference = differences.get(owner)?;
        if let Some(seq) = place_within(*length, *difference) {
            return Some(Verdict::Fork {
                one,
                other,
                owner: owner as u16,
                seq,
            });
        }
    }
    None
}

// Returns `place`, if it is below `count`.
fn place_within(count: u32, place: Option<u32>) -> Option<u32>
    ensures { result ≡ place_if_within count place }
{
    place.filter(|place| *place < count)
}
