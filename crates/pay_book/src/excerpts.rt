//! Consecutive entries of an account: those that settled from a number on, and those that wait.

ghost use Rattle.std.specs.Prelude.{◌≡◌, ◌+◌, ◌<◌, ◌≤◌, ◌^◌, drop, take, length, map, IfOk};
ghost use Rattle.pay_book.specs.Book.{IsBook};
ghost use Rattle.pay_book.specs.Excerpt.{settled_excerpt, shown_among, waiting_excerpt};
ghost use Rattle.pay_book.specs.Notes.{note_of};
ghost use Rattle.pay_book.specs.Payment.{count_in, entries_of};
ghost use Rattle.pay_book.specs.Places.{place_in};
ghost use Rattle.pay_book.specs.Statement.{numbered_entries_of};

use crate::note::note_in;
use crate::payment::{Entry, entries_in, entry_at, place_after};
use crate::plain::Settle;
use pay_channel::Source;
use pay_frame::Bytes;
use std::alloc::{AllocError, Global};
use std::marker::Model;

/// The most entries that an excerpt shows.
pub const MOST_SHOWN: u32 = 1_000;

/// An entry as an excerpt shows it.
#[derive(Drop)]
pub struct ShownEntry {
    /// The number of the entry's value among all of the account.
    pub seq: u32,
    /// What the entry pays, if it pays.
    pub entry: Entry,
    /// The text of the entry's value, if that is a note.
    pub note: Option<Bytes>,
}

impl ShownEntry {
    // Returns a copy of the entry.
    fn copy(&self, alloc: Global) -> Result<ShownEntry, AllocError>
        ensures { IfOk result (λ copy. copy ≡ self.now) }
    {
        let note = match &self.note {
            Some(text) => Some(text.copy(alloc)?),
            None => None,
        };
        Ok(ShownEntry {
            seq: self.seq,
            entry: self.entry,
            note,
        })
    }
}

/// Consecutive entries of an account, and the account's balance.
#[derive(Drop)]
pub struct Excerpt {
    first: u64,
    entries: Vec<ShownEntry>,
    balance: u64,
}

impl Model for Excerpt {
    ghost use Rattle.std.specs.Prelude.{◌+◌, ◌<◌, ◌^◌, length};
    ghost use Rattle.pay_book.specs.Excerpt.{ExcerptFields};

    ghost Value = { ExcerptFields };

    ghost view = { λ e. record {
      first = e.first;
      entries = e.entries.items;
      balance = e.balance;
    } };

    ghost invariant = { λ e. e.first + length e.entries.items < 2 ^ 64 };
}

impl Excerpt {
    /// Returns the number of the first entry among all of the account, counted from 0.
    pub fn first(&self) -> u64
        ensures { result ≡ self.now.first }
    {
        self.first
    }

    /// Returns the entries.
    pub fn entries(&self) -> &[ShownEntry]
        ensures value { result.now ≡ self.now.entries }
        ensures numbered { self.now.first + length self.now.entries < 2 ^ 64 }
    {
        self.entries.as_slice()
    }

    /// Returns the account's balance, in the unit of the genesis's opening balances.
    pub fn balance(&self) -> u64
        ensures { result ≡ self.now.balance }
    {
        self.balance
    }

    /// Returns a copy of the excerpt.
    pub fn copy(&self, alloc: Global) -> Result<Excerpt, AllocError>
        ensures { IfOk result (λ copy. copy ≡ self.now) }
    {
        Ok(Excerpt {
            first: self.first,
            entries: copy_entries(alloc, self.entries.as_slice())?,
            balance: self.balance,
        })
    }
}

fn copy_entries(alloc: Global, entries: &[ShownEntry]) -> Result<Vec<ShownEntry>, AllocError>
    ensures { IfOk result (λ copy. copy.items ≡ entries.now) }
{
    let mut copy = Vec::new(alloc);
    for entry in entries {
        copy.push(entry.copy(alloc)?)?;
    }
    Ok(copy)
}

/// Returns what settled of `account` from the entry `from` on. It takes time for what is shown and
/// for what settled after that, and none if nothing settled.
// promise: statements
pub fn settled_excerpt<S: Source, B: Settle>(
    alloc: Global,
    source: &S,
    book: &B,
    accounts: u16,
    account: u16,
    from: u64,
) -> Result<Excerpt, AllocError>
    requires book { IsBook (S.lists source.now) (B.shows book.now) }
    requires accounts { accounts ≡ length (B.shows book.now).opening }
    requires account { account < accounts }
    ensures { IfOk result (λ excerpt. excerpt
        ≡ settled_excerpt (B.shows book.now) (S.lists source.now) account from) }
{
    let front = book.front(account);
    let first = from.min(u64::from(front)) as u32;
    let place = place_before(source, account, front, book.place(account), first);
    let shown = (front - first).min(MOST_SHOWN);
    let entries = entries_from(alloc, source, accounts, account, first, place, shown)?;
    Ok(Excerpt {
        first: from,
        entries,
        balance: book.balance(account),
    })
}

/// Returns what is listed of `account` and isn't settled.
// promise: statements
pub fn waiting_excerpt<S: Source, B: Settle>(
    alloc: Global,
    source: &S,
    book: &B,
    accounts: u16,
    account: u16,
) -> Result<Excerpt, AllocError>
    requires book { IsBook (S.lists source.now) (B.shows book.now) }
    requires accounts { accounts ≡ length (B.shows book.now).opening }
    requires account { account < accounts }
    ensures { IfOk result (λ excerpt. excerpt
        ≡ waiting_excerpt (B.shows book.now) (S.lists source.now) account) }
{
    let front = book.front(account);
    let place = book.place(account);
    let entries = entries_from(alloc, source, accounts, account, front, place, MOST_SHOWN)?;
    Ok(Excerpt {
        first: u64::from(front),
        entries,
        balance: book.balance(account),
    })
}

/// Returns up to `most` entries of the list of `owner`, from `place` on. The entry at that place is
/// entry `number`.
fn entries_from<S: Source>(
    alloc: Global,
    source: &S,
    accounts: u16,
    owner: u16,
    number: u32,
    place: (u32, u8),
    most: u32,
) -> Result<Vec<ShownEntry>, AllocError>
    requires place { place ≡ place_in count_in (S.lists source.now owner) number }
    ensures { IfOk result (λ entries. entries.items ≡ map (shown_among (S.lists source.now owner))
        (take most (drop number (numbered_entries_of accounts (S.lists source.now) owner)))) }
{
    let mut entries = Vec::new(alloc);
    let mut place = place;
    for shown in 0..most {
        if place.0 >= source.length(owner) {
            return Ok(entries);
        }
        let value = source.at(owner, place.0);
        let entry = entry_at(value, place.1, owner, accounts);
        entries.push(shown_entry(alloc, place.0, entry, value)?)?;
        place = place_after(value, place);
    }
    Ok(entries)
}

// Returns `entry` as an excerpt shows it, with the number and the note of its value.
fn shown_entry(
    alloc: Global,
    seq: u32,
    entry: Entry,
    value: &[u8],
) -> Result<ShownEntry, AllocError>
    ensures { IfOk result (λ shown.
        shown ≡ record { seq = seq; entry = entry; note = note_of value.now }) }
{
    let note = match note_in(value) {
        Some(text) => Some(Bytes::from_slice(alloc, text.as_bytes())?),
        None => None,
    };
    Ok(ShownEntry { seq, entry, note })
}

/// Returns the place of the number `earlier` in the list of `owner`, found from the place of the
/// later `number`.
fn place_before<S: Source>(
    source: &S,
    owner: u16,
    number: u32,
    place: (u32, u8),
    earlier: u32,
) -> (u32, u8)
    requires place { place ≡ place_in count_in (S.lists source.now owner) number }
    requires within { place.0 ≤ length (S.lists source.now owner) }
    requires earlier { earlier ≤ number }
    ensures { result ≡ place_in count_in (S.lists source.now owner) earlier }
{
    let mut seq = place.0;
    let mut start = number - u32::from(place.1);
    while start > earlier {
        seq -= 1;
        start -= u32::from(entries_in(source.at(owner, seq)));
    }
    (seq, (earlier - start) as u8)
}
