//! Payment values: what an owner broadcasts to move money from its account to others, and how it
//! is read and written.

ghost use Rattle.std.specs.Prelude.{◌≡◌, ◌+◌, ◌<◌, ◌^◌, length, slice_get, ◌*◌, ◌≤◌, IfOk};
ghost use Rattle.std.specs.Prelude.{option_map};
ghost use Rattle.pay_book.specs.Laws.{AreApart, OneIsEncoded, SeveralAreEncoded};
ghost use Rattle.pay_book.specs.Payment.{count_in, payment, entry_of, is_several, entries_in};
ghost use Rattle.pay_book.specs.Payment.{pair_entry, pair_bytes, payment_value, payments_value};
ghost use Rattle.pay_book.specs.Payment.{payments_named};
ghost use Rattle.pay_book.specs.Places.{place_after};

use pay_frame::Bytes;
use std::alloc::{AllocError, Global};

/// The version of a value of one payment, which is its first byte.
pub const PAYMENT_VERSION: u8 = 1;

/// The length of a payment value in bytes: the version, two of the payee and eight of the amount.
pub const PAYMENT_LENGTH: usize = 11;

/// The version of a value of several payments, which is its first byte. The second byte is the
/// count of payments.
pub const SEVERAL_VERSION: u8 = 2;

/// The most payments that a value has.
pub const MOST_PAYMENTS: u8 = 32;

/// The size of one of several payments: two bytes for the payee and eight for the amount.
pub const PAIR_LENGTH: usize = 10;

/// A payment among several: its payee and its amount.
#[derive(Clone, Copy, Debug, PartialEq, Eq)]
pub struct Payment {
    pub payee: u16,
    pub amount: u64,
}

/// What a broadcast value does to the ledger, once or several times.
#[derive(Clone, Copy, Debug, PartialEq, Eq)]
pub enum Entry {
    /// Moves `amount` from the owner's account to the account `payee`.
    Pay { payee: u16, amount: u64 },
    /// Moves nothing.
    Void,
}

/// Returns the place after one more entry, if `value` is the next value at `place`.
pub(crate) fn place_after(value: &[u8], place: (u32, u8)) -> (u32, u8)
    requires entry { place.1 < count_in value.now }
    requires value { place.0 + 1 < 2 ^ 32 }
    ensures { result ≡ place_after (count_in value.now) place }
{
    if place.1 + 1 < entries_in(value) {
        (place.0, place.1 + 1)
    } else {
        (place.0 + 1, 0)
    }
}

/// Returns how many entries `value` has: the count that it contains if it is a value of several
/// payments, and otherwise one.
#[tactic(auto, unfolding(crate::specs::Payment::count_in))]
// promise: payments
pub fn entries_in(value: &[u8]) -> u8
    ensures { result ≡ count_in value.now }
{
    if is_several(value) { value[1] } else { 1 }
}

/// Returns the entry at `place` in `value`, in the list of `owner`, among this many `accounts`.
// promise: payments
pub fn entry_at(value: &[u8], place: u8, owner: u16, accounts: u16) -> Entry
    requires { place < count_in value.now }
    ensures { slice_get (entries_in accounts owner value.now) place ≡ Some result }
{
    if is_several(value) {
        let start = 2 + PAIR_LENGTH * usize::from(place);
        pair_entry(&value[start..start + PAIR_LENGTH], owner, accounts)
    } else {
        single_entry(value, owner, accounts)
    }
}

/// Returns the first entry that `value` means in the list of `owner`, among this many `accounts`.
// promise: payments
pub fn decode_payment(value: &[u8], owner: u16, accounts: u16) -> Entry
    ensures { slice_get (entries_in accounts owner value.now) 0 ≡ Some result }
{
    entry_at(value, 0, owner, accounts)
}

/// Returns whether `value` has the shape of several payments.
#[tactic(auto, unfolding(crate::specs::Payment::is_several))]
fn is_several(value: &[u8]) -> bool
    ensures { result ≡ is_several value.now }
{
    value.len() > 1
        && value[0] == SEVERAL_VERSION
        && 0 < value[1]
        && value[1] <= MOST_PAYMENTS
        && value.len() == 2 + PAIR_LENGTH * usize::from(value[1])
}

/// Returns what the bytes of one of several payments mean.
#[tactic(auto, unfolding(crate::specs::Payment::pair_entry))]
fn pair_entry(pair: &[u8], owner: u16, accounts: u16) -> Entry
    requires { length pair.now ≡ PAIR_LENGTH }
    ensures { result ≡ pair_entry accounts owner pair.now }
{
    let payee = u16::from_be_bytes([pair[0], pair[1]]);
    let amount = u64::from_be_bytes([
        pair[2], pair[3], pair[4], pair[5], pair[6], pair[7], pair[8], pair[9],
    ]);
    payment_at(payee, amount, owner, accounts)
}

/// Returns the meaning of a `value` that isn't one of several payments.
#[tactic(auto, unfolding(crate::specs::Payment::entry_of))]
fn single_entry(value: &[u8], owner: u16, accounts: u16) -> Entry
    ensures { result ≡ entry_of accounts owner value.now }
{
    if value.len() == PAYMENT_LENGTH && value[0] == PAYMENT_VERSION {
        pair_entry(&value[1..PAYMENT_LENGTH], owner, accounts)
    } else {
        Entry::Void
    }
}

/// Returns what `payee` and `amount` mean: a payment only if the payee is another existing account
/// and the amount isn't 0.
fn payment_at(payee: u16, amount: u64, owner: u16, accounts: u16) -> Entry
    ensures { result ≡ payment accounts owner payee amount }
{
    if payee < accounts && payee != owner && amount != 0 {
        Entry::Pay { payee, amount }
    } else {
        Entry::Void
    }
}

/// Returns the value that pays `amount` to `payee`.
#[tactic(auto, unfolding(crate::specs::Payment::payment_value))]
// promise: payments
pub fn payment_value(payee: u16, amount: u64) -> [u8; PAYMENT_LENGTH]
    ensures { result ≡ payment_value payee amount }
{
    let [high, low] = payee.to_be_bytes();
    let [a, b, c, d, e, f, g, h] = amount.to_be_bytes();
    [PAYMENT_VERSION, high, low, a, b, c, d, e, f, g, h]
}

/// Returns the value of several `payments`, in their order. It reserves room for all its
/// bytes at once.
#[tactic(auto, unfolding(crate::specs::Payment::payments_value))]
// promise: payments
pub fn payments_value(alloc: Global, payments: &[Payment]) -> Result<Bytes, AllocError>
    requires { length payments.now ≤ MOST_PAYMENTS }
    ensures value { IfOk result (λ value. value ≡ payments_value payments.now) }
    ensures length { IfOk result (λ value.
        length value ≡ 2 + PAIR_LENGTH * length payments.now) }
{
    let count = payments.len();
    let mut value = Vec::with_capacity(alloc, 2 + PAIR_LENGTH * count)?;
    value.push(SEVERAL_VERSION)?;
    value.push(count as u8)?;
    for payment in payments {
        value.extend_from_slice(&pair_bytes(*payment))?;
    }
    Bytes::new(alloc, value)
}

/// Returns the bytes of `payment`, one of several.
fn pair_bytes(payment: Payment) -> [u8; PAIR_LENGTH]
    ensures { result ≡ pair_bytes payment }
{
    let [high, low] = payment.payee.to_be_bytes();
    let [a, b, c, d, e, f, g, h] = payment.amount.to_be_bytes();
    [high, low, a, b, c, d, e, f, g, h]
}

/// States that an encoded value means the payments that it was made of, each in its place.
// promise: payments
pub fn what_was_encoded()
    ensures one { OneIsEncoded }
    ensures several { SeveralAreEncoded }
    ensures apart { AreApart }
{}

/// Returns the payments that `pairs` name, each pair a payee and an amount. Returns `None` if a
/// payee has more than the 16 bits that a value has for it.
pub fn payments_named(
    alloc: Global,
    pairs: &[(u64, u64)],
) -> Result<Option<Vec<Payment>>, AllocError>
    ensures { IfOk result (λ payments. option_map (λ payments. payments.items) payments
        ≡ payments_named pairs.now) }
{
    let mut payments = Vec::with_capacity(alloc, pairs.len())?;
    for (number, amount) in pairs {
        let Ok(payee) = u16::try_from(*number) else {
            return Ok(None);
        };
        payments.push(Payment {
            payee,
            amount: *amount,
        })?;
    }
    Ok(Some(payments))
}
