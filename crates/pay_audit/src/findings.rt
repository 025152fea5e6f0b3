//! All that is wrong with exports.

ghost use Rattle.std.specs.Prelude.{◌≡◌, ◌++◌, map, OnOk, ◌↔◌, None, IfOk, IsTrue, ◌<◌, filter};
ghost use Rattle.std.specs.List.{flat_map};
ghost use Rattle.std.specs.Option.{option_or};
ghost use Rattle.pay_audit.specs.Auditor.{IsNothing, other_genesis_than};
ghost use Rattle.pay_audit.specs.Export.{IsExport};
ghost use Rattle.pay_audit.specs.Findings.{payment_or_void, in_words, name_words};
ghost use Rattle.pay_audit.specs.Findings.{account_finding_words, book_finding_words, if_wrong};
ghost use Rattle.pay_audit.specs.Findings.{said_words, has_genesis, findings_by, findings_words};
ghost use Rattle.pay_audit.specs.Findings.{group_words, stranger_words};
ghost use Rattle.pay_audit.specs.Verdict.{wrong_balance_at, wrong_front_at, book_of};
ghost use Rattle.pay_book.specs.Payment.{entries_in};

use crate::auditing::{Verdict, other_genesis_at, settle_export, wrong_balance_of, wrong_front_of};
use crate::exported::Export;
use crate::forks::push_forks;
use pay_book::laws::values_count_their_entries;
use pay_book::{Entry, Settle, entries_in, entry_at};
use pay_link::Genesis;
use pay_pending::WaitingBook;
use pay_text::{push_number, push_word};
use std::alloc::{AllocError, Global};

/// Appends the name of the file, and a line feed, to `out`.
pub(crate) fn push_in(out: &mut Vec<u8>, named: Named<'_>) -> Result<(), AllocError>
    ensures { OnOk result (out.new.items ≡ out.old.items ++ in_words named.entry) }
{
    push_word(out, " in")?;
    push_name(out, named)?;
    push_word(out, "\n")
}

/// Appends the name of the file to `out`.
pub(crate) fn push_name(out: &mut Vec<u8>, named: Named<'_>) -> Result<(), AllocError>
    ensures { OnOk result (out.new.items ≡ out.old.items ++ name_words named.entry) }
{
    push_word(out, " ")?;
    push_word(out, named.name)
}

/// Appends the entries of `value`, in the list of `owner` among `members` accounts, to `out`.
pub(crate) fn push_entries(
    out: &mut Vec<u8>,
    members: u16,
    owner: u16,
    value: &[u8],
) -> Result<(), AllocError>
    ensures { OnOk result (out.new.items ≡ out.old.items
        ++ flat_map payment_or_void (entries_in members owner value.now)) }
{
    values_count_their_entries();
    for place in 0..entries_in(value) {
        push_entry(out, entry_at(value, place, owner, members))?;
    }
    Ok(())
}

#[tactic(auto, unfolding(crate::specs::Findings::payment_or_void))]
fn push_entry(out: &mut Vec<u8>, entry: Entry) -> Result<(), AllocError>
    ensures { OnOk result (out.new.items ≡ out.old.items ++ payment_or_void entry) }
{
    match entry {
        Entry::Pay { payee, amount } => {
            push_word(out, " to ")?;
            push_number(out, u64::from(payee))?;
            push_word(out, " amount ")?;
            push_number(out, amount)
        }
        Entry::Void => push_word(out, " void"),
    }
}

/// The first export with another genesis, the first wrong front and the first wrong balance. After
/// one of them is found, `with` doesn't look for those that follow it here, since a verdict names
/// only the first of the three.
#[derive(Clone, Copy, Debug)]
pub(crate) struct Wrong {
    pub(crate) genesis: Option<Verdict>,
    pub(crate) front: Option<Verdict>,
    pub(crate) balance: Option<Verdict>,
}

impl Wrong {
    pub(crate) const NOTHING: Wrong = Wrong {
        genesis: None,
        front: None,
        balance: None,
    };

    pub(crate) fn is_nothing(self) -> bool
        ensures { IsTrue result ↔ IsNothing self }
    {
        self.genesis.is_none() && self.front.is_none() && self.balance.is_none()
    }

    /// Returns these findings, with what is wrong with `export` at `place`. `genesis` is the
    /// genesis of the first export, if `export` isn't the first itself.
    pub(crate) fn with(
        self,
        alloc: Global,
        genesis: &Option<Genesis>,
        place: usize,
        export: &Export,
    ) -> Result<Wrong, AllocError>
        ensures genesis { IfOk result (λ wrong. wrong.genesis
            ≡ option_or self.genesis (other_genesis_than genesis.now place export.now)) }
        ensures front { IfOk result (λ wrong. wrong.genesis ≡ None
            → wrong.front ≡ option_or self.front (wrong_front_at place export.now)) }
        ensures balance { IfOk result (λ wrong. wrong.genesis ≡ None → wrong.front ≡ None
            → wrong.balance ≡ option_or self.balance (wrong_balance_at place export.now)) }
    {
        if self.genesis.is_some() {
            return Ok(self);
        }
        let other = other_genesis_than(genesis, place, export);
        if other.is_some() {
            return Ok(Wrong {
                genesis: other,
                front: self.front,
                balance: self.balance,
            });
        }
        if self.front.is_some() {
            return Ok(self);
        }
        self.with_book(alloc, place, export)
    }

    // Returns these findings with those of one more export, if no genesis and no front is wrong up
    // to now.
    fn with_book(self, alloc: Global, place: usize, export: &Export) -> Result<Wrong, AllocError>
        ensures genesis { IfOk result (λ wrong. wrong.genesis ≡ None) }
        ensures front { IfOk result (λ wrong. wrong.front ≡ wrong_front_at place export.now) }
        ensures balance { IfOk result (λ wrong.
            wrong.balance ≡ option_or self.balance (wrong_balance_at place export.now)) }
    {
        let book: WaitingBook = settle_export(alloc, export)?;
        let front = wrong_front_of(export, &book).map(|account| Verdict::WrongFront {
            export: place,
            account,
        });
        let mut balance = self.balance;
        if balance.is_none() {
            balance = wrong_balance_of(export, &book).map(|account| Verdict::WrongBalance {
                export: place,
                account,
            });
        }
        Ok(Wrong {
            genesis: None,
            front,
            balance,
        })
    }
}

// Returns this export's verdict, if it doesn't have the genesis of the first one.
fn other_genesis_than(genesis: &Option<Genesis>, place: usize, export: &Export) -> Option<Verdict>
    ensures { result ≡ other_genesis_than genesis.now place export.now }
{
    match genesis {
        Some(genesis) => other_genesis_at(genesis, place, export),
        None => None,
    }
}

/// Appends what is wrong with the fronts and the balances of each export in `group` to `out`.
pub(crate) fn push_books(
    alloc: Global,
    out: &mut Vec<u8>,
    group: &[Named<'_>],
) -> Result<(), AllocError>
    ensures { OnOk result (out.new.items ≡ out.old.items ++ flat_map book_finding_words group.now) }
{
    for named in group {
        push_book(alloc, out, *named)?;
    }
    Ok(())
}

// Appends what is wrong with the front and the balances of an export, account by account.
#[tactic(auto, unfolding(crate::specs::Findings::book_finding_words))]
fn push_book(alloc: Global, out: &mut Vec<u8>, named: Named<'_>) -> Result<(), AllocError>
    ensures { OnOk result (out.new.items ≡ out.old.items ++ book_finding_words named.entry) }
{
    let book: WaitingBook = settle_export(alloc, named.export)?;
    // for the limits of an export: the call does nothing
    named.export.member();
    for account in 0..named.export.genesis().members() {
        push_account(out, named, &book, account)?;
    }
    Ok(())
}

fn push_account<B: Settle>(
    out: &mut Vec<u8>,
    named: Named<'_>,
    book: &B,
    account: u16,
) -> Result<(), AllocError>
    requires book { B.shows book.now ≡ book_of named.export.now }
    requires limits { IsExport named.export.now }
    requires account { account < named.export.now.genesis.members }
    ensures { OnOk result
        (out.new.items ≡ out.old.items ++ account_finding_words named.entry account) }
{
    let Named { export, .. } = named;
    let front = u64::from(book.front(account));
    push_if_wrong(out, "2 front", named, account, export.front(account), front)?;
    let balance = book.balance(account);
    push_if_wrong(
        out,
        "3 balance",
        named,
        account,
        export.balance(account),
        balance,
    )
}

// Appends what an export says about an account, if it isn't the `right` number.
fn push_if_wrong(
    out: &mut Vec<u8>,
    kind: &str,
    named: Named<'_>,
    account: u16,
    said: u64,
    right: u64,
) -> Result<(), AllocError>
    ensures { OnOk result (out.new.items ≡ out.old.items
        ++ if_wrong kind.now named.entry account said right) }
{
    if said == right {
        return Ok(());
    }
    push_said(out, kind, named, account, said, right)
}

#[tactic(auto, unfolding(crate::specs::Findings::said_words))]
fn push_said(
    out: &mut Vec<u8>,
    kind: &str,
    named: Named<'_>,
    account: u16,
    said: u64,
    right: u64,
) -> Result<(), AllocError>
    ensures { OnOk result (out.new.items ≡ out.old.items
        ++ said_words kind.now named.entry account said right) }
{
    push_word(out, kind)?;
    push_word(out, " account ")?;
    push_number(out, u64::from(account))?;
    push_word(out, " says ")?;
    push_number(out, said)?;
    push_word(out, " right ")?;
    push_number(out, right)?;
    push_in(out, named)
}

/// An export and the name of its file.
#[derive(Clone, Copy, Drop)]
pub struct Named<'a> {
    pub name: &'a str,
    pub export: &'a Export,
}

/// Returns a line for each thing that is wrong with `exports`, and nothing if all is right. There
/// is a line for each export with another genesis than the first. Among the others, there is a line
/// for each front and each balance that isn't that of the export's own lists. There is one for each
/// value of a number under which exports list several values.
// promise: findings
pub fn findings_text(alloc: Global, exports: &[Named<'_>]) -> Result<Vec<u8>, AllocError>
    ensures { IfOk result (λ text. text.items ≡ findings_words exports.now) }
{
    let mut text = Vec::new(alloc);
    if let Some(first) = exports.first() {
        push_findings(alloc, &mut text, first.export.genesis(), exports)?;
    }
    Ok(text)
}

// Appends what is wrong with the exports against `genesis`.
#[tactic(auto, unfolding(crate::specs::Findings::findings_by))]
fn push_findings(
    alloc: Global,
    out: &mut Vec<u8>,
    genesis: &Genesis,
    exports: &[Named<'_>],
) -> Result<(), AllocError>
    ensures { OnOk result (out.new.items ≡ out.old.items ++ findings_by genesis.now exports.now) }
{
    push_strangers(out, genesis, exports)?;
    let group = of_group(alloc, genesis, exports)?;
    push_group(alloc, out, genesis.members(), group.as_slice())
}

// Appends what is wrong with exports of one group.
#[tactic(auto, unfolding(crate::specs::Findings::group_words))]
fn push_group(
    alloc: Global,
    out: &mut Vec<u8>,
    members: u16,
    group: &[Named<'_>],
) -> Result<(), AllocError>
    ensures { OnOk result (out.new.items ≡ out.old.items ++ group_words members group.now) }
{
    push_books(alloc, out, group)?;
    push_forks(out, members, group)
}

// Appends the exports that have another genesis.
fn push_strangers(
    out: &mut Vec<u8>,
    genesis: &Genesis,
    exports: &[Named<'_>],
) -> Result<(), AllocError>
    ensures { OnOk result (out.new.items ≡ out.old.items
        ++ flat_map (stranger_words genesis.now) exports.now) }
{
    for named in exports {
        push_if_stranger(out, genesis, *named)?;
    }
    Ok(())
}

fn push_if_stranger(
    out: &mut Vec<u8>,
    genesis: &Genesis,
    named: Named<'_>,
) -> Result<(), AllocError>
    ensures { OnOk result (out.new.items ≡ out.old.items
        ++ stranger_words genesis.now named.entry) }
{
    if begins(genesis, named) {
        return Ok(());
    }
    push_word(out, "1 genesis")?;
    push_in(out, named)
}

// Returns whether an export has this `genesis`.
fn begins(genesis: &Genesis, named: Named<'_>) -> bool
    ensures { result ≡ has_genesis genesis.now named.entry }
{
    genesis.is_same(named.export.genesis())
}

// Returns the exports that have this `genesis`.
fn of_group<'a>(
    alloc: Global,
    genesis: &Genesis,
    exports: &[Named<'a>],
) -> Result<Vec<Named<'a>>, AllocError>
    ensures { IfOk result (λ group. group.items ≡ filter (has_genesis genesis.now) exports.now) }
{
    let mut group = Vec::new(alloc);
    for named in exports {
        if begins(genesis, *named) {
            group.push(*named)?;
        }
    }
    Ok(group)
}
