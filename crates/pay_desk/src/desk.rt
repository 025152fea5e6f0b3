ghost use Rattle.std.specs.Prelude.{◌≡◌, ◌≤◌, [], length, IfOk, OnErr, None, Some};
ghost use Rattle.std.specs.Prelude.{MatchResult};
ghost use Rattle.std.specs.List.{list_all, list_any};
ghost use Rattle.std.specs.Result.{result_err};
ghost use Rattle.pay_desk.specs.Answers.{AnswersCommand, AnswersNote, AnswersPay, Broadcasts};
ghost use Rattle.pay_desk.specs.Answers.{GaveUp, TellsAnswer, TellsBalance, account_fault};
ghost use Rattle.pay_desk.specs.Answers.{is_account, is_void, pay_fault};
ghost use Rattle.pay_desk.specs.Commands.{command_in};
ghost use Rattle.pay_desk.specs.Kept.{kept_under};
ghost use Rattle.pay_desk.specs.Payments.{HasFew, if_named, pairs_of, value_of_payments};

use crate::command::{Command, Order, Payments, read_command};
use crate::fault::{DeskFault, ReadFault, TellerFault};
use crate::kept::KeptValues;
use crate::putting::{
    MOST_ANSWER, kept_text, put_asked, put_balance, put_refused, refused_text, room_for,
};
use crate::teller::Teller;
use crate::wording::Wording;
use pay_book::{MOST_NOTE, note_value};
use pay_frame::{Bytes, GREATEST_VALUE};
use pay_member::QueryFault;
use pay_member::question::{AllFronts, EntriesOf, StateOf, StatementOf, WaitingOf};
use std::alloc::{AllocError, Global};

/// A desk: a teller, the count of accounts and its own account's number, and all submitted values.
#[derive(Drop)]
pub struct Desk<T> {
    teller: T,
    accounts: u16,
    own: u16,
    kept: KeptValues,
}

impl<T: Teller> Desk<T> {
    /// Creates a desk without submitted values, over `teller`, the teller of account `own` among
    /// `accounts`.
    // promise: desk lines
    pub fn new(alloc: Global, teller: T, accounts: u16, own: u16) -> Desk<T>
        ensures { result ≡ record { teller = teller; accounts = accounts; own = own; kept = [] } }
    {
        Desk::with_kept(teller, accounts, own, KeptValues::new(alloc))
    }

    /// Creates a desk over `teller` that continues with what earlier desks `kept`.
    pub fn with_kept(teller: T, accounts: u16, own: u16, kept: KeptValues) -> Desk<T>
        ensures { result ≡ record { teller = teller; accounts = accounts; own = own; kept = kept } }
    {
        Desk {
            teller,
            accounts,
            own,
            kept,
        }
    }

    /// Returns the teller.
    pub fn into_teller(self) -> T
        ensures { result ≡ self.teller }
    {
        let Desk { teller, .. } = self;
        teller
    }

    /// Answers `line`. Each line of the answer ends with a line feed.
    ///
    /// If memory runs out the desk is unchanged, and the line may be repeated.
    // promise: nothing changes (err); desk lines (text); ids (text)
    pub fn line(&mut self, alloc: Global, line: &[u8]) -> Result<Vec<u8>, AllocError>
        ensures text { IfOk result (λ text.
            AnswersCommand T.says (command_in line.now) self.old text.items self.new) }
        ensures err { OnErr result (GaveUp T.says self.old self.new) }
    {
        let Some(command) = read_command(alloc, line)? else {
            return refused_text(alloc, DeskFault::BadLine);
        };
        match command {
            Command::Pay(order) => self.pay(alloc, order),
            Command::Note { id, text } => self.note(alloc, id, &text),
            Command::Balance(account) => match self.account(account) {
                Ok(account) => self.query(alloc, account),
                Err(fault) => refused_text(alloc, fault),
            },
            Command::State { owner, seq } => match self.account(owner) {
                Ok(owner) => self.read(alloc, StateOf { owner, seq }),
                Err(fault) => refused_text(alloc, fault),
            },
            Command::Statement(account) => match self.account(account) {
                Ok(account) => self.read(alloc, StatementOf(account)),
                Err(fault) => refused_text(alloc, fault),
            },
            Command::Entries { account, from } => match self.account(account) {
                Ok(account) => self.read(alloc, EntriesOf { account, from }),
                Err(fault) => refused_text(alloc, fault),
            },
            Command::Waiting(account) => match self.account(account) {
                Ok(account) => self.read(alloc, WaitingOf(account)),
                Err(fault) => refused_text(alloc, fault),
            },
            Command::Front => self.read(alloc, AllFronts),
        }
    }

    // Submits payments. A kept id gets its old answer; payments under a new id are tested.
    fn pay(&mut self, alloc: Global, order: Order) -> Result<Vec<u8>, AllocError>
        requires { HasFew order.payments }
        ensures text { IfOk result (λ text.
            AnswersPay T.says (kept_under order.id self.old.kept) order
            self.old text.items self.new) }
        ensures err { OnErr result (self.new ≡ self.old) }
    {
        let value = order.payments.value(alloc)?;
        if let Some(kept) = self.kept.find(order.id) {
            return kept_text(alloc, kept, order.id, &value);
        }
        match value_or_fault(self.accounts, self.own, &order.payments, value) {
            Ok(value) => self.ask(alloc, order.id, value),
            Err(fault) => refused_text(alloc, fault),
        }
    }

    // Submits a note. A note names nobody, so only its id is tested.
    fn note(&mut self, alloc: Global, id: u64, text: &Bytes) -> Result<Vec<u8>, AllocError>
        requires { length text.now ≤ MOST_NOTE }
        ensures text { IfOk result (λ answer.
            AnswersNote T.says (kept_under id self.old.kept) id text.now
            self.old answer.items self.new) }
        ensures err { OnErr result (self.new ≡ self.old) }
    {
        let value = note_value(alloc, text.as_slice())?;
        match self.kept.find(id) {
            Some(kept) => kept_text(alloc, kept, id, &Some(value)),
            None => self.ask(alloc, id, value),
        }
    }

    // Returns the account of this `number`, if there is one.
    fn account(&self, number: u64) -> Result<u16, DeskFault>
        ensures { MatchResult result
            (λ account. (account_fault self.now.accounts number ≡ None) × (account ≡ number))
            (λ fault. account_fault self.now.accounts number ≡ Some fault) }
    {
        if number < u64::from(self.accounts) {
            u16::try_from(number).map_err(|_| DeskFault::NoAccount)
        } else {
            Err(DeskFault::NoAccount)
        }
    }

    fn ask(&mut self, alloc: Global, id: u64, value: Bytes) -> Result<Vec<u8>, AllocError>
        requires fresh { kept_under id self.old.kept ≡ None }
        requires short { length value ≤ GREATEST_VALUE }
        ensures text { IfOk result (λ text.
            Broadcasts T.says id value self.old text.items self.new) }
        ensures err { OnErr result (self.new ≡ self.old) }
    {
        let mut text = room_for(alloc, MOST_ANSWER)?;
        match self.kept.ask(alloc, &mut self.teller, id, value) {
            Ok(seq) => put_asked(&mut text, id, seq),
            Err(TellerFault::Memory) => return Err(AllocError),
            Err(fault) => put_refused(&mut text, DeskFault::from(fault)),
        }
        Ok(text)
    }

    fn query(&mut self, alloc: Global, account: u16) -> Result<Vec<u8>, AllocError>
        ensures text { IfOk result (λ text.
            TellsBalance T.says account self.old text.items self.new) }
        ensures err { OnErr result (self.new ≡ self.old) }
    {
        let mut text = room_for(alloc, MOST_ANSWER)?;
        match self.teller.query(alloc, account) {
            Ok(told) => put_balance(&mut text, account, told.balance),
            Err(QueryFault::Memory) => return Err(AllocError),
            Err(QueryFault::NoAccount) => put_refused(&mut text, DeskFault::NoAccount),
        }
        Ok(text)
    }

    // Returns what the teller answers to `question`, in words.
    fn read<Q: Wording>(&mut self, alloc: Global, question: Q) -> Result<Vec<u8>, AllocError>
        ensures text { IfOk result (λ text.
            TellsAnswer T.says (Q.reading question) (Q.words question)
            self.old text.items self.new) }
        ensures err { OnErr result (GaveUp T.says self.old self.new) }
    {
        let mut text = Q::room(alloc)?;
        match self.teller.read(alloc, question) {
            Ok(answer) => question.put(&mut text, &answer)?,
            Err(ReadFault::Memory) => return Err(AllocError),
            Err(ReadFault::Forgotten) => put_refused(&mut text, DeskFault::Forgotten),
        }
        Ok(text)
    }
}

// Returns the value of `payments`, or why they aren't submitted. A payee that no value can name is
// no account.
#[tactic(auto, using(crate::proofs::Naming::unnamed_is_no_account))]
fn value_or_fault(
    accounts: u16,
    own: u16,
    payments: &Payments,
    value: Option<Bytes>,
) -> Result<Bytes, DeskFault>
    requires value { value ≡ if_named payments.now (value_of_payments payments.now) }
    ensures value { IfOk result (λ found. value ≡ Some found) }
    ensures fault { result_err result ≡ pay_fault accounts own (pairs_of payments.now) }
{
    let Some(value) = value else {
        return Err(DeskFault::NoAccount);
    };
    match fault(accounts, own, payments) {
        Some(fault) => Err(fault),
        None => Ok(value),
    }
}

// Returns why payments aren't submitted, if they aren't.
fn fault(accounts: u16, own: u16, payments: &Payments) -> Option<DeskFault>
    ensures { result ≡ pay_fault accounts own (pairs_of payments.now) }
{
    match payments {
        Payments::One { to, amount } => fault_of(accounts, own, &[(*to, *amount)]),
        Payments::Several(pairs) => fault_of(accounts, own, pairs.as_slice()),
    }
}

// Returns the first fault of payments. All payees are tested before any amount.
fn fault_of(accounts: u16, own: u16, pairs: &[(u64, u64)]) -> Option<DeskFault>
    ensures { result ≡ pay_fault accounts own pairs.now }
{
    if !are_accounts(accounts, pairs) {
        Some(DeskFault::NoAccount)
    } else if has_void(own, pairs) {
        Some(DeskFault::ZeroOrSelf)
    } else {
        None
    }
}

fn are_accounts(accounts: u16, pairs: &[(u64, u64)]) -> bool
    ensures { result ≡ list_all (is_account accounts) pairs.now }
{
    pairs.iter().all(|pair| pair.0 < u64::from(accounts))
}

// Returns whether one of these payments would be a void entry of the account `own`.
fn has_void(own: u16, pairs: &[(u64, u64)]) -> bool
    ensures { result ≡ list_any (is_void own) pairs.now }
{
    pairs
        .iter()
        .any(|pair| pair.1 == 0 || pair.0 == u64::from(own))
}
