//! What a script prints for replies and for a member's ledger, appended to what was written before.

ghost use Rattle.std.specs.Prelude.{◌≡◌, ◌++◌, OnOk, slice_index, codes, decimal};
ghost use Rattle.pay_link.specs.Words.{link_words};
ghost use Rattle.pay_sim.specs.Words.{account_number_words, shown_book, member_words, if_so};
ghost use Rattle.pay_sim.specs.Words.{outcome_words, refused_words_at, reply_line, reply_words};
ghost use Rattle.pay_sim.specs.Words.{settle_words, took_words};

use pay_book::Settle;
use pay_echo::Instance;
use pay_link::LinkFault;
use pay_member::{Member, MemberFault, Outcome, Took};
use pay_text::{push_number, push_word};
use pay_world::WorldReply;
use std::alloc::AllocError;

/// Appends how many entries of each account are settled, and all balances, as `member` has them, to
/// `out`.
#[tactic(auto, unfolding(crate::specs::Words::member_words))]
pub fn push_book<I: Instance + Drop, B: Settle + Drop>(
    out: &mut Vec<u8>,
    number: u16,
    member: &Member<I, B>,
) -> Result<(), AllocError>
    ensures { OnOk result (out.new.items ≡ out.old.items ++ member_words
        member.now.genesis.members number (shown_book member.now)) }
{
    push_word(out, "member ")?;
    push_number(out, u64::from(number))?;
    push_word(out, " fronts")?;
    push_fronts(out, member)?;
    push_word(out, " balances")?;
    push_balances(out, member)
}

fn push_fronts<I: Instance + Drop, B: Settle + Drop>(
    out: &mut Vec<u8>,
    member: &Member<I, B>,
) -> Result<(), AllocError>
    ensures { OnOk result (out.new.items ≡ out.old.items ++ account_number_words
        (slice_index (shown_book member.now).front) member.now.genesis.members) }
{
    for account in 0..member.genesis().members() {
        push_word(out, " ")?;
        push_number(out, u64::from(member.front(account)))?;
    }
    Ok(())
}

fn push_balances<I: Instance + Drop, B: Settle + Drop>(
    out: &mut Vec<u8>,
    member: &Member<I, B>,
) -> Result<(), AllocError>
    ensures { OnOk result (out.new.items ≡ out.old.items ++ account_number_words
        (slice_index (shown_book member.now).balances) member.now.genesis.members) }
{
    for account in 0..member.genesis().members() {
        push_word(out, " ")?;
        push_number(out, member.balance(account))?;
    }
    Ok(())
}

/// Appends the line of what `member` replied, `reply`, to `out`.
#[tactic(auto, unfolding(crate::specs::Words::reply_line))]
pub(crate) fn push_reply(
    out: &mut Vec<u8>,
    member: u16,
    reply: WorldReply,
) -> Result<(), AllocError>
    ensures { OnOk result (out.new.items ≡ out.old.items ++ reply_line member reply) }
{
    push_reply_words(out, member, reply)?;
    push_word(out, "\n")
}

#[tactic(auto, unfolding(crate::specs::Words::reply_words))]
fn push_reply_words(out: &mut Vec<u8>, member: u16, reply: WorldReply) -> Result<(), AllocError>
    ensures { OnOk result (out.new.items ≡ out.old.items ++ reply_words member reply) }
{
    match reply {
        WorldReply::Asked(seq) => push_asked(out, member, seq),
        WorldReply::Refused(fault) => push_refused(out, "member", fault.number(), fault.name()),
        WorldReply::Brought(outcome) => push_outcome(out, &outcome),
        WorldReply::Ignored => push_word(out, "ignored"),
    }
}

fn push_asked(out: &mut Vec<u8>, member: u16, seq: u32) -> Result<(), AllocError>
    ensures { OnOk result (out.new.items
        ≡ out.old.items ++ codes "asked " ++ decimal member ++ codes " seq " ++ decimal seq) }
{
    push_word(out, "asked ")?;
    push_number(out, u64::from(member))?;
    push_word(out, " seq ")?;
    push_number(out, u64::from(seq))
}

/// Appends the `outcome` of bytes that were delivered to a member to `out`.
#[tactic(auto, unfolding(crate::specs::Words::outcome_words))]
pub fn push_outcome(out: &mut Vec<u8>, outcome: &Outcome) -> Result<(), AllocError>
    ensures { OnOk result (out.new.items ≡ out.old.items ++ outcome_words outcome.now) }
{
    match outcome {
        Outcome::Took(took) => push_took(out, *took),
        Outcome::Wanted { from, number } => push_wanted(out, *from, *number),
        Outcome::Frame(fault) => push_refused(out, "frame", fault.number(), fault.name()),
        Outcome::Link(fault) => push_link(out, *fault),
        Outcome::WrongKey => {
            let fault = MemberFault::WrongKey;
            push_refused(out, "member", fault.number(), fault.name())
        }
    }
}

#[tactic(auto, unfolding(crate::specs::Words::took_words))]
fn push_took(out: &mut Vec<u8>, took: Took) -> Result<(), AllocError>
    ensures { OnOk result (out.new.items ≡ out.old.items ++ took_words took) }
{
    push_word(out, "took")?;
    push_if(out, took.echo, " echo")?;
    push_if(out, took.ready, " ready")?;
    push_if(out, took.deliver, " deliver")?;
    push_settled(out, took.settled)
}

fn push_if(out: &mut Vec<u8>, so: bool, words: &str) -> Result<(), AllocError>
    ensures { OnOk result (out.new.items ≡ out.old.items ++ if_so so words.now) }
{
    if so { push_word(out, words) } else { Ok(()) }
}

fn push_settled(out: &mut Vec<u8>, settled: u32) -> Result<(), AllocError>
    ensures { OnOk result (out.new.items ≡ out.old.items ++ settle_words settled) }
{
    if settled == 0 {
        return Ok(());
    }
    push_word(out, " settle ")?;
    push_number(out, u64::from(settled))
}

fn push_wanted(out: &mut Vec<u8>, from: u16, number: u64) -> Result<(), AllocError>
    ensures { OnOk result (out.new.items
        ≡ out.old.items ++ codes "wanted " ++ decimal from ++ codes " " ++ decimal number) }
{
    push_word(out, "wanted ")?;
    push_number(out, u64::from(from))?;
    push_word(out, " ")?;
    push_number(out, number)
}

fn push_link(out: &mut Vec<u8>, fault: LinkFault) -> Result<(), AllocError>
    ensures { OnOk result (out.new.items
        ≡ out.old.items ++ codes "refused link " ++ link_words fault) }
{
    push_word(out, "refused link ")?;
    fault.push_words(out)
}

/// Appends the refuser (`at`: a member, a frame or a link), and the fault's `number` and `name`, to
/// `out`.
#[tactic(auto, unfolding(crate::specs::Words::refused_words_at))]
pub fn push_refused(out: &mut Vec<u8>, at: &str, number: u8, name: &str) -> Result<(), AllocError>
    ensures { OnOk result
        (out.new.items ≡ out.old.items ++ refused_words_at at.now number name.now) }
{
    push_word(out, "refused ")?;
    push_word(out, at)?;
    push_word(out, " ")?;
    push_number(out, u64::from(number))?;
    push_word(out, " ")?;
    push_word(out, name)
}
