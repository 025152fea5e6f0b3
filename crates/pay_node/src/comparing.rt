//! The rollback check of a member that starts again: what its peers claim to have of it, and what
//! follows.

ghost use Rattle.std.specs.Prelude.{◌≡◌, ◌+◌, ◌≤◌, IfOk, None, replicate, false};
ghost use Rattle.pay_node.specs.Comparing.{count_beyond, count_within, is_beyond, is_of_now};
ghost use Rattle.pay_node.specs.Comparing.{is_within, standing_of, with_claim, IsClaimedOf};
ghost use Rattle.pay_node.specs.Comparing.{IsComparingOf};

use crate::locked_member::Beginning;
use std::alloc::{AllocError, Global};
use std::marker::{Model, PhantomData};

/// The right of a member to submit values, according to what its peers claim.
#[derive(Clone, Copy, Debug, PartialEq, Eq)]
pub enum Standing {
    /// Too few peers have claimed how many of its bodies they have.
    Waiting,
    /// A quorum knows no more than the member does.
    Free,
    /// More peers than may be faulty know more than the member does.
    Forgotten,
}

// A node that continues from its log makes the rollback check before it pays. f faulty members
// can't mislead it. A member that lost state is itself one of the f. If a value of its own was
// delivered anywhere, a quorum of ECHOs stands for it. A quorum that says "no further" shares more
// than f members with that quorum. These are the member itself, at most f - 1 other faulty ones,
// and so a correct one, which accepted the SEND and says "beyond". Of f + 1 that say "beyond" one
// is correct, and a member that kept its state never gets that answer from a correct one.
/// How many of a member's bodies each peer has, according to its latest claim since the member
/// began.
#[derive(Drop)]
pub struct Comparing {
    members: u16,
    faults: u16,
    sent: u64,
    claims: Vec<Option<u64>>,
}

impl Model for Comparing {
    ghost use Rattle.std.specs.Prelude.{◌≡◌, length};
    ghost use Rattle.pay_node.specs.Comparing.{ComparingFields};

    ghost Value = { ComparingFields };

    ghost view = { λ c. record {
      members = c.members;
      faults = c.faults;
      sent = c.sent;
      claims = c.claims.items;
    } };

    ghost invariant = { λ c. length c.claims.items ≡ c.members };
}

impl Comparing {
    /// Creates a check for a group of `members` members, `faults` of them faulty at most, without
    /// claims. The member began with `sent` bodies that it had sent.
    pub fn new(alloc: Global, members: u16, faults: u16, sent: u64) -> Result<Comparing, AllocError>
        ensures { IfOk result (λ c. c ≡ record {
          members = members;
          faults = faults;
          sent = sent;
          claims = replicate members None;
        }) }
    {
        let claims = vec![in alloc; None; usize::from(members)]?;
        Ok(Comparing {
            members,
            faults,
            sent,
            claims,
        })
    }

    /// Notes that `peer` claims to have accepted `claim` bodies, when `now` bodies are sent. A
    /// claim that may count bodies sent since the member began says nothing. Any other claim
    /// replaces the peer's earlier one.
    // promise: comparing
    pub fn note(&mut self, peer: u16, claim: u64, now: u64)
        ensures { self.new ≡ with_claim self.old peer claim now }
    {
        let place = usize::from(peer);
        if is_of_now(self.sent, now, claim) || place >= self.claims.len() {
            return;
        }
        self.claims[place] = Some(claim);
    }

    /// Returns whether the member may submit values now.
    // promise: comparing
    pub fn standing(&self) -> Standing
        ensures { result ≡ standing_of self.now }
    {
        let (members, faults) = (usize::from(self.members), usize::from(self.faults));
        if self.count_beyond() > faults {
            Standing::Forgotten
        } else if 2 * self.count_within() > members + faults {
            Standing::Free
        } else {
            Standing::Waiting
        }
    }

    // Returns how many peers had accepted more bodies than the member began with.
    fn count_beyond(&self) -> usize
        ensures { result ≡ count_beyond self.now }
    {
        let sent = self.sent;
        self.claims
            .iter()
            .filter(|claim| is_beyond(sent, **claim))
            .count()
    }

    // Returns how many members are known to have accepted no more, including this member.
    fn count_within(&self) -> usize
        ensures count { result ≡ count_within self.now }
        ensures few { result ≤ self.now.members + 1 }
    {
        let sent = self.sent;
        let peers = self
            .claims
            .iter()
            .filter(|claim| is_within(sent, **claim))
            .count();
        peers + 1
    }
}

// Returns whether a claim may count bodies that were sent since the member began.
fn is_of_now(sent: u64, now: u64, claim: u64) -> bool
    ensures { result ≡ is_of_now sent now claim }
{
    sent < claim && claim <= now
}

fn is_beyond(sent: u64, claim: Option<u64>) -> bool
    ensures { result ≡ is_beyond sent claim }
{
    match claim {
        Some(claim) => claim > sent,
        None => false,
    }
}

fn is_within(sent: u64, claim: Option<u64>) -> bool
    ensures { result ≡ is_within sent claim }
{
    match claim {
        Some(claim) => claim <= sent,
        None => false,
    }
}

/// What a node's peers have claimed about the member that the node began with. The claims have a
/// lock of their own.
#[derive(Drop)]
pub(crate) struct Compared<S: Beginning> {
    comparing: Comparing,
    // whether the member was free: it stays so, unless it is found to have lost state
    was_free: bool,
    of: PhantomData<S>,
}

impl<S: Beginning> Model for Compared<S> {
    ghost use Rattle.std.specs.Prelude.{◌≡◌, true};
    ghost use Rattle.pay_node.specs.Comparing.{ComparingFields, IsClaimedOf, IsComparingOf};
    ghost use Rattle.pay_node.specs.declared.comparing.Standing.TheVariants.{Free};

    ghost Value = { ComparingFields };

    ghost view = { λ c. c.comparing };

    ghost invariant = { λ c. IsComparingOf S.beginning c.comparing
        × (c.was_free ≡ true → IsClaimedOf S.beginning Free) };
}

impl<S: Beginning> Compared<S> {
    pub(crate) fn new(comparing: Comparing) -> Compared<S>
        requires { IsComparingOf S.beginning comparing }
    {
        Compared {
            comparing,
            was_free: false,
            of: PhantomData,
        }
    }

    /// Notes the `claim` of `peer`, when `now` bodies are sent: see [`Comparing::note`].
    pub(crate) fn note(&mut self, peer: u16, claim: u64, now: u64) {
        self.comparing.note(peer, claim, now);
        if self.comparing.standing() == Standing::Free {
            self.was_free = true;
        }
    }

    /// Returns whether the member may submit values now.
    pub(crate) fn standing(&self) -> Standing
        ensures { IsClaimedOf S.beginning result }
    {
        match self.comparing.standing() {
            Standing::Waiting if self.was_free => Standing::Free,
            standing => standing,
        }
    }
}
