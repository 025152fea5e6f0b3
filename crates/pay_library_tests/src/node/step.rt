//! Rows as plain data: what is called from two seats, and what has to be answered.

use pay_book::Line;
use pay_frame::Kind;
use pay_member::{AskFault, Lie, Outcome, PaymentState, QueryFault, Told, Took};
use pay_node::CloseFault;

/// The outcome of a SEND of its owner.
pub(crate) const ECHOED: Outcome = Outcome::Took(Took {
    echo: true,
    ready: false,
    deliver: false,
    settled: 0,
});

/// The outcome of a second SEND.
pub(crate) const AGAIN: Outcome = Outcome::Took(Took {
    echo: false,
    ready: false,
    deliver: false,
    settled: 0,
});

/// The group of a node, its member and how many seats it has.
#[derive(Clone, Copy)]
pub(crate) struct Group {
    pub(crate) faults: u64,
    pub(crate) opening: &'static [u64],
    pub(crate) own: u16,
    pub(crate) seats: u16,
}

/// A body that a member sent to all.
#[derive(Clone, Copy)]
pub(crate) struct Said {
    pub(crate) kind: Kind,
    pub(crate) owner: u16,
    pub(crate) seq: u32,
    pub(crate) value: &'static [u8],
}

/// A call, and its answer.
#[derive(Clone, Copy)]
pub(crate) enum Step {
    /// A frame, as its bytes, and whether the answer has a WANT.
    Bring(&'static [u8], Outcome, bool),
    Ask(&'static [u8], Result<u32, AskFault>),
    Query(u16, Result<Told, QueryFault>),
    State(u16, u32, PaymentState),
    Statement(u16, &'static [Line], u64),
    Fronts(&'static [u32]),
    Fetch(usize, usize, &'static [Said]),
    /// The body of a number: the one at that place of these bodies, if there is one.
    FetchOnce(usize, &'static [Said]),
    /// The last protocol violation of a peer. The call leaves no receipt.
    Lied(u16, Option<Lie>),
    /// The count of receipts that the two seats have, and how many of them are of calls with an
    /// entry.
    Receipts(usize, usize),
}

/// What is called from two seats of a node, which is then closed.
pub(crate) struct Row {
    pub(crate) name: &'static str,
    pub(crate) group: Group,
    pub(crate) steps: &'static [Step],
}

/// The seats that are handed in, each by its node and its stamp. The node is this one or another
/// with eight seats. A value was submitted to this node from the first seat before.
pub(crate) struct Handed {
    pub(crate) name: &'static str,
    pub(crate) seats: &'static [(Whose, usize)],
    pub(crate) answer: Option<CloseFault>,
}

#[derive(Clone, Copy, PartialEq, Eq)]
pub(crate) enum Whose {
    This,
    Another,
}
