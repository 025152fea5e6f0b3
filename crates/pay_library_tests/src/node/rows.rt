//! The rows.

use crate::node::step::{AGAIN, ECHOED, Group, Handed, Row, Said, Step, Whose};
use pay_book::Line;
use pay_frame::Kind;
use pay_link::LinkFault;
use pay_member::{Lie, Outcome, PaymentState, QueryFault, Told};
use pay_node::CloseFault;

/// A payment of 5 to account 0.
pub(crate) const PAYMENT: &[u8] = &[1, 0, 0, 0, 0, 0, 0, 0, 0, 0, 5];

/// A member alone, with two seats.
const ALONE: Group = Group {
    faults: 0,
    opening: &[7],
    own: 0,
    seats: 2,
};

/// Member 1 of four, with two seats.
pub(crate) const FOUR: Group = Group {
    faults: 1,
    opening: &[100, 0, 0, 50],
    own: 1,
    seats: 2,
};

/// A SEND of member 0 to member 1, number 0, about its first broadcast, with an empty value.
/// Another program tagged it.
pub(crate) const SEND: &[u8] = &[
    0, 54, 1, 1, 0, 0, 0, 1, 0, 0, 0, 0, 0, 0, 0, 0, 0, 0, 0, 0, 0, 0, 0, 0, 95, 18, 216, 156, 232,
    199, 171, 234, 104, 63, 10, 5, 239, 51, 203, 236, 225, 46, 12, 222, 29, 67, 48, 187, 155, 99,
    95, 28, 6, 226, 59, 98,
];

/// The SEND above again, under number 1.
const SEND_AGAIN: &[u8] = &[
    0, 54, 1, 1, 0, 0, 0, 1, 0, 0, 0, 0, 0, 0, 0, 1, 0, 0, 0, 0, 0, 0, 0, 0, 98, 5, 106, 172, 93,
    233, 152, 250, 78, 179, 187, 205, 144, 27, 68, 14, 54, 237, 66, 22, 235, 205, 113, 211, 234,
    179, 237, 209, 62, 244, 117, 208,
];

/// The protocol violation that the second SEND is.
const SECOND_SEND: Lie = Lie {
    kind: Kind::Send,
    owner: 0,
    seq: 0,
};

/// The first SEND with a tag of zeros.
const WRONG_TAG: &[u8] = &[
    0, 54, 1, 1, 0, 0, 0, 1, 0, 0, 0, 0, 0, 0, 0, 0, 0, 0, 0, 0, 0, 0, 0, 0, 0, 0, 0, 0, 0, 0, 0,
    0, 0, 0, 0, 0, 0, 0, 0, 0, 0, 0, 0, 0, 0, 0, 0, 0, 0, 0, 0, 0, 0, 0, 0, 0,
];

/// What a lone member sends of a payment to itself, which moves nothing.
const LONE: &[Said] = &[
    Said {
        kind: Kind::Send,
        owner: 0,
        seq: 0,
        value: PAYMENT,
    },
    Said {
        kind: Kind::Echo,
        owner: 0,
        seq: 0,
        value: PAYMENT,
    },
    Said {
        kind: Kind::Ready,
        owner: 0,
        seq: 0,
        value: PAYMENT,
    },
];

/// Calls from two seats. Each call has a receipt, except for a body that was fetched before and for
/// bytes that fail authentication.
pub(crate) const ROWS: &[Row] = &[
    Row {
        name: "a member alone",
        group: ALONE,
        steps: &[
            Step::State(0, 0, PaymentState::Unknown),
            Step::Ask(PAYMENT, Ok(0)),
            Step::Query(
                0,
                Ok(Told {
                    balance: 7,
                    front: 1,
                    listed: 1,
                }),
            ),
            Step::Query(1, Err(QueryFault::NoAccount)),
            Step::Fetch(0, 16, LONE),
            Step::State(0, 0, PaymentState::Settled),
            Step::State(0, 1, PaymentState::Unknown),
            Step::Statement(0, &[Line::Void { seq: 0 }], 7),
            Step::Fronts(&[1]),
            Step::Receipts(9, 2),
        ],
    },
    Row {
        name: "bodies are fetched once",
        group: ALONE,
        steps: &[
            Step::FetchOnce(2, &[]),
            Step::Ask(PAYMENT, Ok(0)),
            Step::Receipts(2, 1),
            Step::FetchOnce(2, LONE),
            Step::FetchOnce(0, LONE),
            Step::Receipts(4, 1),
            Step::FetchOnce(2, LONE),
            Step::FetchOnce(0, LONE),
            Step::FetchOnce(2, LONE),
            Step::Receipts(4, 1),
            Step::FetchOnce(usize::MAX, LONE),
            Step::FetchOnce(3, LONE),
            Step::Fetch(0, 16, LONE),
            Step::Receipts(7, 1),
            Step::FetchOnce(1, LONE),
            Step::FetchOnce(0, LONE),
            Step::Receipts(8, 1),
        ],
    },
    Row {
        name: "frames are brought",
        group: FOUR,
        steps: &[
            Step::Bring(WRONG_TAG, Outcome::Link(LinkFault::BadTag), false),
            Step::Receipts(0, 0),
            Step::Bring(SEND, ECHOED, true),
            Step::Bring(SEND, Outcome::Link(LinkFault::Repeat(1)), true),
            Step::Receipts(2, 1),
            Step::Lied(0, None),
            Step::Bring(SEND_AGAIN, AGAIN, true),
            Step::Lied(0, Some(SECOND_SEND)),
            Step::Lied(2, None),
            Step::Receipts(3, 2),
        ],
    },
];

/// Seats of a node with two seats, after a value was submitted from the first. Another node has
/// eight seats, from which nobody called.
pub(crate) const HANDED: &[Handed] = &[
    Handed {
        name: "its own seats",
        seats: &[(Whose::This, 0), (Whose::This, 1)],
        answer: None,
    },
    Handed {
        name: "in another order",
        seats: &[(Whose::This, 1), (Whose::This, 0)],
        answer: None,
    },
    Handed {
        name: "seat 7 of another node in place of seat 1",
        seats: &[(Whose::This, 0), (Whose::Another, 7)],
        answer: Some(CloseFault::Mismatch(1)),
    },
    Handed {
        name: "and beside it",
        seats: &[(Whose::This, 0), (Whose::This, 1), (Whose::Another, 7)],
        answer: Some(CloseFault::Mismatch(7)),
    },
    Handed {
        name: "a doubled seat",
        seats: &[(Whose::This, 0), (Whose::This, 1), (Whose::Another, 1)],
        answer: Some(CloseFault::Mismatch(1)),
    },
    Handed {
        name: "a seat that was told nothing in place of one that asked",
        seats: &[(Whose::Another, 0), (Whose::This, 1)],
        answer: Some(CloseFault::Mismatch(0)),
    },
    Handed {
        name: "no seat",
        seats: &[],
        answer: Some(CloseFault::Mismatch(0)),
    },
];
