ghost use Rattle.std.specs.Prelude.{◌≡◌};
ghost use Rattle.pay_peers.specs.Telling.{TellerSays, values_told};

use pay_desk::{ReadFault, Teller, TellerFault};
use pay_durable::Keeper;
use pay_frame::Bytes;
use pay_member::{AskFault, QueryFault, Question, Told};
use pay_node::{Beginning, HandInFault, Node, OwnAnswer, Seat};
use std::alloc::Global;
use std::marker::Model;
use std::sync::Wait;

/// A node as a desk's teller, which calls it from a seat of its own. The node's durability gate
/// notes the id of each value before the value is submitted.
#[derive(Drop)]
pub struct NodeTeller<'a, R, S: Beginning, K> {
    rt: &'a R,
    node: &'a Node<S>,
    keeper: &'a K,
    seat: Seat,
    next: u32,
}

impl<'a, R, S: Beginning, K> Model for NodeTeller<'a, R, S, K> {
    ghost use Rattle.pay_peers.specs.Telling.{TellerFields};

    ghost Value = { TellerFields };

    ghost view = { λ t. record { node = t.node.now; seat = t.seat; next = t.next } };
}

impl<'a, R, S: Beginning, K> NodeTeller<'a, R, S, K> {
    /// Creates a teller of `node` that keeps the receipts of its calls at `seat`. The node's member
    /// submitted `next` values before.
    // promise: ids
    pub fn new(
        rt: &'a R,
        node: &'a Node<S>,
        keeper: &'a K,
        seat: Seat,
        next: u32,
    ) -> NodeTeller<'a, R, S, K>
        ensures { result ≡ record { node = node.now; seat = seat; next = next } }
    {
        NodeTeller {
            rt,
            node,
            keeper,
            seat,
            next,
        }
    }

    /// Returns the seat with all its receipts, for the node's shutdown check.
    pub fn into_seat(self) -> Seat
        ensures { result ≡ self.entry.seat }
    {
        self.seat
    }
}

impl<R, S, K> Teller for NodeTeller<'_, R, S, K>
where
    R: Wait,
    S: Beginning,
    K: Keeper,
{
    ghost says = { TellerSays };

    ghost asked = { λ t. values_told t.seat.receipts };

    // promise: ids; comparing
    fn ask(&mut self, alloc: Global, id: u64, value: Bytes) -> Result<u32, TellerFault> {
        self.keeper.order(self.rt, self.next, id)?;
        match self.node.ask(self.rt, alloc, &mut self.seat, value) {
            Ok(seq) => {
                self.next = seq.saturating_add(1);
                Ok(seq)
            }
            Err(HandInFault::TooEarly) => Err(TellerFault::TooEarly),
            Err(HandInFault::Forgotten) => Err(TellerFault::Forgotten),
            Err(HandInFault::Ask(AskFault::Spent)) => Err(TellerFault::Spent),
            Err(HandInFault::Ask(AskFault::Memory)) => Err(TellerFault::Memory),
            // the call requires that the value is short enough
            Err(HandInFault::Ask(AskFault::TooLong)) => unreachable!(),
        }
    }

    fn query(&mut self, alloc: Global, account: u16) -> Result<Told, QueryFault> {
        self.node.query(self.rt, alloc, &mut self.seat, account)
    }

    fn read<Q: Question>(&mut self, alloc: Global, question: Q) -> Result<Q::Answer, ReadFault> {
        if question.account_told() != Some(self.node.keys().own()) {
            return Ok(self.node.read(self.rt, alloc, &mut self.seat, question)?);
        }
        let answer = self
            .node
            .read_own(self.rt, alloc, &mut self.seat, question)?;
        match answer {
            OwnAnswer::Told(answer) => Ok(answer),
            OwnAnswer::Withheld(_) => Err(ReadFault::Forgotten),
        }
    }

    ghost use Rattle.pay_peers.specs.SeatAsks.{seat_asks};

    ghost only_asks = { λ old new said is.
        seat_asks old.node old.seat new.seat said is.told };
}
