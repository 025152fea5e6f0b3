//! Laws of the definitions. Each function's contract is the law; its body does nothing.

ghost use Rattle.pay_net.specs.DeskLaws.{ClientsAskOnce};
ghost use Rattle.pay_net.specs.InboundLaws.{AnotherOneStays, CurrentOnesStay};
ghost use Rattle.pay_net.specs.InboundLaws.{OldWantsLeaveCurrentOnes, OldWantsMakeNoneCurrent};
ghost use Rattle.pay_net.specs.InboundLaws.{OneStandsWhereAllAreTaken, WhatIsAskedStaysAsked};
ghost use Rattle.pay_net.specs.Limits.{AreLimits};

use pay_desk::a_desk_asks_once;
use pay_durable::Keeper;
use pay_node::Beginning;
use pay_peers::NodeTeller;
use std::sync::Wait;

/// States that a node's desk has its member broadcast just the values that it keeps, each under an
/// id of its own, whichever clients give it lines. So no id is submitted twice, whoever gives it.
// promise: one desk
pub fn clients_ask_once<'a, R: Wait + 'a, S: Beginning + 'a, K: Keeper + 'a>()
    ensures { ClientsAskOnce }
{
    a_desk_asks_once::<NodeTeller<'a, R, S, K>>();
}

/// States that no newcomer closes a peer's current connection, the peer's only other one, or the
/// only connection of nobody. If all places are taken there is another one to close.
// promise: inbound connections
pub fn peers_keep_their_places()
    ensures current { CurrentOnesStay }
    ensures another { AnotherOneStays }
    ensures taken { OneStandsWhereAllAreTaken }
{}

/// States that a replayed WANT makes no connection current, and no current connection loses this by
/// it.
// promise: inbound connections
pub fn old_wants_change_little()
    ensures asked { WhatIsAskedStaysAsked }
    ensures made { OldWantsMakeNoneCurrent }
    ensures left { OldWantsLeaveCurrentOnes }
{}

/// States the limits of a node, and how long it waits.
// promise: limits
pub fn limits()
    ensures { AreLimits }
{}
