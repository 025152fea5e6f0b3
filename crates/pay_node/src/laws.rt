//! Laws of the definitions. The functions do nothing: their contracts are the laws.

ghost use Rattle.pay_node.specs.Seats.{HandingInStaysRight, KeptCountsAsLeft};

/// States that a receipt of now that is kept counts as another receipt of the reading. A seat that
/// is right is still right with that receipt once more.
// promise: receipts
pub fn kept_counts_as_left()
    ensures { KeptCountsAsLeft }
{}

/// States that what was right stays right when an event is handed in.
// promise: receipts
pub fn handing_in_stays_right()
    ensures { HandingInStaysRight }
{}
