//! Laws of scripts. Each function's contract is the law; its body only names the laws that the
//! proof needs.

ghost use Rattle.pay_sim.specs.RunLaws.{AllIsTaken, EachRuns, FirstLineIsGroup, OneRun};

use pay_channel::laws::{nothing_at_first, one_event_more};
use pay_echo::laws::one_vote_more;
use pay_frame::{one_answer, one_frame_is};
use pay_link::laws::{genesis_limits, numbers_in_turn, sealed_opens, shared_test_keys};
use pay_member::laws::what_opens;
use pay_world::laws::forged_is_told;
use pay_world::liar_causes;

/// States that a script prints at most one text, and ends in one way.
// promise: scripts
pub fn one_run()
    ensures { OneRun }
{
    one_answer();
}

/// States that each script has a text and an ending, whatever its bytes are.
// promise: scripts
pub fn each_runs()
    ensures { EachRuns }
{
    nothing_at_first();
    one_event_more();
    one_vote_more();
    one_answer();
    one_frame_is();
    sealed_opens();
    shared_test_keys();
    numbers_in_turn();
    what_opens();
    forged_is_told();
    first_line_is_group();
}

/// States that the group of a script's first line is within the limits of a group.
// promise: scripts
pub fn first_line_is_group()
    ensures { FirstLineIsGroup }
{
    genesis_limits();
    liar_causes();
}

/// States that the receiver accepts each frame that `all` delivers, so that the printed count is
/// one of accepted frames. No frame that it delivers is forged, so only the limit of events stops
/// it.
// promise: scripts
pub fn all_is_taken()
    ensures { AllIsTaken }
{
    nothing_at_first();
    one_event_more();
    one_vote_more();
    one_answer();
    one_frame_is();
    sealed_opens();
    shared_test_keys();
    numbers_in_turn();
    what_opens();
    forged_is_told();
}
