//! Laws of a log that follows a history. The functions do nothing: their contracts are the laws.

ghost use Rattle.std.specs.Prelude.{[], ℕ, List, length};
ghost use Rattle.pay_durable.specs.Following.{IsFollowingSome};
ghost use Rattle.pay_link.specs.Keys.{KeyFields};
ghost use Rattle.pay_record.specs.Resuming.{IsResumed, ResumedFields};

use pay_log::{Device, Log};

/// States that `log`, if a start read it and wrote it again, has just the entries of the member's
/// history, and nothing waits: [`Kept`](crate::Kept) can follow the history in it.
// promise: nothing is lost
pub fn resumed_log_follows<D: Device>(log: &Log<D>)
    ensures { (k : KeyFields) (header file : List ℕ) (r : ResumedFields)
        → IsResumed
        (record { is_known = D.is_known; seen = D.seen; may_leave = D.may_leave })
        k header file r log.now
        → IsFollowingSome D.is_known D.seen D.may_leave log.now [] (length r.member.history) }
{}
