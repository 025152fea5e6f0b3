//! Laws of a desk's refusals, of notes, and of a desk over all lines. Each function's contract is
//! the law, and its body does nothing.

ghost use Rattle.pay_desk.specs.Laws.{AccountCause, KeptAnswersItsNote, KeptAnswersItsOwn};
ghost use Rattle.pay_desk.specs.Laws.{LineAsksOnce, LinesAskOnce, LinesKeepAll};
ghost use Rattle.pay_desk.specs.Laws.{PayeeCause, PaymentCause};

use crate::teller::Teller;
use pay_book::what_was_encoded;

/// States that each refusal before the teller is called comes exactly if its own cause holds and no
/// earlier one.
// promise: desk lines
pub fn refusals_before_the_teller()
    ensures account { AccountCause }
    ensures payee { PayeeCause }
    ensures payment { PaymentCause }
{}

/// States that different payments have different values, and so do different notes. No note has the
/// value of payments. So a kept id gets its answer only for what was submitted under it.
// promise: asked once
pub fn a_kept_id_answers_its_own()
    ensures payments { KeptAnswersItsOwn }
    ensures notes { KeptAnswersItsNote }
{
    what_was_encoded();
}

/// States what a desk submits, for one line and for any lines one after the other. Its teller
/// broadcasts just the values that the desk keeps since then, in their order, each under an id that
/// was free before. So no id is submitted twice. This holds even for a desk that begins with what
/// earlier desks kept, as long as the member is the same.
// promise: asked once; ids (life)
pub fn a_desk_asks_once<T: Teller>()
    ensures line { LineAsksOnce T.says T.asked }
    ensures lines { LinesAskOnce T.says T.asked }
    ensures life { LinesKeepAll T.says T.asked }
{}
