//! Laws of authenticated double-echo broadcast over its definitions, and worked examples of them.
//! The functions do nothing: their contracts are the laws.

ghost use Rattle.std.specs.Prelude.{[], ◌∷◌, ◌++◌};
ghost use Rattle.pay_echo.specs.Broadcast.{Send, Echo, Ready};
ghost use Rattle.pay_echo.specs.Examples.{Knows, four, alone, A, B, two_echoes, three_echoes};
ghost use Rattle.pay_echo.specs.Examples.{one_ready, two_readys, echoes_of_others, readys_of_two};
ghost use Rattle.pay_echo.specs.Laws.{NotEchoedAtFirst, NotReadyAtFirst, NotDeliveredAtFirst};
ghost use Rattle.pay_echo.specs.Laws.{SentIsItsValue, EchoedByOneMore, ReadiedByOneMore};
ghost use Rattle.pay_echo.specs.Laws.{DeliveredByOneMore, ForeseenBecame, EchoedStays};
ghost use Rattle.pay_echo.specs.Laws.{ReadiedStays, DeliveredStays, EchoStays, ReadyStays};
ghost use Rattle.pay_echo.specs.Laws.{OtherReadyStays, EchoSetGrows, ReadySetGrows};
ghost use Rattle.pay_echo.specs.Laws.{OtherReadySetGrows, SecondSend, SecondEcho, SecondReady};
ghost use Rattle.pay_echo.specs.Laws.{InEchoSet, InReadySet, InOtherReadySet, OwnEcho, OwnReady};
ghost use Rattle.pay_echo.specs.Laws.{SendCame, EchoCame, ReadyCame, SendIsEchoed, EchoCounts};
ghost use Rattle.pay_echo.specs.Laws.{ReadyCounts, VotedIsTaken, WhyReady, WhyDelivered};
ghost use Rattle.pay_echo.specs.Laws.{QuorumMakesReady, AmplificationMakesReady, ReadysDeliver};
ghost use Rattle.pay_echo.specs.Laws.{OneValueByQuorum};
ghost use Rattle.pay_echo.specs.Quorums.{SizeIsAtMost, SizeOfListed, SizeOfOthers, PartIsSmaller};
ghost use Rattle.pay_echo.specs.Quorums.{QuorumsShare, LargerHasAnother, RestIsQuorum};
ghost use Rattle.pay_echo.specs.Quorums.{QuorumIsMore, MoreRemain};

/// States that before any vote nothing is echoed, readied or delivered.
pub fn nothing_known_at_first()
    ensures echoed { NotEchoedAtFirst }
    ensures readied { NotReadyAtFirst }
    ensures delivered { NotDeliveredAtFirst }
{}

/// States what is known after one more vote: what was known before, and otherwise what this vote
/// makes known. READY and delivery come by the vote that makes its value's set of processes large
/// enough.
pub fn one_vote_more()
    ensures echoed { EchoedByOneMore }
    ensures readied { ReadiedByOneMore }
    ensures delivered { DeliveredByOneMore }
    ensures sent { SentIsItsValue }
{}

/// States that what was foreseen of a vote is what became known by it.
// promise: votes
pub fn foreseen_became()
    ensures { ForeseenBecame }
{}

/// States that what was echoed, readied or delivered stays so, with its value, whatever follows.
// promise: votes
pub fn known_stays()
    ensures echoed { EchoedStays }
    ensures readied { ReadiedStays }
    ensures delivered { DeliveredStays }
{}

/// States that a process's ECHO or READY never changes after it came, and so the sets of processes
/// only grow.
// promise: votes
pub fn nobody_leaves()
    ensures echo { EchoStays }
    ensures ready { ReadyStays }
    ensures other_ready { OtherReadyStays }
    ensures echo_set { EchoSetGrows }
    ensures ready_set { ReadySetGrows }
    ensures other_ready_set { OtherReadySetGrows }
{}

/// States that a second SEND, and a second ECHO or READY of a process, changes nothing.
// promise: votes
pub fn second_vote_changes_nothing()
    ensures send { SecondSend }
    ensures echo { SecondEcho }
    ensures ready { SecondReady }
{}

/// States which processes are in the sets: those that sent ECHO, or READY, for this value. The
/// process itself belongs to the sets of what it echoed and readied.
pub fn members_of_sets()
    ensures echo_set { InEchoSet }
    ensures ready_set { InReadySet }
    ensures other_ready_set { InOtherReadySet }
    ensures own_echo { OwnEcho }
    ensures own_ready { OwnReady }
{}

/// States that a vote which counts for another process came from it. If a vote of a process came, a
/// vote of that kind counts.
pub fn votes_came()
    ensures send { SendCame }
    ensures echo { EchoCame }
    ensures ready { ReadyCame }
    ensures echoed { SendIsEchoed }
    ensures echo_counts { EchoCounts }
    ensures ready_counts { ReadyCounts }
    ensures voted { VotedIsTaken }
{}

/// States why a process is READY and why it delivers. It is READY for a value only with a quorum of
/// ECHOs or more than f READYs of others for it. It delivers only with more than 2f READYs. If
/// these conditions hold, it is READY and delivers.
// promise: votes
pub fn why_known()
    ensures ready { WhyReady }
    ensures delivered { WhyDelivered }
    ensures quorum { QuorumMakesReady }
    ensures amplification { AmplificationMakesReady }
    ensures readys { ReadysDeliver }
{}

/// States that no two values have a quorum of the ECHOs that a process received.
// promise: votes
pub fn one_value_by_quorum()
    ensures { OneValueByQuorum }
{}

/// States the sizes of sets of processes. A set has at most all processes, and the processes of a
/// list are at most its length. Those outside a set are the rest, and a part of a set is no larger
/// than the set.
pub fn sizes_of_sets()
    ensures most { SizeIsAtMost }
    ensures listed { SizeOfListed }
    ensures others { SizeOfOthers }
    ensures part { PartIsSmaller }
{}

/// States that two quorums share more than f processes, and so a process that isn't faulty. If a
/// set is larger than another, it has a process that the other lacks.
pub fn quorums_share()
    ensures share { QuorumsShare }
    ensures another { LargerHasAnother }
{}

/// States that all but f processes are a quorum if N > 3f. A quorum has more than f processes. If
/// any f processes are removed from more than 2f, more than f remain.
pub fn quorums_can_form()
    ensures rest { RestIsQuorum }
    ensures more { QuorumIsMore }
    ensures remain { MoreRemain }
{}

/// States that three of four ECHOs of a value make READY, and three READYs, including the process's
/// own, deliver. Second votes and votes for another value don't count.
pub fn echo_quorum_of_three()
    ensures first { Knows four (Send A ∷ []) (Some A) None None }
    ensures fourth { Knows four two_echoes (Some A) None None }
    ensures fifth { Knows four three_echoes (Some A) (Some A) None }
    ensures seventh { Knows four one_ready (Some A) (Some A) None }
    ensures eighth { Knows four two_readys (Some A) (Some A) (Some A) }
    ensures ninth { Knows four (two_readys ++ Ready 3 B ∷ []) (Some A) (Some A) (Some A) }
{}

/// States that two READYs of others make READY before any ECHO, and that this READY, the third,
/// delivers. The rule for ECHO holds even afterwards.
pub fn amplified_first()
    ensures first { Knows four (Ready 1 A ∷ []) None None None }
    ensures second { Knows four (Ready 1 A ∷ Ready 2 A ∷ []) None (Some A) (Some A) }
    ensures third { Knows four (Ready 1 A ∷ Ready 2 A ∷ Send B ∷ []) (Some B) (Some A) (Some A) }
{}

/// States that a group of one process delivers what it broadcasts at once.
pub fn one_process()
    ensures { Knows alone (Send A ∷ []) (Some A) (Some A) (Some A) }
{}

/// States that a quorum of others' ECHOs makes READY before the SEND came.
pub fn quorum_before_send()
    ensures second { Knows four (Echo 1 A ∷ Echo 2 A ∷ []) None None None }
    ensures third { Knows four echoes_of_others None (Some A) None }
    ensures fourth { Knows four (echoes_of_others ++ Send B ∷ []) (Some B) (Some A) None }
{}

/// States that a second READY of a process doesn't count for its value, while the first counts for
/// its own value.
pub fn second_ready()
    ensures third { Knows four readys_of_two None None None }
    ensures fourth { Knows four (readys_of_two ++ Ready 3 A ∷ []) None (Some A) (Some A) }
    ensures fifth { Knows four (readys_of_two ++ Ready 3 A ∷ Ready 2 B ∷ [])
        None (Some A) (Some A) }
{}
