//! Laws of records. The functions do nothing: their contracts are the laws.

ghost use Rattle.std.specs.Prelude.{◌≡◌};
ghost use Rattle.pay_record.specs.Examples.{ask_bytes, ask_example, frame_example};
ghost use Rattle.pay_record.specs.Examples.{frame_example_bytes, query_bytes, query_example};
ghost use Rattle.pay_record.specs.Records.{record_of};
ghost use Rattle.pay_record.specs.Laws.{LegalHasRoom, LegalIsLoggable, OneList, OneRecord};
ghost use Rattle.pay_record.specs.Laws.{WrittenIsRead};
ghost use Rattle.pay_record.specs.Restarting.{WrittenIsResumed};

use pay_log::laws::one_reading;

/// States that at most one record stands at the front of bytes.
// promise: records
pub fn one_record()
    ensures { OneRecord }
{}

/// States that what was written is read again, whatever follows it.
// promise: records
pub fn written_is_read()
    ensures { WrittenIsRead }
{
    one_record();
}

/// States that a row of records is that of at most one list of entries.
// promise: records
pub fn one_list()
    ensures { OneList }
{}

/// States what a member has that starts again from what a crash left. The member has all
/// acknowledged entries, and then all of those under way or none of them, or a checksum fits by
/// chance.
// promise: starting again
pub fn written_is_resumed()
    ensures { WrittenIsResumed }
{
    one_list();
    one_reading();
}

/// States that the record of each entry of a history that a member can have says everything about
/// it to that member: what is written is read again.
// promise: records
pub fn legal_entries_are_loggable()
    ensures { LegalIsLoggable }
{}

/// States that a record has room for each entry of a history that a member can have.
pub fn legal_entries_have_room()
    ensures { LegalHasRoom }
{}

/// States that a record of each kind has the bytes that were written by hand.
#[tactic(auto, unfolding(crate::specs::Records::record_of))]
pub fn worked_records()
    ensures ask { record_of ask_example ≡ ask_bytes }
    ensures frame { record_of frame_example ≡ frame_example_bytes }
    ensures query { record_of query_example ≡ query_bytes }
{}
