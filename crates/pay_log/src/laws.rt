//! Laws of the definitions. The functions do nothing: their contracts are the laws.

ghost use Rattle.pay_log.specs.Laws.{AcknowledgedAreRead, OneReading, ReadAgain};

/// States that a file is the log of at most one list of payloads, and that what was written is read
/// again.
// promise: reading a log
pub fn one_reading()
    ensures one { OneReading }
    ensures again { ReadAgain }
{}

/// States what is read of a file that a crash left during one append. It begins with all
/// acknowledged payloads, and is a prefix of all payloads written.
// promise: reading a log
pub fn acknowledged_are_read()
    ensures { AcknowledgedAreRead }
{}
