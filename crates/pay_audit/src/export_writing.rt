//! A member's own export, written piece by piece: nothing is allocated for it, however long its
//! lists are.

ghost use Rattle.std.specs.Prelude.{◌≡◌, ◌++◌, [], OnErr, OnOk, decimal, false, ◌<◌, ◌∷◌};
ghost use Rattle.std.specs.Prelude.{slice_index};
ghost use Rattle.std.specs.Bool.{OnFalse, OnTrue};
ghost use Rattle.std.specs.Io.KnownBytes.{Appends};
ghost use Rattle.hex.specs.Hex.{encode_lower};
ghost use Rattle.pay_audit.specs.Columns.{column_of};
ghost use Rattle.pay_audit.specs.Exporting.{export_data, export_of, list_data, lists_data};
ghost use Rattle.pay_audit.specs.Exporting.{numbers_data, value_data};
ghost use Rattle.pay_audit.specs.Gathering.{Adds, PassesOn, state};
ghost use Rattle.pay_frame.specs.Device.{WroteBeginning, next_count};
ghost use Rattle.serde_json.specs.Written.{comma_if, compact_text};

use arrayvec::ArrayVec;
use itoa::Buffer;
use pay_book::Settle;
use pay_channel::Source;
use pay_echo::Instance;
use pay_frame::{DeviceFailed, Output, write_all};
use pay_member::Member;
use pay_member::laws::book_of_events;

// The count of bytes that are gathered for one write.
const ROOM: usize = 4096;

/// The end of a text, which isn't written yet. After its device has failed nothing more is written,
/// and the text's end reports the failure.
#[derive(Drop)]
pub(crate) struct Gathered {
    held: ArrayVec<u8, ROOM>,
    failed: bool,
}

impl Gathered {
    pub(crate) fn new() -> Gathered
        ensures held { result.held.items ≡ [] }
        ensures failed { result.failed ≡ false }
    {
        Gathered {
            held: ArrayVec::new(),
            failed: false,
        }
    }

    /// Adds `bytes` to the text.
    pub(crate) fn add<W: Output>(&mut self, writer: &mut W, bytes: &[u8])
        ensures { Adds (state W.contents W.failure_count self.old writer.old)
            (state W.contents W.failure_count self.new writer.new) bytes.now }
    {
        if self.failed {
            return;
        }
        if self.hold(writer, bytes).is_err() {
            self.failed = true;
        }
    }

    /// Adds `number` in decimal.
    pub(crate) fn add_number<W: Output>(&mut self, writer: &mut W, number: u64)
        ensures { Adds (state W.contents W.failure_count self.old writer.old)
            (state W.contents W.failure_count self.new writer.new) (decimal number) }
    {
        let mut digits = Buffer::new();
        self.add(writer, digits.format(number).as_bytes());
    }

    /// Adds the comma after an item, if `later` says that there is one before.
    pub(crate) fn add_comma<W: Output>(&mut self, writer: &mut W, later: bool)
        ensures { Adds (state W.contents W.failure_count self.old writer.old)
            (state W.contents W.failure_count self.new writer.new) (comma_if later) }
    {
        self.add(writer, if later { b"," } else { b"" });
    }

    /// Writes what is held, at the text's end.
    pub(crate) fn finish<W: Output>(self, writer: &mut W) -> Result<(), DeviceFailed>
        ensures ok { OnOk result (self.failed ≡ false) }
        ensures written { OnOk result
            (Appends (W.contents writer.old) (W.contents writer.new) self.held.items) }
        ensures none_failed { OnOk result
            (W.failure_count writer.new ≡ W.failure_count writer.old) }
        ensures beginning { OnErr result (OnFalse self.failed
            (WroteBeginning (W.contents writer.old) (W.contents writer.new) self.held.items)) }
        ensures failed { OnErr result (OnFalse self.failed
            (W.failure_count writer.new ≡ next_count (W.failure_count writer.old))) }
        ensures before { OnErr result (OnTrue self.failed (writer.new ≡ writer.old)) }
    {
        if self.failed {
            return Err(DeviceFailed);
        }
        write_all(writer, self.held.as_slice())
    }

    /// Holds `bytes`. If there is no room for them, what is held is written first. If they don't
    /// fit even then, they are written too.
    fn hold<W: Output>(&mut self, writer: &mut W, bytes: &[u8]) -> Result<(), DeviceFailed>
        ensures moves { OnOk result (PassesOn (W.contents writer.old) (W.contents writer.new)
            self.old.held.items self.new.held.items bytes.now) }
        ensures none_failed { OnOk result
            (W.failure_count writer.new ≡ W.failure_count writer.old) }
        ensures beginning { OnErr result (WroteBeginning (W.contents writer.old)
            (W.contents writer.new) (self.old.held.items ++ bytes.now)) }
        ensures failed { OnErr result
            (W.failure_count writer.new ≡ next_count (W.failure_count writer.old)) }
        ensures flag { self.new.failed ≡ self.old.failed }
    {
        if self.held.try_extend_from_slice(bytes).is_ok() {
            return Ok(());
        }
        write_all(writer, self.held.as_slice())?;
        self.held.clear();
        if self.held.try_extend_from_slice(bytes).is_ok() {
            return Ok(());
        }
        write_all(writer, bytes)?;
        Ok(())
    }
}

const DIGITS: [u8; 16] = *b"0123456789abcdef";

/// The numbers that an export has for each account.
#[derive(Clone, Copy)]
pub(crate) enum Column {
    Balances,
    Front,
    Opening,
}

/// Writes the text of the own export of `member`, without spaces. After a failure, a prefix of it
/// has been written.
// promise: exports (text, beginning)
pub fn write_export<I: Instance + Drop, B: Settle + Drop, W: Output>(
    member: &Member<I, B>,
    writer: &mut W,
) -> Result<(), DeviceFailed>
    ensures text { OnOk result (Appends (W.contents writer.old) (W.contents writer.new)
        (compact_text (export_data (export_of member.now)))) }
    ensures none_failed { OnOk result (W.failure_count writer.new ≡ W.failure_count writer.old) }
    ensures beginning { OnErr result (WroteBeginning (W.contents writer.old)
        (W.contents writer.new) (compact_text (export_data (export_of member.now)))) }
    ensures failed { OnErr result
        (W.failure_count writer.new ≡ next_count (W.failure_count writer.old)) }
{
    let mut text = Gathered::new();
    add_export(&mut text, writer, member);
    text.finish(writer)
}

fn add_export<I: Instance + Drop, B: Settle + Drop, W: Output>(
    text: &mut Gathered,
    writer: &mut W,
    member: &Member<I, B>,
)
    ensures { Adds (state W.contents W.failure_count text.old writer.old)
        (state W.contents W.failure_count text.new writer.new)
        (compact_text (export_data (export_of member.now))) }
{
    let genesis = member.genesis();
    text.add(writer, b"{\"balances\":");
    add_column(text, writer, member, Column::Balances);
    text.add(writer, b",\"faults\":");
    text.add_number(writer, u64::from(genesis.faults()));
    text.add(writer, b",\"front\":");
    add_column(text, writer, member, Column::Front);
    text.add(writer, b",\"lists\":");
    add_lists(text, writer, member);
    text.add(writer, b",\"member\":");
    text.add_number(writer, u64::from(member.keys().own()));
    text.add(writer, b",\"members\":");
    text.add_number(writer, u64::from(genesis.members()));
    text.add(writer, b",\"opening\":");
    add_column(text, writer, member, Column::Opening);
    text.add(writer, b"}");
}

fn add_column<I: Instance + Drop, B: Settle + Drop, W: Output>(
    text: &mut Gathered,
    writer: &mut W,
    member: &Member<I, B>,
    column: Column,
)
    ensures { Adds (state W.contents W.failure_count text.old writer.old)
        (state W.contents W.failure_count text.new writer.new)
        (compact_text (numbers_data (column_of (export_of member.now) column))) }
{
    book_of_events();
    text.add(writer, b"[");
    for account in 0..member.genesis().members() {
        text.add_comma(writer, account > 0);
        text.add_number(writer, number_at(member, column, account));
    }
    text.add(writer, b"]");
}

/// Returns the number of `account` in `column`, as `member` has it.
fn number_at<I: Instance + Drop, B: Settle + Drop>(
    member: &Member<I, B>,
    column: Column,
    account: u16,
) -> u64
    requires { account < member.now.genesis.members }
    ensures { result ≡ slice_index (column_of (export_of member.now) column) account }
{
    match column {
        Column::Balances => member.balance(account),
        Column::Front => u64::from(member.front(account)),
        Column::Opening => member.genesis().opening(account),
    }
}

fn add_lists<I: Instance + Drop, B: Settle + Drop, W: Output>(
    text: &mut Gathered,
    writer: &mut W,
    member: &Member<I, B>,
)
    ensures { Adds (state W.contents W.failure_count text.old writer.old)
        (state W.contents W.failure_count text.new writer.new)
        (compact_text (lists_data (export_of member.now).lists)) }
{
    text.add(writer, b"[");
    for owner in 0..member.genesis().members() {
        text.add_comma(writer, owner > 0);
        add_list(text, writer, member, owner);
    }
    text.add(writer, b"]");
}

fn add_list<S: Source, W: Output>(text: &mut Gathered, writer: &mut W, source: &S, owner: u16)
    ensures { Adds (state W.contents W.failure_count text.old writer.old)
        (state W.contents W.failure_count text.new writer.new)
        (compact_text (list_data (S.lists source.now owner))) }
{
    text.add(writer, b"[");
    for place in 0..source.length(owner) {
        text.add_comma(writer, place > 0);
        add_value(text, writer, source.at(owner, place));
    }
    text.add(writer, b"]");
}

fn add_value<W: Output>(text: &mut Gathered, writer: &mut W, value: &[u8])
    ensures { Adds (state W.contents W.failure_count text.old writer.old)
        (state W.contents W.failure_count text.new writer.new)
        (compact_text (value_data value.now)) }
{
    text.add(writer, b"\"");
    for byte in value {
        text.add(writer, &digits_of(*byte));
    }
    text.add(writer, b"\"");
}

/// Returns `byte` as two digits.
fn digits_of(byte: u8) -> [u8; 2]
    ensures { result ≡ encode_lower (byte ∷ []) }
{
    [
        DIGITS[usize::from(byte / 16)],
        DIGITS[usize::from(byte % 16)],
    ]
}
