//! Members of four, of whom the last lies: what comes of the frames that reach one, what it exports
//! then, and what its history is replayed to. Frames and exports are those of a slow model in
//! Python.

use pay_audit::{Export, ReplayFault, Verdict, audit, export, read_export, replay};
use pay_book::PlainBook;
use pay_echo::MaskInstance;
use pay_frame::{Bytes, FrameFault, Kind};
use pay_hmac::HmacSha256;
use pay_link::{Genesis, LinkFault, test_keys};
use pay_member::{
    AskFault, Brought, HistoryEntry, Lie, Member, Outcome, PaymentState, Reply, Took,
};
use std::alloc::{AllocError, Global};
use std::process::Abort;
use std::test::Fail;

type Tried = Member<MaskInstance, PlainBook>;

/// A step that is done to a member, or looked at, with what comes of it. Bytes are in hexadecimal.
enum Step {
    /// This value is submitted, and gets this number.
    Ask(&'static str, u32),
    /// These bytes are delivered, and the answer has this WANT, or none if it is empty.
    Bring(&'static str, Outcome, &'static str),
    /// These bytes are delivered and accepted, and this follows.
    Take(&'static str, Took),
    /// How far the first value of account 0 has come, and how many entries of that account are
    /// settled.
    Show(PaymentState, u32),
    /// The last protocol violation of a member.
    Lied(u16, Option<Lie>),
}

/// The steps of a new member, and what it exports after them.
struct Row {
    name: &'static str,
    own: u16,
    steps: &'static [Step],
    export: &'static str,
}

const NOTHING: Took = Took {
    echo: false,
    ready: false,
    deliver: false,
    settled: 0,
};

const ECHO: Took = Took {
    echo: true,
    ..NOTHING
};

const READY: Took = Took {
    ready: true,
    ..NOTHING
};

const SETTLED_2: Took = Took {
    deliver: true,
    settled: 2,
    ..NOTHING
};

const READY_AND_DELIVERED: Took = Took {
    deliver: true,
    ..READY
};

const READY_AND_SETTLED_2: Took = Took {
    settled: 2,
    ..READY_AND_DELIVERED
};

/// A SEND about number 0 of account 3, by another.
const FOREIGN: Lie = Lie {
    kind: Kind::Send,
    owner: 3,
    seq: 0,
};

/// Member 0 sends member 1 its first frame, thirty to account 1.
pub(crate) const SENT: &str =
    "00410101000000010000000000000000000000000000000b010001000000000000001e9888b9a5c22950ec29a47418b007b031883ea7bb3dd6a937b2ca073fb102952a";

/// Member 1 asks member 0 for its frame 1.
const NEXT: &str =
    "003601040001000000000000000000010000000000000000abc08308999c120482dbcf8386bff193850732924e3bacd9ac0a94968a840db3";

/// What is delivered to one member: payments, some of which wait, and values in another order.
const ROWS: &[Row] = &[
    Row {
        name: "brought bytes",
        own: 1,
        steps: &[
            Step::Bring("", Outcome::Frame(FrameFault::Truncated), ""),
            Step::Bring(
                "0036010100000001000000000000000000000000000000000000000000000000000000000000000000000000000000000000000000000000",
                Outcome::Link(LinkFault::BadTag),
                "",
            ),
            Step::Bring(
                "0036010100010001000000000000000000000000000000000000000000000000000000000000000000000000000000000000000000000000",
                Outcome::Link(LinkFault::UnknownSender),
                "",
            ),
            Step::Bring(
                "0036010100000001000000000000000000040000000000000000000000000000000000000000000000000000000000000000000000000000",
                Outcome::Link(LinkFault::UnknownOwner),
                "",
            ),
            Step::Bring(SENT, Outcome::Took(ECHO), NEXT),
            Step::Bring(SENT, Outcome::Link(LinkFault::Repeat(1)), NEXT),
            Step::Bring(
                "00410103000000010000000000000002000000000000000b010001000000000000001e576e418ca6107839d6962e563ac370e8cab15a855191d307cabe51a226daa645",
                Outcome::Link(LinkFault::Gap(1)),
                NEXT,
            ),
            Step::Bring(
                "00410102000000020000000000000001000000000000000b010001000000000000001e3307818b049d40a8a1b0dbedd7c124a766e80519cd0dd30088f2c2832f6f61ed",
                Outcome::Link(LinkFault::NotForMe),
                "",
            ),
            Step::Bring(
                "003601040000000100000000000000070000000000000000578fc38a412f4ab6ccb33ab4c477b49e380906d5fbf8bc23134812a6eca52720",
                Outcome::Wanted { from: 0, number: 7 },
                "",
            ),
        ],
        export: r#"{"balances":[100,0,0,50],"faults":1,"front":[0,0,0,0],"lists":[[],[],[],[]],"member":1,"members":4,"opening":[100,0,0,50]}"#,
    },
    Row {
        name: "four payments in one, their payer",
        own: 0,
        steps: &[
            Step::Ask(
                "02040001000000000000001e000200000000000000320001000000000000002800020000000000000014",
                0,
            ),
            Step::Show(PaymentState::Asked, 0),
            Step::Take(
                "00600102000100000000000000000000000000000000002a02040001000000000000001e0002000000000000003200010000000000000028000200000000000000147351e9fada35d695838c534898e32f56450ff88847d3f586fbbf00cb768dd6e4",
                NOTHING,
            ),
            Step::Take(
                "00600102000200000000000000000000000000000000002a02040001000000000000001e000200000000000000320001000000000000002800020000000000000014810a7b6535a70fb31e6acc933282e2ecd89e08494308b03158a80d458ec14151",
                READY,
            ),
            Step::Take(
                "00600103000200000000000000000001000000000000002a02040001000000000000001e000200000000000000320001000000000000002800020000000000000014c54f32878e72a0ba14b091c8dce882f028fcf2d18d79ee279deb53345298afa4",
                NOTHING,
            ),
            Step::Take(
                "00600103000100000000000000000001000000000000002a02040001000000000000001e0002000000000000003200010000000000000028000200000000000000146d95bbb4f703509ab3a1e7c0ed5356e4f7092bcabde0797c2722f675f2e96581",
                SETTLED_2,
            ),
            Step::Show(PaymentState::Waiting, 2),
            Step::Take(
                "00410101000100000000000000000002000100000000000b010000000000000000001e90ce186c87bb25e515116b1d2aa08fe9cb543cedba0097328bb06dd265efff72",
                ECHO,
            ),
            Step::Take(
                "00410102000100000000000000000003000100000000000b010000000000000000001e3129373455ac72722b089e27698ce02364172aedb50cfcccece3e0384842c1c9",
                NOTHING,
            ),
            Step::Take(
                "00410102000200000000000000000002000100000000000b010000000000000000001e32429354499497e19c44fe6a2699d9988cf197c2e84bf03fbba4e76cbc6b57e5",
                READY,
            ),
            Step::Take(
                "00410103000200000000000000000003000100000000000b010000000000000000001e9d451546d26f3e6e6204f66ae7ab657fc2116b4388a49ca9ee7c56c0c8f143bf",
                NOTHING,
            ),
            Step::Take(
                "00410103000100000000000000000004000100000000000b010000000000000000001e58ebfb2a188ebaf33bd77bf19745049e3a35eee9df28a2502927c52c3c3f74d1",
                SETTLED_2,
            ),
            Step::Show(PaymentState::Waiting, 3),
        ],
        export: r#"{"balances":[10,40,50,50],"faults":1,"front":[3,1,0,0],"lists":[["02040001000000000000001e000200000000000000320001000000000000002800020000000000000014"],["010000000000000000001e"],[],[]],"member":0,"members":4,"opening":[100,0,0,50]}"#,
    },
    // READYs of two about number 1 of account 3, then about its number 0, and a SEND of another
    // than its owner
    Row {
        name: "a number before the one that the list waits for",
        own: 0,
        steps: &[
            Step::Take(
                "00370103000100000000000000000000000300000001000158b9053514a6ad1cb35112cdac6bf7b8388eea6897ac725b621df822f0c381ca72",
                NOTHING,
            ),
            Step::Take(
                "003701030002000000000000000000000003000000010001581fbf0cd1fa5537b2a6040bf0bd943b77788d58887337df30b5097a51801390ba",
                READY_AND_DELIVERED,
            ),
            Step::Take(
                "0037010300010000000000000000000100030000000000015932f91cc09c111c8fbeb77b4e0d5f5ac7136367a011d35f0c717272835e715dfe",
                NOTHING,
            ),
            Step::Take(
                "003701030002000000000000000000010003000000000001592f32e57f05b2d45c72eb3f785f6db3374fa222cee48cbc70faef94bc92b9d7a9",
                READY_AND_SETTLED_2,
            ),
            Step::Lied(1, None),
            Step::Take(
                "003701010001000000000000000000020003000000000001590898928d3ba9b8e8590ed402597256593dae374cf144a37e9e12e84657d48acb",
                NOTHING,
            ),
            Step::Lied(1, Some(FOREIGN)),
            Step::Lied(2, None),
            Step::Ask("41", 0),
            Step::Show(PaymentState::Asked, 0),
        ],
        export: r#"{"balances":[100,0,0,50],"faults":1,"front":[0,0,0,2],"lists":[[],[],[],["59","58"]],"member":0,"members":4,"opening":[100,0,0,50]}"#,
    },
];

fn fresh(alloc: Global, own: u16) -> Result<Tried, Fail> {
    let genesis = Genesis::new(alloc, 4, 1, &[100, 0, 0, 50])?;
    if own >= genesis.members() {
        return Err(Fail::new("no such member"));
    }
    let keys = test_keys(alloc, &genesis, own)?;
    Ok(Member::new(alloc, genesis, keys)?)
}

/// Submits `value`, and then `again` if memory runs out. Returns the number of the value.
fn try_ask(alloc: Global, member: &mut Tried, value: Bytes, again: Bytes) -> Result<u32, AskFault> {
    match member.ask(alloc, 0, value) {
        Err(AskFault::Memory) => member.ask(alloc, 0, again),
        first => first,
    }
}

/// Submits `value`, which is in hexadecimal, and returns its number.
fn asked_for(alloc: Global, member: &mut Tried, value: &str) -> Result<u32, Fail> {
    let again = Bytes::new(alloc, hex::decode(alloc, value)?)?;
    let value = Bytes::new(alloc, hex::decode(alloc, value)?)?;
    Ok(try_ask(alloc, member, value, again)?)
}

/// Delivers `bytes` to `member`, a second time if memory runs out, and returns the outcome.
fn try_take(alloc: Global, member: &mut Tried, bytes: &[u8]) -> Result<Brought, AllocError> {
    match member.bring(alloc, 0, &HmacSha256, bytes) {
        Ok(brought) => Ok(brought),
        Err(_) => member.bring(alloc, 0, &HmacSha256, bytes),
    }
}

/// Delivers `bytes`, which are in hexadecimal, to `member`, and returns the outcome.
fn try_bring(alloc: Global, member: &mut Tried, bytes: &str) -> Result<Brought, Fail> {
    let bytes = hex::decode(alloc, bytes)?;
    Ok(try_take(alloc, member, bytes.as_slice())?)
}

/// Returns whether an answer has the WANT `want`, or has none if `want` is empty.
fn is_wanted(alloc: Global, brought: &Brought, want: &str) -> Result<bool, Fail> {
    let want = hex::decode(alloc, want)?;
    Ok(match &brought.want {
        Some(bytes) => bytes.as_slice() == want.as_slice(),
        None => want.is_empty(),
    })
}

impl Step {
    /// Takes the step, and returns whether what it says came of it.
    fn is_met(&self, alloc: Global, member: &mut Tried) -> Result<bool, Fail> {
        match self {
            Step::Ask(value, seq) => Ok(asked_for(alloc, member, value)? == *seq),
            Step::Bring(bytes, outcome, want) => {
                let brought = try_bring(alloc, member, bytes)?;
                Ok(brought.outcome == *outcome && is_wanted(alloc, &brought, want)?)
            }
            Step::Take(bytes, took) => {
                Ok(try_bring(alloc, member, bytes)?.outcome == Outcome::Took(*took))
            }
            Step::Show(state, front) => Ok(
                member.genesis().members() > 0
                    && member.state(0, 0) == *state
                    && member.front(0) == *front,
            ),
            Step::Lied(peer, lie) => Ok(
                *peer < member.genesis().members() && member.view().lie(*peer) == *lie,
            ),
        }
    }
}

/// Returns the text of the export of `member`. It is made a second time if memory runs out.
fn text_of(alloc: Global, member: &Tried) -> Result<String, ReplayFault> {
    match try_text(alloc, member) {
        Ok(text) => Ok(text),
        Err(_) => Ok(try_text(alloc, member)?),
    }
}

fn try_text(alloc: Global, member: &Tried) -> Result<String, AllocError> {
    let text = export(alloc, member)?.to_string(alloc)?;
    Ok(text)
}

/// Returns the member that `history` is replayed to, with the genesis and the keys of `member`. It
/// is replayed a second time if memory runs out.
fn try_replay(
    alloc: Global,
    member: &Tried,
    history: &[HistoryEntry],
) -> Result<Tried, ReplayFault> {
    match replay(alloc, member.genesis(), member.keys(), history) {
        Err(ReplayFault::Memory) => replay(alloc, member.genesis(), member.keys(), history),
        first => first,
    }
}

/// Returns the text of the export of the member that `history` is replayed to.
fn replayed_text(
    alloc: Global,
    member: &Tried,
    history: &[HistoryEntry],
) -> Result<String, ReplayFault> {
    match try_replay(alloc, member, history) {
        Ok(again) => text_of(alloc, &again),
        Err(fault) => Err(fault),
    }
}

/// Returns `reply` with another answer about what followed, if it has such an answer.
fn another(reply: Reply) -> Reply {
    match reply {
        Reply::Took(took) => Reply::Took(Took {
            echo: !took.echo,
            ..took
        }),
        Reply::Asked(_) => Reply::Asked(7),
        reply => reply,
    }
}

/// Copies a history, with another reply to its first entry.
fn copy_changed(
    alloc: Global,
    history: &[HistoryEntry],
    changed: &mut Vec<HistoryEntry>,
) -> Result<(), AllocError> {
    for (place, entry) in history.iter().enumerate() {
        let reply = if place == 0 {
            another(entry.reply)
        } else {
            entry.reply
        };
        changed.push(HistoryEntry {
            stamp: entry.stamp,
            event: entry.event.copy(alloc)?,
            reply,
        })?;
    }
    Ok(())
}

/// Returns why the history of `member` isn't replayed after one reply was changed, if it isn't.
fn fault_of_changed(alloc: Global, member: &Tried) -> Result<Option<ReplayFault>, AllocError> {
    let mut changed = Vec::new(alloc);
    copy_changed(alloc, member.history(), &mut changed)?;
    Ok(replayed_text(alloc, member, changed.as_slice()).err())
}

fn is_spelled(text: String, wanted: &str) -> bool {
    text.as_str() == wanted
}

/// Returns whether the export of `member` is that of `row`, and whether its history is replayed to
/// a member with that export. The third answer says whether a history with another reply is
/// refused.
fn exports(alloc: Global, row: &Row, member: &Tried) -> Result<[bool; 3], ReplayFault> {
    Ok([
        is_spelled(text_of(alloc, member)?, row.export),
        is_spelled(replayed_text(alloc, member, member.history())?, row.export),
        fault_of_changed(alloc, member)? == Some(ReplayFault::Illegal(0)),
    ])
}

fn take_steps(rt: &(impl Abort + AllocGlobal), row: &Row, member: &mut Tried) -> Result<(), Fail> {
    for (place, step) in row.steps.iter().enumerate() {
        let (name, is_met) = (row.name, step.is_met(rt.alloc(), member)?);
        assert!(rt; is_met, "{name}, step {place}");
    }
    Ok(())
}

fn played_by(
    rt: &(impl Abort + AllocGlobal),
    row: &Row,
    member: &mut Tried,
) -> Result<Export, Fail> {
    take_steps(rt, row, member)?;
    let (alloc, name) = (rt.alloc(), row.name);
    assert_eq!(rt; exports(alloc, row, member)?, [true; 3], "{name}");
    Ok(read_export(alloc, row.export.as_bytes())?)
}

fn play_row(rt: &(impl Abort + AllocGlobal), row: &Row) -> Result<Export, Fail> {
    let mut member = fresh(rt.alloc(), row.own)?;
    played_by(rt, row, &mut member)
}

// Plays each row, and puts its export on a list.
fn play_each(
    rt: &(impl Abort + AllocGlobal),
    rows: &[Row],
    exports: &mut Vec<Export>,
) -> Result<(), Fail> {
    for row in rows {
        exports.push(play_row(rt, row)?)?;
    }
    Ok(())
}

fn verdict_of(rt: &(impl Abort + AllocGlobal), rows: &[Row]) -> Result<Verdict, Fail> {
    let mut exports = Vec::new(rt.alloc());
    play_each(rt, rows, &mut exports)?;
    Ok(audit(rt.alloc(), exports.as_slice())?)
}

#[test]
fn members_answer_and_export(rt: HostRuntime) -> Result<(), Fail> {
    let is_clean = verdict_of(&rt, ROWS)? == Verdict::Clean;
    assert!(rt; is_clean);
    Ok(())
}
