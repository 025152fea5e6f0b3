//! Lists of events that are run in one go.

ghost use Rattle.pay_world.specs.Liars.{AreLiarsOf};
ghost use Rattle.pay_world.specs.World.{AreKeysOf};

use crate::members::SENT;
use pay_book::PlainBook;
use pay_echo::PlainInstance;
use pay_frame::Bytes;
use pay_hmac::HmacSha256;
use pay_link::{Genesis, Keys};
use pay_world::{Liars, World, WorldEvent, WorldFault, all_taken, group_test_keys, run_world};
use std::alloc::Global;
use std::test::Fail;

/// What happens to a member.
enum Action {
    /// It is asked to pay 30 to account 1.
    Ask(u16),
    /// These bytes, in hexadecimal, are brought to it.
    Bring(u16, &'static str),
}

/// The first frame of that payment with another value.
const FORGED: &str =
    "00410101000000010000000000000000000000000000000b01000100000000000000058643996fc18999da55019d655c08f11781f283d872b6c6fd90bd23d2ce561cdd";

/// How many may lie, the opening balances, and who lies.
type Group = (u64, &'static [u64], &'static [u16]);

const FOUR: Group = (1, &[100, 0, 0, 50], &[3]);

const ALONE: Group = (0, &[7], &[]);

/// The balance of account 0 at member 0, and whether each took all that the others sent.
type Shown = (u64, bool);

/// Events, and what comes of them.
struct Row {
    group: Group,
    actions: &'static [Action],
    shown: Result<Shown, WorldFault>,
}

const ROWS: &[Row] = &[
    Row {
        group: FOUR,
        actions: &[],
        shown: Ok((100, true)),
    },
    Row {
        group: FOUR,
        actions: &[Action::Ask(0)],
        shown: Ok((100, false)),
    },
    Row {
        group: FOUR,
        actions: &[
            Action::Ask(0),
            Action::Bring(1, SENT),
            Action::Bring(1, "05"),
        ],
        shown: Ok((100, false)),
    },
    Row {
        group: FOUR,
        actions: &[
            Action::Ask(0),
            Action::Bring(1, SENT),
            Action::Bring(1, FORGED),
            Action::Bring(1, FORGED),
        ],
        shown: Err(WorldFault::Forged(2)),
    },
    Row {
        group: ALONE,
        actions: &[],
        shown: Ok((7, true)),
    },
    // its payment is void: there is no account 1
    Row {
        group: ALONE,
        actions: &[Action::Ask(0)],
        shown: Ok((7, true)),
    },
];

fn event_of(alloc: Global, action: &Action) -> Result<WorldEvent, Fail> {
    Ok(match action {
        Action::Ask(member) => WorldEvent::Ask(*member, bytes_of(alloc, "010001000000000000001e")?),
        Action::Bring(member, text) => WorldEvent::Bring(*member, bytes_of(alloc, text)?),
    })
}

fn bytes_of(alloc: Global, text: &str) -> Result<Bytes, Fail> {
    Ok(Bytes::new(alloc, hex::decode(alloc, text)?)?)
}

// Puts a row's events on a list.
fn list_events(alloc: Global, row: &Row, events: &mut Vec<WorldEvent>) -> Result<(), Fail> {
    for action in row.actions {
        events.push(event_of(alloc, action)?)?;
    }
    Ok(())
}

fn events_of(alloc: Global, row: &Row) -> Result<Vec<WorldEvent>, Fail> {
    let mut events = Vec::new(alloc);
    list_events(alloc, row, &mut events)?;
    Ok(events)
}

fn show_world(world: &World<PlainInstance, PlainBook>) -> Shown {
    let balance = match world.member(0) {
        Some(member) if member.genesis().members() > 0 => member.balance(0),
        _ => 0,
    };
    (balance, all_taken(world))
}

// Returns what the members show after `events`.
fn run_among(
    alloc: Global,
    genesis: &Genesis,
    keys: &[Keys],
    liars: &Liars,
    events: Vec<WorldEvent>,
) -> Result<Shown, WorldFault>
    requires keys { AreKeysOf genesis.now keys.now }
    requires liars { AreLiarsOf genesis.now liars.now }
{
    match run_world(alloc, &HmacSha256, genesis, keys, liars, events) {
        Ok(world) => Ok(show_world(&world)),
        Err(fault) => Err(fault),
    }
}

// Returns what the members show after the events of `row`. The run is made once more if memory runs
// out.
fn run_at_last(
    alloc: Global,
    genesis: &Genesis,
    keys: &[Keys],
    liars: &Liars,
    row: &Row,
) -> Result<Result<Shown, WorldFault>, Fail>
    requires keys { AreKeysOf genesis.now keys.now }
    requires liars { AreLiarsOf genesis.now liars.now }
{
    let (events, again) = (events_of(alloc, row)?, events_of(alloc, row)?);
    Ok(match run_among(alloc, genesis, keys, liars, events) {
        Err(WorldFault::Memory) => run_among(alloc, genesis, keys, liars, again),
        first => first,
    })
}

/// Runs `row` among the members of its group, and returns what they show.
fn run(alloc: Global, row: &Row) -> Result<Result<Shown, WorldFault>, Fail> {
    let (faults, opening, liars) = row.group;
    let genesis = Genesis::new(alloc, opening.len() as u64, faults, opening)?;
    let keys = group_test_keys(alloc, &genesis)?;
    let liars = Liars::new(alloc, &genesis, liars)?;
    run_at_last(alloc, &genesis, keys.as_slice(), &liars, row)
}

#[test]
fn events_are_run(rt: HostRuntime) -> Result<(), Fail> {
    for (place, row) in ROWS.iter().enumerate() {
        let is_shown = run(rt.alloc(), row)? == row.shown;
        assert!(rt; is_shown, "row {place}");
    }
    Ok(())
}
