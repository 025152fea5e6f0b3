//! A node's history in a log: on a disk that fails at each of its calls, and with threads that wait
//! for one sync.

ghost use Rattle.std.specs.Prelude.{◌≡◌, [], IfOk};
ghost use Rattle.pay_link.specs.Keys.{IsKeysOf};

use crate::logs::FailingDisk;
use pay_desk::Teller;
use pay_durable::{Keeper, Kept};
use pay_echo::MaskInstance;
use pay_frame::Bytes;
use pay_link::{Genesis, Keys, test_keys};
use pay_log::{Device, DeviceFault, Log, LogFault};
use pay_member::{Event, Member};
use pay_node::{Beginning, Node, OwnMember, Seat};
use pay_peers::NodeTeller;
use pay_pending::WaitingBook;
use pay_record::{Restarted, log_header, restart};
use std::alloc::{AllocError, Global};
use std::io::ErrorKind;
use std::marker::Brand;
use std::process::Abort;
use std::sync::atomic::{AtomicU32, Ordering};
use std::sync::{Mutex, Wait};
use std::test::Fail;
use std::thread;
use std::thread::Threads;
use std::time::{Clock, Duration};

/// A payment to oneself, which moves nothing.
const VALUE: &[u8] = &[1, 0, 0, 0, 0, 0, 0, 0, 0, 0, 5];

/// The ids of the owner's payments.
const IDS: &[u64] = &[7, 70, 700];

/// The count of calls that a disk has in a run that makes each of them: two of the recovery, and
/// two for each payment.
const CALLS: usize = 8;

/// How often a disk looks whether others have submitted their values, a millisecond apart.
const TURNS: u32 = 20_000;

type Started<'a, R> = Restarted<Shared<'a, R>, MaskInstance, WaitingBook>;

/// A disk that outlives its log. A sync waits until no submissions are missing.
#[derive(Drop)]
struct Shared<'a, R> {
    rt: &'a R,
    disk: &'a Mutex<FailingDisk>,
    missing: &'a AtomicU32,
}

impl<R: Wait + Clock> Device for Shared<'_, R> {
    ghost is_known = { λ f. ⊥ };

    ghost seen = { λ f. [] };

    ghost may_leave = { λ f c. ⊥ };

    ghost moment = { λ f. 0 };

    ghost left_since = { λ f t c. ⊥ };

    ghost counts_now = { λ f t c le now. now };

    ghost only_now = { λ f c left. left };

    fn read(&mut self, alloc: Global, from: usize, most: usize) -> Result<Vec<u8>, DeviceFault> {
        self.disk.lock(self.rt).read(alloc, from, most)
    }

    fn append(&mut self, bytes: &[u8]) -> Result<(), ErrorKind> {
        self.disk.lock(self.rt).append(bytes)
    }

    fn sync(&mut self) -> Result<(), ErrorKind> {
        for _ in 0..TURNS {
            if self.missing.load(Ordering::SeqCst) == 0 {
                break;
            }
            thread::sleep(self.rt, Duration::from_millis(1));
        }
        self.disk.lock(self.rt).sync()
    }
}

/// Creates the genesis of one member with one account, and the member's keys.
fn alone(alloc: Global) -> Result<(Genesis, Keys), Fail>
    ensures { IfOk result (λ made. IsKeysOf made.0 made.1) }
{
    let genesis = Genesis::new(alloc, 1, 0, &[100])?;
    if genesis.members() == 0 {
        return Err(Fail::new("nobody"));
    }
    let keys = test_keys(alloc, &genesis, 0)?;
    Ok((genesis, keys))
}

/// The disks of a start: one has a log, and the other is for the new log. A call of this number
/// fails on the second, and leaves that many bytes of an append.
#[derive(Drop)]
struct Disks {
    old: Mutex<FailingDisk>,
    new: Mutex<FailingDisk>,
}

impl Disks {
    fn of(alloc: Global, log: Vec<u8>, fails: usize, torn: usize) -> Disks {
        Disks {
            old: Mutex::new(FailingDisk::new(log, usize::MAX, 0)),
            new: Mutex::new(FailingDisk::new(Vec::new(alloc), fails, torn)),
        }
    }

    fn sound(alloc: Global, log: Vec<u8>) -> Disks {
        Disks::of(alloc, log, usize::MAX, 0)
    }

    /// Returns the bytes of the new log.
    fn new_log<R: Wait>(&self, rt: &R, alloc: Global) -> Result<Vec<u8>, Fail> {
        Ok(self.new.lock(rt).bytes.to_vec(alloc)?)
    }
}

/// Creates the bytes of a log without records.
fn log_of_none(alloc: Global) -> Result<Vec<u8>, Fail> {
    let (genesis, keys) = alone(alloc)?;
    let header = log_header(alloc, &genesis, &keys)?;
    Ok(header.encode(alloc)?)
}

/// Starts the member again from `disks`, and returns it with its log or the log's fault.
fn start<'a, R: Wait + Clock>(
    rt: &'a R,
    alloc: Global,
    disks: &'a Disks,
    missing: &'a AtomicU32,
) -> Result<Result<Started<'a, R>, LogFault>, Fail> {
    let (genesis, keys) = alone(alloc)?;
    let mut old = Shared {
        rt,
        disk: &disks.old,
        missing,
    };
    let new = Shared {
        rt,
        disk: &disks.new,
        missing,
    };
    Ok(restart(alloc, &mut old, new, &genesis, &keys))
}

// Creates the gate over `log`, the log of a start with `count` entries.
fn gate_of<'a, R: Wait + Clock>(
    alloc: Global,
    log: Log<Shared<'a, R>>,
    count: usize,
) -> Kept<Shared<'a, R>> {
    let kept = Kept::new(alloc, log, count);
    kept
}

/// Creates a node of `member` with three seats.
fn node_of<S: Beginning>(alloc: Global, member: OwnMember) -> Result<(Node<S>, Vec<Seat>), Fail>
    requires { member ≡ S.beginning }
{
    match Node::new(alloc, member, 3) {
        Ok(made) => Ok(made),
        Err((_, error)) => Err(error.into()),
    }
}

/// Submits a payment under an id, as a desk does.
fn pay<T: Teller>(alloc: Global, teller: &mut T, id: u64) -> Result<(), Fail> {
    let value = Bytes::from_slice(alloc, VALUE)?;
    match teller.ask(alloc, id, value) {
        Ok(_) => Ok(()),
        Err(_) => Err(Fail::new("refused")),
    }
}

/// What a run leaves on its disk.
#[derive(Drop)]
struct Ended {
    bytes: Vec<u8>,
    acknowledged: usize,
    // whether nothing was kept, and nothing asked of the disk, after the first failure
    stops: bool,
}

/// Pays under each id from a member's node. Returns how often a payment was acknowledged, and
/// whether all stops after the first failure.
fn pay_each<S: Beginning, R: Wait, D: Device + Drop>(
    rt: &R,
    alloc: Global,
    member: OwnMember,
    kept: &Kept<D>,
    disk: &Mutex<FailingDisk>,
) -> Result<(usize, bool), Fail>
    requires { member ≡ S.beginning }
{
    let (node, mut seats) = node_of::<S>(alloc, member)?;
    let Some(seat) = seats.pop() else {
        return Err(Fail::new("no seat"));
    };
    let mut teller = NodeTeller::new(rt, &node, kept, seat, 0);
    let mut acknowledged = 0;
    let mut stops = true;
    for (seq, id) in IDS.iter().enumerate() {
        let failed = kept.failure(rt).is_some();
        let calls = disk.lock(rt).calls;
        pay(alloc, &mut teller, *id)?;
        if kept.keep(rt, &node) {
            acknowledged = seq + 1;
            stops = stops && !failed;
        }
        stops = stops && (!failed || disk.lock(rt).calls == calls);
    }
    Ok((acknowledged, stops))
}

/// Pays under each id on a disk with a call of this number that fails. A start that fails leaves
/// the old log.
fn pay_until_crash<R: Wait + Clock>(
    rt: &R,
    alloc: Global,
    fails: usize,
    torn: usize,
) -> Result<Ended, Fail> {
    let none = log_of_none(alloc)?;
    let disks = Disks::of(alloc, none.to_vec(alloc)?, fails, torn);
    let missing = AtomicU32::new(0);
    let Ok(Restarted { member, log, .. }) = start(rt, alloc, &disks, &missing)? else {
        return Ok(Ended {
            bytes: none,
            acknowledged: 0,
            stops: true,
        });
    };
    let kept = gate_of(alloc, log, member.history().len());
    let (acknowledged, stops) = pay_each::<Brand, _, _>(rt, alloc, member, &kept, &disks.new)?;
    Ok(Ended {
        bytes: disks.new_log(rt, alloc)?,
        acknowledged,
        stops,
    })
}

/// Returns how many payments a member that starts again from `bytes` has, if their ids are those
/// that were ordered.
fn payments_on<R: Wait + Clock>(
    rt: &R,
    alloc: Global,
    bytes: Vec<u8>,
) -> Result<Option<usize>, Fail> {
    let disks = Disks::sound(alloc, bytes);
    let missing = AtomicU32::new(0);
    let Restarted { member, ids, .. } = start(rt, alloc, &disks, &missing)??;
    let mut asks: usize = 0;
    for entry in member.history() {
        match &entry.event {
            Event::Ask(value) if value.as_slice() == VALUE => asks = asks.saturating_add(1),
            _ => return Ok(None),
        }
    }
    let is_right = asks == ids.len() && IDS.starts_with(ids.as_slice());
    Ok(is_right.then_some(asks))
}

#[test]
fn failing_disk_loses_no_kept_payment(rt: HostRuntime) -> Result<(), Fail> {
    for fails in 0..=CALLS {
        for torn in 0..70 {
            let ended = pay_until_crash(&rt, rt.alloc(), fails, torn)?;
            assert!(rt; ended.stops, "call {fails}, {torn} bytes");
            let kept = ended.acknowledged;
            let read = payments_on(&rt, rt.alloc(), ended.bytes)?;
            let is_right = read == Some(kept) || read == Some(kept.saturating_add(1));
            assert!(rt; is_right, "call {fails}, {torn} bytes");
            assert!(rt; fails < CALLS || kept == IDS.len(), "nothing fails");
        }
    }
    Ok(())
}

/// Pays once under `id` from a node of `member`, which submitted `next` values before.
fn pay_next<S: Beginning, R: Wait, D: Device + Drop>(
    rt: &R,
    alloc: Global,
    member: OwnMember,
    kept: &Kept<D>,
    next: u32,
    id: u64,
) -> Result<bool, Fail>
    requires { member ≡ S.beginning }
{
    let (node, mut seats) = node_of::<S>(alloc, member)?;
    let Some(seat) = seats.pop() else {
        return Err(Fail::new("no seat"));
    };
    pay(alloc, &mut NodeTeller::new(rt, &node, kept, seat, next), id)?;
    Ok(kept.keep(rt, &node))
}

/// Starts again from `bytes` and pays once under `id`. Returns what the disk has then.
fn live_once<R: Wait + Clock>(
    rt: &R,
    alloc: Global,
    bytes: Vec<u8>,
    id: u64,
) -> Result<Vec<u8>, Fail> {
    let disks = Disks::sound(alloc, bytes);
    let missing = AtomicU32::new(0);
    let Restarted {
        member,
        ids,
        log,
        ..
    } = start(rt, alloc, &disks, &missing)??;
    let kept = gate_of(alloc, log, member.history().len());
    let next = u32::try_from(ids.len()).unwrap_or(u32::MAX);
    if !pay_next::<Brand, _, _>(rt, alloc, member, &kept, next, id)? {
        return Err(Fail::new("not kept"));
    }
    disks.new_log(rt, alloc)
}

#[test]
fn each_payment_keeps_its_id_in_a_life_of_its_own(rt: HostRuntime) -> Result<(), Fail> {
    let mut bytes = log_of_none(rt.alloc())?;
    for id in IDS {
        bytes = live_once(&rt, rt.alloc(), bytes, *id)?;
    }
    assert!(rt; payments_on(&rt, rt.alloc(), bytes)? == Some(IDS.len()));
    Ok(())
}

/// Pays from each of a node's three seats at once. The first sync waits until all have submitted
/// their values.
fn all_pay<S, R, D>(
    rt: &R,
    alloc: Global,
    member: OwnMember,
    kept: &Kept<D>,
    missing: &AtomicU32,
) -> Result<bool, Fail>
where
    S: Beginning + Send + Sync,
    R: Wait + Threads + Sync,
    D: Device + Drop + Send,
    requires { member ≡ S.beginning }
{
    let (node, seats) = node_of::<S>(alloc, member)?;
    missing.store(3, Ordering::SeqCst);
    let answers = thread::map_vec(
        rt,
        seats,
        &|mut seat: Seat| {
            let Ok(value) = Bytes::from_slice(alloc, VALUE) else {
                return false;
            };
            let asked = node.ask(rt, alloc, &mut seat, value).is_ok();
            missing.fetch_sub(1, Ordering::SeqCst);
            asked && kept.keep(rt, &node)
        },
    )?;
    Ok(answers.iter().all(|answer| *answer))
}

/// Pays from three seats at once. The first sync waits until all have submitted their values.
fn paid_at_once<R: Wait + Threads + Clock + Sync>(
    rt: &R,
    alloc: Global,
) -> Result<(bool, usize, Vec<u8>), Fail> {
    let disks = Disks::sound(alloc, log_of_none(alloc)?);
    let missing = AtomicU32::new(0);
    let Restarted { member, log, .. } = start(rt, alloc, &disks, &missing)??;
    let kept = gate_of(alloc, log, member.history().len());
    let all = all_pay::<Brand, _, _>(rt, alloc, member, &kept, &missing)?;
    let calls = disks.new.lock(rt).calls;
    Ok((all, calls, disks.new_log(rt, alloc)?))
}

#[test]
fn those_that_wait_share_a_sync(rt: HostRuntime) -> Result<(), Fail> {
    for _ in 0..20 {
        let (all, calls, bytes) = paid_at_once(&rt, rt.alloc())?;
        assert!(rt; all);
        // a header and a sync of the recovery, and an append and a sync of one or two groups
        assert!(rt; calls == 4 || calls == 6, "{calls} calls");
    }
    Ok(())
}

/// A durability gate that takes no id.
struct Refusing;

impl Keeper for Refusing {
    ghost kept = { λ _ _. Unit {0} };

    ghost has = { λ _ _. Unit {0} };

    fn keep<R: Wait, S: Beginning>(&self, _rt: &R, _node: &Node<S>) -> bool {
        true
    }

    fn has_entries<R: Wait>(&self, _rt: &R, _entries: usize) -> bool {
        true
    }

    fn order<R: Wait>(&self, _rt: &R, _seq: u32, _id: u64) -> Result<(), AllocError> {
        Err(AllocError)
    }

    fn durable<R: Wait>(&self, _rt: &R) -> Option<usize> {
        None
    }
}

/// Returns whether a node of `member` refuses to pay under an id that isn't taken, and how many
/// entries its history has then.
fn tried_in_vain<S: Beginning, R: Wait>(
    rt: &R,
    alloc: Global,
    member: OwnMember,
) -> Result<(bool, usize), Fail>
    requires { member ≡ S.beginning }
{
    let (node, mut seats) = node_of::<S>(alloc, member)?;
    let Some(seat) = seats.pop() else {
        return Err(Fail::new("no seat"));
    };
    let value = Bytes::from_slice(alloc, VALUE)?;
    let refused = {
        let mut teller = NodeTeller::new(rt, &node, &Refusing, seat, 0);
        teller.ask(alloc, 7, value).is_err()
    };
    Ok((refused, node.stop().into_member().history().len()))
}

/// Returns what `tried_in_vain` returns for a fresh member.
fn fresh_in_vain<R: Wait>(rt: &R, alloc: Global) -> Result<(bool, usize), Fail> {
    let (genesis, keys) = alone(alloc)?;
    let member: OwnMember = Member::new(alloc, genesis, keys)?;
    tried_in_vain::<Brand, _>(rt, alloc, member)
}

#[test]
fn no_payment_whose_id_is_not_taken(rt: HostRuntime) -> Result<(), Fail> {
    let (refused, entries) = fresh_in_vain(&rt, rt.alloc())?;
    assert!(rt; refused && entries == 0);
    Ok(())
}
