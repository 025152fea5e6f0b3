//! What is printed about a node: about its member, its log, and its peers.

ghost use Rattle.std.specs.Prelude.{IsTrue, ◌≡◌, length};
ghost use Rattle.pay_durable.specs.Kept.{AreDurable, IsHistoryKept};
ghost use Rattle.payd.specs.Saying.{is_about_another, kind_words};
ghost use Rattle.payd.specs.Starts.{rollback_fault};

use crate::advice::{has_control, say_log_advice};
use crate::figures::{FiguresFile, ValuesWatch};
use crate::folders::FoundAs;
use crate::groups::Called;
use crate::times::TimesFile;
use pay_durable::{Keeper, Kept};
use pay_frame::Kind;
use pay_link::{Genesis, Keys};
use pay_log::{Device, LogFault, LogLock};
use pay_member::Lie;
use pay_net::{News, NodeFigures, Ports, Watcher};
use pay_node::{Beginning, Node, OwnMember};
use pay_peers::Observer;
use pay_record::log_header;
use std::alloc::{AllocError, Global};
use std::fmt;
use std::fs::File;
use std::rt::Files;
use std::sync::Wait;
use std::sync::atomic::{AtomicBool, AtomicUsize, Ordering};
use std::time::Clock;

/// The folder with a log's name, and the lock of that log.
#[derive(Clone, Copy)]
pub(crate) struct NamedLog<'a> {
    pub(crate) folder: &'a str,
    pub(crate) lock: &'a LogLock,
}

/// A log that follows a node's history. The log reports once on standard error that it failed, or
/// that it no longer has its name. Nothing is kept from then on.
#[derive(Drop)]
pub(crate) struct SayingKept<'a, H, D: Device + Drop> {
    rt: &'a H,
    alloc: Global,
    kept: Kept<D>,
    log: NamedLog<'a>,
    has_failed: &'a AtomicBool,
    /// The count of entries that the log had when it had its name last.
    named: AtomicUsize,
    is_unnamed: AtomicBool,
}

impl<'a, H, D: Device + Drop> SayingKept<'a, H, D> {
    /// Creates a log that reports failures of `kept`, before any failure.
    pub(crate) fn new(
        rt: &'a H,
        alloc: Global,
        kept: Kept<D>,
        log: NamedLog<'a>,
        has_failed: &'a AtomicBool,
    ) -> SayingKept<'a, H, D> {
        SayingKept {
            rt,
            alloc,
            kept,
            log,
            has_failed,
            named: AtomicUsize::new(0),
            is_unnamed: AtomicBool::new(false),
        }
    }

    /// Returns why nothing is kept any more, if that is so.
    pub(crate) fn failure<R: Wait>(&self, rt: &R) -> Option<LogFault> {
        if self.is_unnamed.load(Ordering::SeqCst) {
            return Some(LogFault::Unnamed);
        }
        self.kept.failure(rt).map(LogFault::Disk)
    }
}

impl<H: Files + Eprint, D: Device + Drop> SayingKept<'_, H, D> {
    // Returns whether a log that has grown still has its name. If there is no memory to test it,
    // the next call does.
    fn has_name<R: Wait>(&self, rt: &R) -> bool {
        if self.is_unnamed.load(Ordering::SeqCst) {
            return false;
        }
        let Some(entries) = self.kept.durable(rt) else {
            return true;
        };
        if entries <= self.named.load(Ordering::SeqCst) {
            return true;
        }
        match self.log.lock.has_name(self.rt, self.alloc, self.log.folder) {
            Ok(true) => {
                self.named.fetch_max(entries, Ordering::SeqCst);
                true
            }
            Ok(false) => {
                self.is_unnamed.store(true, Ordering::SeqCst);
                false
            }
            Err(_) => true,
        }
    }

    // Prints why nothing is kept any more, if that wasn't printed before.
    fn say_failure<R: Wait>(&self, rt: &R) {
        if let Some(fault) = self.failure(rt) {
            if !self.has_failed.swap(true, Ordering::SeqCst) {
                let _ = eprintln!(self.rt; "payd: log {fault}");
            }
        }
    }
}

impl<H: Files + Eprint, D: Device + Drop> Keeper for SayingKept<'_, H, D> {
    ghost kept = { λ _ node. IsHistoryKept D.is_known D.seen D.may_leave node };

    ghost has = { λ _ entries. AreDurable D.is_known D.seen D.may_leave entries };

    fn keep<R: Wait, S: Beginning>(&self, rt: &R, node: &Node<S>) -> bool {
        if self.kept.keep(rt, node) && self.has_name(rt) {
            return true;
        }
        self.say_failure(rt);
        false
    }

    fn has_entries<R: Wait>(&self, rt: &R, entries: usize) -> bool {
        self.kept.has_entries(rt, entries) && self.has_name(rt)
    }

    fn order<R: Wait>(&self, rt: &R, seq: u32, id: u64) -> Result<(), AllocError> {
        self.kept.order(rt, seq, id)
    }

    fn durable<R: Wait>(&self, rt: &R) -> Option<usize> {
        self.kept.durable(rt)
    }
}

/// The line about a member that no folder keeps.
const IN_MEMORY: &str =
    "without --data the member lives in memory alone: what ends the node before its input does \
loses its account";

const STARVED: &str = "memory was refused for 5 seconds on end";

/// A printer of a node's peer events on standard error, a line each. The printer also prints that
/// the node's member has lost state, and that the node is out of memory. It has the node's metrics
/// and times written.
#[derive(Drop)]
pub(crate) struct Saying<'a, R> {
    pub(crate) rt: &'a R,
    pub(crate) called: &'a Called,
    pub(crate) figures: Option<FiguresFile<'a, R>>,
    pub(crate) times: Option<TimesFile<'a, R>>,
    pub(crate) values: ValuesWatch<'a, R>,
    /// What is reported if the member has lost state.
    pub(crate) rollback: LogFault,
    /// True if the member has lost state.
    pub(crate) forgets: &'a AtomicBool,
    /// True if the node is out of memory, in a node that may end then.
    pub(crate) starves: Option<&'a AtomicBool>,
}

impl<R: Files> Saying<'_, R> {
    /// Removes the metrics after the node has ended.
    pub(crate) fn leave(&self) {
        if let Some(figures) = &self.figures {
            figures.remove();
        }
    }

    /// Returns whether the node is out of memory, in a node that may end then.
    pub(crate) fn has_starved(&self) -> bool {
        match self.starves {
            Some(starves) => starves.load(Ordering::SeqCst),
            None => false,
        }
    }
}

impl<R: Files<File = File> + Eprint + Clock> Watcher for Saying<'_, R> {
    fn watch(&self, figures: &NodeFigures) {
        self.values.watch(figures.member.used);
        if let Some(file) = &self.times {
            file.watch(figures.member.fronts.as_slice());
        }
        if let Some(file) = &self.figures {
            file.watch(figures);
        }
    }

    fn starves(&self) {
        let _ = eprintln!(self.rt; "payd: {STARVED}");
        if let Some(starves) = self.starves {
            starves.store(true, Ordering::SeqCst);
        }
    }

    fn forgets(&self) {
        let fault = self.rollback;
        let _ = eprintln!(self.rt; "payd: log {fault}");
        say_log_advice(self.rt, fault);
        self.forgets.store(true, Ordering::SeqCst);
    }
}

impl<R: Eprint> Observer<News> for Saying<'_, R> {
    // Prints the event of `peer`. If that fails, the node continues.
    fn observe(&self, peer: u16, news: News) {
        let said = NewsSaid { peer, news };
        let peer = self.called.member(peer);
        let _ = eprintln!(self.rt; "payd: peer {peer} {said}");
    }
}

/// Prints which member of which group a node is, and the port that it listens on. The group is
/// given by the first digits of the digest of `genesis`, as the member's log has it. If the genesis
/// is a group's file, its fingerprint is given too. All that distinguishes two groups is in the
/// fingerprint.
pub(crate) fn say_node(
    alloc: Global,
    rt: &impl Eprint,
    genesis: &Genesis,
    keys: &Keys,
    ports: &Ports,
    called: &Called,
) -> Result<(), AllocError>
    requires { length ports.now ≡ length keys.now.keys }
{
    let [a, b, c, d, ..] = log_header(alloc, genesis, keys)?.genesis;
    let digest = u32::from_be_bytes([a, b, c, d]);
    let (members, port) = (keys.members(), ports.port(keys.own()));
    let (own, group) = (called.member(keys.own()), called.group());
    let _ = eprintln!(rt;
        "payd: member {own} of {members}, genesis {digest:08x}, port {port}{group}"
    );
    Ok(())
}

/// Prints that a member is lost with its node.
pub(crate) fn say_in_memory(rt: &impl Eprint) {
    let _ = eprintln!(rt; "payd: {IN_MEMORY}");
}

/// Returns what a node reports if more than f peers know more than its log, which had `entries` at
/// the start.
// promise: comparing
pub(crate) fn rollback_fault(entries: usize) -> LogFault
    ensures { result ≡ rollback_fault entries }
{
    if entries == 0 {
        LogFault::Known
    } else {
        LogFault::Forgotten
    }
}

/// Prints the absolute path of the folder that keeps a node's member, or `folder` as it is if the
/// system has no path that fits on a line.
pub(crate) fn say_folder(alloc: Global, rt: &(impl Files + Eprint), folder: &str) {
    let found = rt.canonicalize(alloc, folder);
    let path = match &found {
        Ok(path) => path.to_str().unwrap_or(folder),
        Err(_) => folder,
    };
    let path = if has_control(path.as_bytes()) {
        folder
    } else {
        path
    };
    let _ = eprintln!(rt; "payd: folder {path}");
}

/// Prints which file has a fault, and the member of a key in it.
pub(crate) fn say_place(rt: &impl Eprint, place: Option<(&str, Option<u16>)>) {
    let _ = match place {
        None => Ok(()),
        Some((file, None)) => eprintln!(rt; "payd: in {file}"),
        Some((file, Some(member))) => eprintln!(rt; "payd: in {file}, the key for member {member}"),
    };
}

/// What a member's log has at the start.
#[derive(Clone, Copy, Debug)]
pub(crate) enum Found {
    /// The log was made just now.
    Nothing,
    /// `entries` in the log, `payments` of all accounts settled. The last `dropped` bytes aren't
    /// part of a record block.
    History {
        entries: usize,
        payments: u64,
        dropped: u64,
    },
}

impl Found {
    /// Returns what the log of `member` has, according to how it was `found`.
    pub(crate) fn of(member: &OwnMember, found: FoundAs) -> Found {
        match found {
            FoundAs::New => Found::Nothing,
            FoundAs::Log { dropped } => Found::History {
                entries: member.history().len(),
                payments: settled_count(member),
                dropped,
            },
        }
    }
}

/// Prints what the log had at the start.
pub(crate) fn say_start(rt: &impl Eprint, found: Found) {
    let Found::History {
        entries,
        payments,
        dropped,
    } = found
    else {
        let _ = eprintln!(rt; "payd: log: new");
        return;
    };
    let _ = eprintln!(rt; "payd: log: {entries} entries of {payments} payments, started again");
    if dropped > 0 {
        let _ = eprintln!(rt; "payd: log: {dropped} bytes dropped, kept in log.dropped");
    }
}

/// Prints what the log of an export has besides its record blocks.
pub(crate) fn say_view(rt: &impl Eprint, is_held: bool, behind: u64) {
    if is_held {
        let _ = eprintln!(rt; "payd: log: a node has it, so this is the member as of now");
    } else if behind > 0 {
        let _ = eprintln!(rt; "payd: log: {behind} bytes at its end are no part of it");
    }
}

// Returns how many payments of all accounts are settled.
fn settled_count(member: &OwnMember) -> u64 {
    let mut sum: u64 = 0;
    for account in 0..member.genesis().members() {
        sum = sum.saturating_add(u64::from(member.front(account)));
    }
    sum
}

/// A peer event in words, with the name of the owner of the account that a protocol violation is
/// about, if it has one.
#[derive(Clone, Copy)]
struct NewsSaid {
    peer: u16,
    news: News,
}

impl fmt::Display for NewsSaid {
    ghost use Rattle.std.specs.Prelude.{Some};
    ghost use Rattle.payd.specs.Saying.{news_words};

    ghost output = { λ said. Some (news_words said.peer said.news) };

    fn fmt<W: fmt::Write>(&self, f: &mut fmt::Formatter<W>) -> fmt::Result {
        match self.news {
            News::Met => write!(f, "met"),
            News::Lost => write!(f, "lost"),
            News::GivenUp => write!(f, "given up"),
            News::Lied(lie) => {
                let lie = LieSaid {
                    peer: self.peer,
                    lie,
                };
                write!(f, "lied: {lie}; nothing more is read from it")
            }
            News::Unopened => write!(
                f,
                "sends frames that don't open: another key or another group"
            ),
        }
    }
}

/// A protocol violation of a peer, in words.
#[derive(Clone, Copy)]
struct LieSaid {
    peer: u16,
    lie: Lie,
}

impl fmt::Display for LieSaid {
    ghost use Rattle.std.specs.Prelude.{Some};
    ghost use Rattle.payd.specs.Saying.{lie_words};

    ghost output = { λ said. Some (lie_words said.peer said.lie) };

    fn fmt<W: fmt::Write>(&self, f: &mut fmt::Formatter<W>) -> fmt::Result {
        let Lie { kind, owner, seq } = self.lie;
        if is_about_another(self.peer, self.lie) {
            return write!(f, "a SEND about account {owner}, which isn't its own");
        }
        let kind = word_of(kind);
        write!(f, "a second {kind} about value {seq} of account {owner}")
    }
}

// Returns whether a peer spoke as if another's account were its own.
fn is_about_another(peer: u16, lie: Lie) -> bool
    ensures { result ≡ is_about_another peer lie }
{
    match lie.kind {
        Kind::Send => lie.owner != peer,
        Kind::Echo | Kind::Ready | Kind::Want => false,
    }
}

fn word_of(kind: Kind) -> &'static str
    ensures { result.now ≡ kind_words kind }
{
    match kind {
        Kind::Send => "SEND",
        Kind::Echo => "ECHO",
        Kind::Ready => "READY",
        Kind::Want => "WANT",
    }
}
