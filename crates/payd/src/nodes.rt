//! A member's node, in memory alone or over the folder of the member.

ghost use Rattle.std.specs.Prelude.{◌≡◌, ◌<◌, IfErr, IfOk, OnOk, Some, is_some, length, true};
ghost use Rattle.pay_link.specs.Keys.{IsKeysOf};
ghost use Rattle.pay_net.specs.Places.{descriptors_of, least_places, places_within};
ghost use Rattle.payd.specs.Stops.{IsUnconcluded, unkept_stop};
ghost use Rattle.payd.specs.declared.stop.Stop.TheVariants.{Descriptors};

use crate::figures::{FiguresFile, ValuesWatch};
use crate::files::{member_of, ports_of, warn_of_keys};
use crate::folders::{
    FoundAs, Given, KeptMember, Opened, Viewed, given_in, open_member, view_member,
};
use crate::groups::{Called, called_in};
use crate::options::{ahead_of, dials_of};
use crate::saying::{
    Found, NamedLog, Saying, SayingKept, rollback_fault, say_folder, say_in_memory, say_node,
    say_start, say_view,
};
use crate::sockets::{NamedSocket, listen, socket_path};
use crate::staying::{Ends, Lines, judge_new, judge_stay};
use crate::stop::Stop;
use crate::times::TimesFile;
use libc::sysconf;
use pay_audit::write_export;
use pay_cli::NodeWords;
use pay_durable::{Keeper, Kept, Unkept};
use pay_frame::{EngineFault, Reader, StreamFault, Writer, write_text};
use pay_hmac::PreparedHmac;
use pay_link::{Genesis, Keys};
use pay_log::{LogFault, end_log};
use pay_member::Member;
use pay_net::{
    NodeConfig, NodeStart, Ports, Receipts, StartFault, descriptors_needed, places_within, run_node,
};
use pay_node::{CloseFault, OwnMember};
use pay_peers::{Ahead, Dials};
use pay_record::Restarted;
use std::alloc::{Alloc, Global};
use std::fs::File;
use std::io::Read;
use std::net::{Net, TcpListener, TcpStream};
use std::rt::Files;
use std::sync::Wait;
use std::sync::atomic::{AtomicBool, AtomicU64, Ordering};
use std::thread::Threads;
use std::time::{Clock, Duration};
use std::{fs, io};

/// The file of random bytes that the system provides.
const RANDOM: &str = "/dev/urandom";

/// The name by which the system gives the limit of a process's descriptors: `_SC_OPEN_MAX`.
const OPEN_MAX: i32 = 4;

/// The peers and the desk's clients of a node, according to words and a file.
#[derive(Drop)]
struct Meeting {
    nonce: u64,
    ports: Ports,
    dials: Dials,
    ahead: Ahead,
    places: u16,
    called: Called,
    socket: Option<NamedSocket>,
}

impl Meeting {
    // Returns the configuration with this `observer` of peers, this durability gate, and the
    // interval between two displays of the metrics.
    // promise: dials (dials, ahead)
    fn config<'a, O, K>(
        &'a self,
        observer: &'a O,
        keeper: &'a K,
        shown_every: Option<Duration>,
    ) -> NodeConfig<'a, O, K>
        ensures nonce { result.nonce ≡ self.now.nonce }
        ensures ports { result.ports.now ≡ self.now.ports }
        ensures dials { result.dials ≡ self.now.dials }
        ensures ahead { result.ahead ≡ self.now.ahead }
        ensures places { result.places ≡ self.now.places }
        ensures observer { result.observer.now ≡ observer.now }
        ensures keeper { result.keeper.now ≡ keeper.now }
        ensures shown_every { result.shown_every ≡ shown_every }
        ensures socket { is_some result.socket ≡ is_some self.now.socket }
    {
        NodeConfig {
            nonce: self.nonce,
            ports: &self.ports,
            dials: self.dials,
            ahead: self.ahead,
            places: self.places,
            observer,
            shown_every,
            keeper,
            socket: match &self.socket {
                Some(named) => Some(&named.socket),
                None => None,
            },
        }
    }

    // Removes the name of the desk's socket, so that nobody may use the desk any more.
    fn leave(&self, rt: &impl Files) {
        if let Some(socket) = &self.socket {
            socket.remove(rt);
        }
    }
}

// Returns a number that nobody foresees. Claims on challenges of earlier starts don't answer this
// start's.
fn draw_nonce<'a>(rt: &impl Files) -> Result<u64, Stop<'a>> {
    let mut bytes = [0; 8];
    match fs::open(rt, RANDOM).and_then(|mut file| file.read_exact(&mut bytes)) {
        Ok(()) => Ok(u64::from_be_bytes(bytes)),
        Err(error) => Err(Stop::File(RANDOM, error.kind())),
    }
}

// Returns how many descriptors the system allows this process, as far as it is known.
fn descriptor_limit() -> u64 {
    u64::try_from(sysconf(OPEN_MAX)).unwrap_or(u64::MAX)
}

// Returns how many inbound connections a node of `members` members may have at once.
fn places_of<'a>(limit: u64, members: u16) -> Result<u16, Stop<'a>>
    ensures places { IfOk result (λ places. places_within limit members ≡ Some places) }
    ensures stop { IfErr result (λ stop. let needed = descriptors_of members (least_places members)
        in (stop ≡ Descriptors limit needed) × (limit < needed)) }
{
    match places_within(limit, members) {
        Some(places) => Ok(places),
        None => Err(Stop::Descriptors(limit, descriptors_needed(members))),
    }
}

/// Answers the lines on standard input, after the `words` and the files are read, while the node
/// serves its peers. Then it prints the member's export, even if memory ran out for the shutdown
/// check.
pub(crate) fn serve_node<'a, R>(alloc: Global, rt: &R, words: NodeWords<'a>) -> Result<(), Stop<'a>>
where
    R: Files<File = File>
        + Input
        + Print
        + Eprint
        + Threads
        + Wait
        + Clock
        + Alloc
        + Clone
        + Drop
        + Sync,
    R: Net<Listener = TcpListener, Stream = TcpStream>,
    R::Dir: Send + Sync,
{
    let dials = dials_of(words.dials)?;
    let ahead = ahead_of(words.ahead)?;
    judge_stay(&words)?;
    judge_new(&words)?;
    let Given {
        genesis,
        keys,
        copies,
    } = given_in(alloc, rt, words.genesis, words.keys)?;
    let ports = ports_of(alloc, rt, &genesis, words.ports)?;
    warn_of_keys(rt, words.keys);
    let path = socket_path(alloc, words.folder, words.socket)?;
    let mut meeting = Meeting {
        nonce: draw_nonce(rt)?,
        ports,
        dials,
        ahead,
        places: places_of(descriptor_limit(), genesis.members())?,
        called: called_in(alloc, &genesis, copies.group())?,
        socket: None,
    };
    match words.folder {
        None => {
            meeting.socket = listen(alloc, rt, path)?;
            let ended = serve_in_memory(alloc, rt, genesis, keys, &meeting);
            meeting.leave(rt);
            ended
        }
        Some(folder) => {
            // what shows the node to others is removed before another node may have the folder
            let Opened { kept, found, lock } = open_member(
                alloc,
                rt,
                &genesis,
                &keys,
                folder,
                words.makes_new,
            )?;
            copies.keep(alloc, rt, folder)?;
            meeting.socket = listen(alloc, rt, path)?;
            let log = NamedLog {
                folder,
                lock: &lock,
            };
            let ended = serve_kept(alloc, rt, log, kept, found, &meeting, words.stays);
            meeting.leave(rt);
            ended
        }
    }
}

// Runs the node of a fresh member, which is lost with the node.
fn serve_in_memory<'a, R>(
    alloc: Global,
    rt: &R,
    genesis: Genesis,
    keys: Keys,
    meeting: &Meeting,
) -> Result<(), Stop<'a>>
where
    R: Files<File = File> + Input + Print + Eprint + Threads + Wait + Clock + Sync,
    R: Net<Listener = TcpListener, Stream = TcpStream>,
    R::Dir: Send + Sync,
    requires keys { IsKeysOf genesis keys }
    requires ports { length meeting.now.ports ≡ genesis.members }
{
    let tagger = keys.tagger(alloc)?;
    say_node(alloc, rt, &genesis, &keys, &meeting.ports, &meeting.called)?;
    let member: OwnMember = Member::new(alloc, genesis, keys)?;
    say_in_memory(rt);
    let start = NodeStart::fresh(alloc, member);
    let (has_failed, forgets) = (AtomicBool::new(false), AtomicBool::new(false));
    let starves = AtomicBool::new(false);
    let reads = AtomicU64::new(0);
    let ends = Ends {
        has_failed: &has_failed,
        forgets: &forgets,
        starves: &starves,
    };
    serve_fresh(alloc, rt, start, &tagger, meeting, ends, &reads)
}

// Runs the node of a fresh member, from its `start`.
fn serve_fresh<'a, 'x, R>(
    alloc: Global,
    rt: &'x R,
    start: NodeStart,
    tagger: &PreparedHmac,
    meeting: &'x Meeting,
    ends: Ends<'x>,
    reads: &'x AtomicU64,
) -> Result<(), Stop<'a>>
where
    R: Files<File = File> + Input + Print + Eprint + Threads + Wait + Clock + Sync,
    R: Net<Listener = TcpListener, Stream = TcpStream>,
    R::Dir: Send + Sync,
    requires { length meeting.now.ports ≡ length start.member.keys.keys }
{
    let saying = Saying {
        rt,
        called: &meeting.called,
        figures: None,
        times: None,
        values: ValuesWatch::new(rt),
        rollback: LogFault::Forgotten,
        forgets: ends.forgets,
        // the member would lose its account
        starves: None,
    };
    let lines = Lines::new(rt, Reader::new(rt.reader()), false, ends, reads);
    let config = meeting.config(&saying, &Unkept, None);
    serve(alloc, rt, start, tagger, &config, lines)
}

// Runs the node of a member that is kept in a folder.
fn serve_kept<'a, 'x, R>(
    alloc: Global,
    rt: &'x R,
    log: NamedLog<'_>,
    kept: KeptMember,
    found: FoundAs,
    meeting: &'x Meeting,
    stays: bool,
) -> Result<(), Stop<'a>>
where
    R: Files<File = File> + Input + Print + Eprint + Threads + Wait + Clock + Sync,
    R: Net<Listener = TcpListener, Stream = TcpStream>,
    R::Dir: Send + Sync,
    requires { length meeting.now.ports ≡ length kept.member.keys.keys }
{
    let (has_failed, forgets) = (AtomicBool::new(false), AtomicBool::new(false));
    let starves = AtomicBool::new(false);
    let reads = AtomicU64::new(0);
    let saying = Saying {
        rt,
        called: &meeting.called,
        figures: Some(FiguresFile::new(rt, alloc, log.folder, &reads)?),
        times: Some(TimesFile::new(rt, alloc, log.folder)?),
        values: ValuesWatch::new(rt),
        rollback: rollback_fault(kept.member.history().len()),
        forgets: &forgets,
        starves: Some(&starves),
    };
    let ends = Ends {
        has_failed: &has_failed,
        forgets: &forgets,
        starves: &starves,
    };
    let lines = Lines::new(rt, Reader::new(rt.reader()), stays, ends, &reads);
    let ended = serve_restarted(alloc, rt, log, (kept, found), meeting, &saying, lines);
    saying.leave();
    ended?;
    if !log.lock.has_name(rt, alloc, log.folder)? {
        return Err(Stop::Log(LogFault::Unnamed));
    }
    Ok(end_log(rt, alloc, log.folder)?)
}

// Returns the end of a node with a log that failed in this way.
fn unkept<'a>(ended: Result<(), Stop<'a>>, why: LogFault) -> Stop<'a>
    ensures { result ≡ unkept_stop why ended.entry }
{
    match ended {
        Err(Stop::Engine(_)) => Stop::Unkept(why),
        Err(stop) => stop,
        Ok(()) => Stop::Log(why),
    }
}

// Runs the node of a member as its log has it.
fn serve_restarted<'a, R, In>(
    alloc: Global,
    rt: &R,
    log: NamedLog<'_>,
    member: (KeptMember, FoundAs),
    meeting: &Meeting,
    saying: &Saying<'_, R>,
    lines: Lines<'_, R, In>,
) -> Result<(), Stop<'a>>
where
    R: Files<File = File> + Print + Eprint + Threads + Wait + Clock + Sync,
    R: Net<Listener = TcpListener, Stream = TcpStream>,
    R::Dir: Send + Sync,
    In: pay_frame::Input + Drop,
    requires { length meeting.now.ports ≡ length member.0.member.keys.keys }
{
    let (kept, found) = member;
    let Restarted {
        member,
        ids,
        log: followed,
        ..
    } = kept;
    let tagger = member.keys().tagger(alloc)?;
    let said = Found::of(&member, found);
    say_node(
        alloc,
        rt,
        member.genesis(),
        member.keys(),
        &meeting.ports,
        &meeting.called,
    )?;
    let kept = Kept::new(alloc, followed, member.history().len());
    let start = start_again(alloc, member, ids.as_slice())?;
    say_folder(alloc, rt, log.folder);
    say_start(rt, said);
    let keeper = SayingKept::new(rt, alloc, kept, log, lines.has_failed());
    let config = meeting.config(saying, &keeper, Some(FiguresFile::<R>::every()));
    let ended = serve(alloc, rt, start, &tagger, &config, lines);
    match keeper.failure(rt) {
        Some(why) => Err(unkept(ended, why)),
        None => ended,
    }
}

// Returns the start of a node that continues with `member`, which a folder keeps, and the `ids` of
// its owner. The node has a rollback check even in a folder that was made just now, since the
// member may have another folder elsewhere.
// promise: comparing (compares)
fn start_again<'a>(alloc: Global, member: OwnMember, ids: &[u64]) -> Result<NodeStart, Stop<'a>>
    ensures member { IfOk result (λ start. start.member ≡ member) }
    ensures compares { IfOk result (λ start. start.compares ≡ true) }
{
    let count = member.history().len() as u64;
    match NodeStart::again(alloc, member, ids) {
        Ok(start) => Ok(start),
        Err(StartFault::Memory) => Err(Stop::Log(LogFault::Memory)),
        Err(StartFault::Ids) => Err(Stop::Log(LogFault::Illegal(count))),
    }
}

// Runs a node until its lines end, and prints its member's export.
fn serve<'a, R, K, In>(
    alloc: Global,
    rt: &R,
    start: NodeStart,
    tagger: &PreparedHmac,
    config: &NodeConfig<'_, Saying<'_, R>, K>,
    lines: Lines<'_, R, In>,
) -> Result<(), Stop<'a>>
where
    R: Files<File = File> + Print + Eprint + Threads + Wait + Clock + Sync,
    R: Net<Listener = TcpListener, Stream = TcpStream>,
    R::Dir: Send + Sync,
    K: Keeper + Sync,
    In: pay_frame::Input + Drop,
    requires { length config.now.ports.now ≡ length start.member.keys.keys }
{
    let mut lines = lines;
    let writer = Writer::new(io::writer(rt));
    let (ended, _writer) = run_node(rt, alloc, start, tagger, config, &mut lines, writer);
    // this was reported already
    if config.observer.forgets.load(Ordering::SeqCst) {
        return Err(Stop::Forgets(config.observer.rollback));
    }
    if config.observer.has_starved() {
        return Err(Stop::Engine(EngineFault::Memory));
    }
    let (member, receipts) = ended?;
    conclude(rt, &member, receipts)
}

/// Prints the export of `member`, a node's. Returns a fault if its `receipts` weren't judged.
fn conclude<'a>(rt: &impl Print, member: &OwnMember, receipts: Receipts) -> Result<(), Stop<'a>>
    ensures judged { OnOk result (receipts ≡ Receipts.Consistent) }
    ensures stop { IfErr result (IsUnconcluded receipts) }
{
    print_export(rt, member)?;
    match receipts {
        Receipts::Consistent => Ok(()),
        Receipts::Unjudged => Err(Stop::Close(CloseFault::Memory(None))),
    }
}

/// Prints the export of the member in `folder`, after the files `genesis` and `keys` are read.
pub(crate) fn export<'a, R>(
    alloc: Global,
    rt: &R,
    genesis: &'a str,
    keys: &'a str,
    folder: &'a str,
) -> Result<(), Stop<'a>>
where
    R: Files<File = File> + Print + Eprint + Alloc,
{
    let (genesis, keys) = member_of(alloc, rt, genesis, keys)?;
    let Viewed {
        member,
        is_held,
        behind,
    } = view_member(alloc, rt, &genesis, &keys, folder)?;
    say_view(rt, is_held, behind);
    Ok(print_export(rt, &member)?)
}

/// Prints the export of `member` as a line. The call allocates nothing, so that running out of
/// memory at the end loses nothing.
fn print_export(rt: &impl Print, member: &OwnMember) -> Result<(), StreamFault>
    ensures { IfErr result (λ fault. fault ≡ StreamFault.Write) }
{
    let mut writer = Writer::new(io::writer(rt));
    write_export(member, &mut writer).map_err(|_| StreamFault::Write)?;
    write_text(&mut writer, b"\n")
}
