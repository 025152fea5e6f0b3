//! A node's metrics in Prometheus' text format.

ghost use Rattle.std.specs.Prelude.{◌≡◌, ◌++◌, IfOk, OnOk};
ghost use Rattle.std.specs.List.{flat_map};
ghost use Rattle.payd.specs.Metrics.{comment_line, fronts_from, label_words, metric_words};
ghost use Rattle.payd.specs.Metrics.{metrics_words, sample_if, sample_line, sample_of_peer};
ghost use Rattle.payd.specs.Metrics.{samples_of, type_of, value_of_peer};

use pay_frame::SEQS;
use pay_net::{NodeFigures, PeerFigures};
use pay_text::{push_number, push_word};
use std::alloc::{AllocError, Global};

/// The metrics that come from the program, the system and the input of a node's desk.
#[derive(Clone, Copy)]
pub(crate) struct OwnFigures {
    pub(crate) version: &'static str,
    /// The node's start, in seconds since 1970.
    pub(crate) started_seconds: Option<u64>,
    pub(crate) log_bytes: Option<u64>,
    pub(crate) resident_bytes: Option<u64>,
    pub(crate) reads_left: u64,
}

#[derive(Clone, Copy)]
enum Figure {
    /// A metric of each peer.
    Peer(OfPeer),
    /// The settled entries of each account.
    SettledEntries,
    /// The program's version, which is a label.
    Build,
    PeersMet,
    PeersLost,
    Balance,
    SentFrames,
    HistoryEntries,
    ValuesUsed,
    ValuesLeft,
    WaitingEntries,
    WaitingShort,
    DurableEntries,
    LogBytes,
    ResidentBytes,
    ReadsLeft,
    StartTime,
}

#[derive(Clone, Copy)]
enum OfPeer {
    Met,
    Unopened,
    Lied,
    SilentSeconds,
    AskedFrames,
}

/// All metrics, in their order: what each shows, its name after `payd_`, and its help. A name that
/// ends in `_total` belongs to a counter.
const METRICS: [(Figure, &str, &str); 21] = [
    (Figure::PeersMet, "peers_met", "Peers that are met."),
    (
        Figure::PeersLost,
        "peers_lost",
        "Peers that were met and are not now, or were given up.",
    ),
    (
        Figure::Peer(OfPeer::Met),
        "peer_met",
        "Whether a peer is met.",
    ),
    (
        Figure::Peer(OfPeer::Unopened),
        "peer_unopened",
        "Whether a frame in its name did not open.",
    ),
    (
        Figure::Peer(OfPeer::Lied),
        "peer_lied",
        "Whether it lied: nothing more is read from it.",
    ),
    (
        Figure::Peer(OfPeer::SilentSeconds),
        "peer_silent_seconds",
        "Seconds since its last frame.",
    ),
    (
        Figure::Peer(OfPeer::AskedFrames),
        "peer_asked_frames_total",
        "Frames that it asked for.",
    ),
    (
        Figure::SettledEntries,
        "settled_entries_total",
        "Settled entries of an account: its front.",
    ),
    (
        Figure::Balance,
        "balance",
        "Balance of the node's own account.",
    ),
    (
        Figure::SentFrames,
        "sent_frames_total",
        "Frames that there are for each peer.",
    ),
    (
        Figure::HistoryEntries,
        "history_entries_total",
        "Entries of the member's history.",
    ),
    (
        Figure::ValuesUsed,
        "values_used",
        "Values of the own account that are used.",
    ),
    (
        Figure::ValuesLeft,
        "values_left",
        "Values of the own account that are left.",
    ),
    (
        Figure::WaitingEntries,
        "waiting_entries",
        "Own entries that wait, 1000 at most.",
    ),
    (
        Figure::WaitingShort,
        "waiting_short",
        "What the balance lacks of the first that waits.",
    ),
    (
        Figure::DurableEntries,
        "history_durable_entries_total",
        "History entries on the disk.",
    ),
    (
        Figure::LogBytes,
        "log_bytes",
        "Size of the log in the node's folder.",
    ),
    (
        Figure::ResidentBytes,
        "resident_memory_bytes",
        "Resident memory of the process.",
    ),
    (
        Figure::ReadsLeft,
        "input_reads_left",
        "Reads of the desk's input that are left.",
    ),
    (
        Figure::StartTime,
        "start_time_seconds",
        "When the node started, in seconds since 1970.",
    ),
    (
        Figure::Build,
        "build_info",
        "The version of the program that runs.",
    ),
];

/// What distinguishes the values of a metric.
#[derive(Clone, Copy)]
enum Label {
    Nothing,
    Peer(u16),
    Account(u64),
    Version(&'static str),
}

#[derive(Clone, Copy)]
struct Sample {
    label: Label,
    value: u64,
}

/// Returns the text of all metrics in `node` and `own`, without those that have no value.
// promise: figures
pub(crate) fn metrics_text(
    alloc: Global,
    node: &NodeFigures,
    own: &OwnFigures,
) -> Result<Vec<u8>, AllocError>
    ensures { IfOk result (λ text. text.items ≡ metrics_words node.now own.now) }
{
    let mut text = Vec::new(alloc);
    for (figure, name, help) in METRICS.iter() {
        let samples = samples_of(alloc, *figure, node, own)?;
        push_metric(&mut text, name, help, samples.as_slice())?;
    }
    Ok(text)
}

/// Returns the values of `figure` that are known.
fn samples_of(
    alloc: Global,
    figure: Figure,
    node: &NodeFigures,
    own: &OwnFigures,
) -> Result<Vec<Sample>, AllocError>
    ensures { IfOk result (λ samples. samples.items ≡ samples_of node.now own.now figure) }
{
    let (peers, member) = (node.peers.as_slice(), &node.member);
    let value = match figure {
        Figure::Peer(of) => return samples_of_peers(alloc, of, peers),
        Figure::SettledEntries => return samples_of_fronts(alloc, member.fronts.as_slice()),
        Figure::Build => return sample_if(alloc, Label::Version(own.version), Some(1)),
        Figure::PeersMet => Some(peers.iter().filter(|peer| peer.is_met()).count() as u64),
        Figure::PeersLost => Some(peers.iter().filter(|peer| peer.is_lost()).count() as u64),
        Figure::Balance => Some(member.balance),
        Figure::SentFrames => Some(member.sent),
        Figure::HistoryEntries => Some(member.entries as u64),
        Figure::ValuesUsed => Some(u64::from(member.used)),
        Figure::ValuesLeft => Some(u64::from(SEQS.saturating_sub(member.used))),
        Figure::WaitingEntries => Some(member.waiting as u64),
        Figure::WaitingShort => Some(member.short),
        Figure::DurableEntries => node.durable.map(|entries| entries as u64),
        Figure::LogBytes => own.log_bytes,
        Figure::ResidentBytes => own.resident_bytes,
        Figure::ReadsLeft => Some(own.reads_left),
        Figure::StartTime => own.started_seconds,
    };
    sample_if(alloc, Label::Nothing, value)
}

/// Returns the sample of `value`, if it is known.
fn sample_if(alloc: Global, label: Label, value: Option<u64>) -> Result<Vec<Sample>, AllocError>
    ensures { IfOk result (λ samples. samples.items ≡ sample_if label value) }
{
    let mut samples = Vec::new(alloc);
    if let Some(value) = value {
        samples.push(Sample { label, value })?;
    }
    Ok(samples)
}

/// Returns a sample of `figure` for each of the `peers` with a known value.
fn samples_of_peers(
    alloc: Global,
    figure: OfPeer,
    peers: &[PeerFigures],
) -> Result<Vec<Sample>, AllocError>
    ensures { IfOk result (λ samples.
        samples.items ≡ flat_map (sample_of_peer figure) peers.now) }
{
    let mut samples = Vec::new(alloc);
    for peer in peers {
        if let Some(value) = value_of_peer(figure, peer) {
            let label = Label::Peer(peer.peer);
            samples.push(Sample { label, value })?;
        }
    }
    Ok(samples)
}

fn value_of_peer(figure: OfPeer, peer: &PeerFigures) -> Option<u64>
    ensures { result ≡ value_of_peer figure peer.now }
{
    match figure {
        OfPeer::Met => Some(u64::from(peer.is_met())),
        OfPeer::Unopened => Some(u64::from(peer.mistrusted)),
        OfPeer::Lied => Some(u64::from(peer.has_lied())),
        OfPeer::SilentSeconds => peer.silent_seconds,
        OfPeer::AskedFrames => Some(peer.asked),
    }
}

/// Returns a sample of each account, its front in `fronts`.
fn samples_of_fronts(alloc: Global, fronts: &[u32]) -> Result<Vec<Sample>, AllocError>
    ensures { IfOk result (λ samples. samples.items ≡ fronts_from 0 fronts.now) }
{
    let mut samples = Vec::new(alloc);
    for (account, front) in fronts.iter().enumerate() {
        let label = Label::Account(account as u64);
        let value = u64::from(*front);
        samples.push(Sample { label, value })?;
    }
    Ok(samples)
}

/// Appends the comments and the `samples` of the metric `name` to `text`, if it has samples.
fn push_metric(
    text: &mut Vec<u8>,
    name: &str,
    help: &str,
    samples: &[Sample],
) -> Result<(), AllocError>
    ensures { OnOk result (text.new.items
        ≡ text.old.items ++ metric_words name.now help.now samples.now) }
{
    if samples.is_empty() {
        return Ok(());
    }
    push_comment(text, "# HELP payd_", name, help)?;
    push_comment(text, "# TYPE payd_", name, type_of(name))?;
    for sample in samples {
        push_sample(text, name, *sample)?;
    }
    Ok(())
}

fn type_of(name: &str) -> &'static str
    ensures { result.now ≡ type_of name.now }
{
    if name.as_bytes().ends_with(b"_total") {
        "counter"
    } else {
        "gauge"
    }
}

fn push_comment(text: &mut Vec<u8>, mark: &str, name: &str, said: &str) -> Result<(), AllocError>
    ensures { OnOk result (text.new.items
        ≡ text.old.items ++ comment_line mark.now name.now said.now) }
{
    push_word(text, mark)?;
    push_word(text, name)?;
    push_word(text, " ")?;
    push_word(text, said)?;
    push_word(text, "\n")
}

/// Appends the line of a `sample` of the metric `name` to `text`, such as
/// `payd_peer_met{peer="1"} 1`.
fn push_sample(text: &mut Vec<u8>, name: &str, sample: Sample) -> Result<(), AllocError>
    ensures { OnOk result (text.new.items ≡ text.old.items ++ sample_line name.now sample) }
{
    push_word(text, "payd_")?;
    push_word(text, name)?;
    push_label(text, sample.label)?;
    push_word(text, " ")?;
    push_number(text, sample.value)?;
    push_word(text, "\n")
}

fn push_label(text: &mut Vec<u8>, label: Label) -> Result<(), AllocError>
    ensures { OnOk result (text.new.items ≡ text.old.items ++ label_words label) }
{
    match label {
        Label::Nothing => return Ok(()),
        Label::Peer(peer) => {
            push_word(text, "{peer=\"")?;
            push_number(text, u64::from(peer))?;
        }
        Label::Account(account) => {
            push_word(text, "{account=\"")?;
            push_number(text, account)?;
        }
        Label::Version(version) => {
            push_word(text, "{version=\"")?;
            push_word(text, version)?;
        }
    }
    push_word(text, "\"}")
}
