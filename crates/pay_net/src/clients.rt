//! A node's desk under its lock, and the clients that share it.

ghost use Rattle.std.specs.Prelude.{◌≡◌, IfOk, OnErr, OnOk};
ghost use Rattle.std.specs.Option.{option_copied};
ghost use Rattle.pay_desk.specs.Desk.{DeskSays};
ghost use Rattle.pay_desk.specs.declared.desk.Desk.{Desk};
ghost use Rattle.pay_frame.specs.Counts.{KeepsCounts, counts_of, no_other_faults};
ghost use Rattle.pay_net.specs.Desks.{IsMadeOf, AnswersClient, WritesClient, desk_streams};
ghost use Rattle.pay_peers.specs.Telling.{TellerFields, TellerSays};
ghost use Rattle.pay_text.specs.Answers.{text_bytes};

use crate::accepting::{Host, PAUSE_MILLIS};
use crate::connections::Connections;
use pay_desk::{Desk, MOST_LINE};
use pay_durable::{DurableOutput, Keeper};
use pay_frame::{Input, Output, Reader, StreamFault, Writer};
use pay_node::{Beginning, Node, Seat};
use pay_peers::NodeTeller;
use pay_text::{Answer, Answerer, run_lines};
use std::alloc::{AllocError, Global};
use std::io::{ErrorKind, Read};
use std::marker::{Brand, Model};
use std::net::TcpStream;
use std::sync::atomic::{AtomicBool, Ordering};
use std::sync::{Mutex, Wait};
use std::time::{Clock, Duration};
use std::{io, thread};

/// The desk that a node begins with. The caller that starts a node picks it, so that the type of
/// the desk under the lock can name it.
pub(crate) trait FirstDesk {
    ghost use Rattle.pay_desk.specs.declared.desk.Desk.{Desk};
    ghost use Rattle.pay_peers.specs.Telling.{TellerFields};

    ghost first: { Desk TellerFields };
}

/// The desk is picked when a node is started.
impl FirstDesk for Brand {
    ghost use Rattle.pay_net.specs.Desks.{no_desk};

    ghost first = { no_desk };
}

/// The desk under the lock: what some lines, whoever gave them, made of the first desk.
#[derive(Drop)]
pub(crate) struct NodeDesk<'a, R, S: Beginning + FirstDesk, K> {
    desk: Desk<NodeTeller<'a, R, S, K>>,
}

impl<'a, R, S: Beginning + FirstDesk, K> Model for NodeDesk<'a, R, S, K> {
    ghost use Rattle.pay_desk.specs.declared.desk.Desk.{Desk};
    ghost use Rattle.pay_net.specs.Desks.{IsMadeOf};
    ghost use Rattle.pay_peers.specs.Telling.{TellerFields};

    ghost Value = { Desk TellerFields };

    ghost view = { λ d. d.desk };

    ghost invariant = { λ d. IsMadeOf S.first d.desk };
}

impl<'a, R: Wait, S: Beginning + FirstDesk, K: Keeper> NodeDesk<'a, R, S, K> {
    /// Creates a node's desk from `desk`, which the node begins with.
    pub(crate) fn new(desk: Desk<NodeTeller<'a, R, S, K>>) -> NodeDesk<'a, R, S, K>
        requires { desk ≡ S.first }
        ensures { result ≡ desk.entry }
    {
        NodeDesk { desk }
    }

    /// Answers `line` of a client, or `None` for a line that is over the bound.
    // promise: one desk
    pub(crate) fn answer(
        &mut self,
        alloc: Global,
        line: Option<&[u8]>,
    ) -> Result<Answer, AllocError>
        ensures said { IfOk result (λ answer. DeskSays TellerSays self.old
            (option_copied line.entry) (text_bytes answer.text) answer.goes_on self.new) }
        ensures made { IsMadeOf S.first self.old }
        ensures err { OnErr result (self.new ≡ self.old) }
    {
        self.desk.answer(alloc, line)
    }

    /// Returns the seat that the desk called the node from.
    // promise: one desk
    pub(crate) fn into_seat(self) -> Seat
        ensures { (desk : Desk TellerFields) × IsMadeOf S.first desk × (desk.teller.seat ≡ result) }
    {
        self.desk.into_teller().into_seat()
    }
}

/// The most clients that a node's desk has at once, besides its input.
/// `tools/payd_tools/desk_client.py` is a client in Python.
pub const MOST_CLIENTS: u16 = 16;

/// The seconds for which a client may be silent, or not accept an answer, until its connection is
/// closed.
const IDLE_SECONDS: u64 = 600;

/// The most times that a newcomer looks for a place until the client that was idle all the while
/// makes room.
const TURNS: u32 = 100;

/// A client of a node's desk.
#[derive(Drop)]
struct Client<'a, 'n, R, S: Beginning + FirstDesk, K> {
    rt: &'a R,
    desk: &'a Mutex<NodeDesk<'n, R, S, K>>,
}

/// No clause says what a lock protects.
impl<'a, 'n, R, S: Beginning + FirstDesk, K> Model for Client<'a, 'n, R, S, K> {
    ghost Value = { Unit {0} };

    ghost view = { λ _. tt };
}

impl<R, S, K> Answerer for Client<'_, '_, R, S, K>
where
    R: Wait,
    S: Beginning + FirstDesk,
    K: Keeper,
{
    ghost use Rattle.std.specs.Prelude.{⊤};
    ghost use Rattle.pay_net.specs.Desks.{AnswersClient};

    ghost says = { λ old line text on new. AnswersClient S.first line text on };

    ghost gives_up = { λ old new. ⊤ };

    fn answer(&mut self, alloc: Global, line: Option<&[u8]>) -> Result<Answer, AllocError> {
        let mut desk = self.desk.lock(self.rt);
        desk.answer(alloc, line)
    }
}

/// Answers the lines of a client, to the end of its input. Other clients are answered between any
/// two of its lines. A line over the bound is refused as a whole. If memory runs out the answer
/// says so, and the loop continues.
///
/// After a fault, a prefix of the answers has been written.
// promise: one desk (text, counts)
pub(crate) fn serve_client<R, S, K, In, Out>(
    rt: &R,
    alloc: Global,
    desk: &Mutex<NodeDesk<'_, R, S, K>>,
    reader: &mut In,
    writer: &mut Out,
) -> Result<(), StreamFault>
where
    R: Wait,
    S: Beginning + FirstDesk,
    K: Keeper,
    In: Input,
    Out: Output,
    ensures text { WritesClient S.first
        (desk_streams (In.remaining reader.old) (In.remaining reader.new)
        (Out.contents writer.old) (Out.contents writer.new)) result }
    ensures counts { let counted =
        counts_of In.call_count In.failure_count In.remaining Out.failure_count in
        KeepsCounts no_other_faults
        (counted reader.old writer.old) (counted reader.new writer.new) result }
{
    let mut client = Client { rt, desk };
    run_lines(alloc, MOST_LINE, &mut client, reader, writer)?;
    Ok(())
}

/// A client's input from a socket. Its connection notes that something was read.
#[derive(Drop)]
struct HeardStream<'a> {
    stream: &'a TcpStream,
    connections: &'a Connections,
    place: usize,
    // whether what was read up to now ends in the middle of a line
    is_within_line: bool,
}

impl Read for HeardStream<'_> {
    ghost use Rattle.std.specs.Prelude.{None};

    ghost remaining = { λ _. None };

    // Reads from the socket. An end in the middle of a line is a fault, so that nobody answers half
    // a line.
    fn read(&mut self, buffer: &mut [u8]) -> io::Result<usize> {
        let mut stream = self.stream;
        let count = stream.read(buffer)?;
        self.connections.hear(self.place);
        match buffer[..count].last() {
            Some(byte) => self.is_within_line = *byte != b'\n',
            None if self.is_within_line => return Err(io::Error::from(ErrorKind::UnexpectedEof)),
            None => {}
        }
        Ok(count)
    }
}

/// A node's desk, as its clients on the socket use it.
#[derive(Drop)]
pub(crate) struct Clients<'a, 'n, R, S: Beginning + FirstDesk, K> {
    pub rt: &'a R,
    pub alloc: Global,
    pub node: &'a Node<S>,
    pub keeper: &'a K,
    pub desk: &'a Mutex<NodeDesk<'n, R, S, K>>,
    pub connections: &'a Connections,
    pub stop: &'a AtomicBool,
}

impl<R, S, K> Host for Clients<'_, '_, R, S, K>
where
    R: Wait,
    S: Beginning + FirstDesk,
    K: Keeper,
{
    fn admit<H: Wait + Clock>(&self, rt: &H, stream: &TcpStream) -> Option<usize> {
        let mut since = self.connections.times_heard();
        let mut turns: u32 = 0;
        for _ in rt.forever() {
            if let Some(place) = self.connections.keep(rt, self.stop, stream) {
                return Some(place);
            }
            if self.stop.load(Ordering::SeqCst) {
                return None;
            }
            thread::sleep(rt, Duration::from_millis(PAUSE_MILLIS));
            turns = turns.saturating_add(1);
            if turns >= TURNS {
                self.connections.shut_idlest(rt, since);
                since = self.connections.times_heard();
                turns = 0;
            }
        }
        None
    }

    fn attend<H: Wait>(&self, rt: &H, stream: &TcpStream, place: usize) {
        let idle = Some(Duration::from_secs(IDLE_SECONDS));
        let _ = stream.set_read_timeout(idle);
        let _ = stream.set_write_timeout(idle);
        let mut reader = Reader::new(HeardStream {
            stream,
            connections: self.connections,
            place,
            is_within_line: false,
        });
        let mut writer = DurableOutput::new(self.rt, self.keeper, self.node, Writer::new(stream));
        let _ = serve_client(self.rt, self.alloc, self.desk, &mut reader, &mut writer);
        self.connections.shut(rt, place);
    }

    fn turn_away<H: Wait>(&self, rt: &H, place: usize) {
        self.connections.shut(rt, place);
    }
}
