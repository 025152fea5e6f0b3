//! The workers beside a node's desk, until the node stops.

ghost use Rattle.std.specs.Prelude.{◌≡◌, ◌++◌, ◌∷◌, List, [], IfOk};
ghost use Rattle.pay_net.specs.Workers.{AllWorked, EndsInReader, HasWorked};
ghost use Rattle.pay_net.specs.declared.workers.Worker.{Worker};
ghost use Rattle.pay_net.specs.declared.workers.Worker.TheVariants.{Read};
ghost use Rattle.pay_peers.specs.Growing.{EachGrows};

use crate::accepting::{Answering, accept_all};
use crate::clients::{Clients, FirstDesk, NodeDesk};
use crate::contacts::News;
use crate::dialing::Dialer;
use crate::running::{NodeRuntime, Running};
use crate::watching::{Noticing, Watcher, Watching};
use pay_durable::Keeper;
use pay_node::{Beginning, OpenGate};
use pay_peers::{NodeContext, Observer, PeerReader, run_readers};
use std::alloc::{AllocError, Global};
use std::sync::Mutex;
use std::thread;
use std::time::Duration;

/// What a thread of a node does until the node stops.
#[derive(Drop)]
pub(crate) enum Worker {
    /// Looks whether the member has lost state or is out of memory.
    Notice,
    /// Answers the clients on the desk's socket, each in a thread of its own.
    Welcome,
    /// Answers the peers that connect, each connection in a thread of its own.
    Accept,
    /// Shows the node's metrics in intervals of this length.
    Show(Duration),
    /// Reads from all peers, each in a thread of its own, and has their seats.
    Read(Vec<(u16, PeerReader)>),
}

/// Returns the workers of a node that has these `readers`, and a socket if `has_socket` is set.
///
/// The reader is the last: if no thread can be made, it works and the others wait.
pub(crate) fn workers_of(
    alloc: Global,
    has_socket: bool,
    shown_every: Option<Duration>,
    readers: Vec<(u16, PeerReader)>,
) -> Result<Vec<Worker>, AllocError>
    ensures { IfOk result (λ workers. (others : List Worker)
        × (workers.items ≡ others ++ Read readers ∷ [])) }
{
    let mut workers = Vec::new(alloc);
    workers.push(Worker::Notice)?;
    if has_socket {
        workers.push(Worker::Welcome)?;
    }
    workers.push(Worker::Accept)?;
    if let Some(every) = shown_every {
        workers.push(Worker::Show(every))?;
    }
    workers.push(Worker::Read(readers))?;
    Ok(workers)
}

/// Returns the readers that the last of `workers` has, after all workers have ended.
pub(crate) fn readers_of(workers: Vec<Worker>) -> Vec<(u16, PeerReader)>
    requires { EndsInReader workers.items }
    ensures { (others : List Worker) × (workers.items ≡ others ++ Read result ∷ []) }
{
    let mut workers = workers;
    match workers.pop() {
        Some(Worker::Read(readers)) => readers,
        _ => unreachable!(),
    }
}

impl<H, S, O, K> Running<'_, H, S, O, K>
where
    H: NodeRuntime,
    S: Beginning + FirstDesk + Send + Sync,
    O: Observer<News> + Watcher + Sync,
    K: Keeper + Sync,
{
    /// Runs all `workers`, each in a thread of its own, until the node stops. `desk` answers the
    /// clients on the socket.
    pub(crate) fn work_all(&self, desk: &Mutex<NodeDesk<'_, H, S, K>>, workers: &mut Vec<Worker>)
        ensures { AllWorked workers.old.items workers.new.items }
    {
        let threads = workers.len().max(1);
        thread::for_each_mut(
            self.context.rt,
            workers.as_mut_slice(),
            threads,
            &|_, worker: &mut Worker|
                ensures { HasWorked worker.entry.now worker.exit.now }
            { self.work(desk, worker) },
        );
    }

    // Runs a worker.
    fn work(&self, desk: &Mutex<NodeDesk<'_, H, S, K>>, worker: &mut Worker)
        ensures { HasWorked worker.old worker.new }
    {
        match worker {
            Worker::Notice => self.notice(),
            Worker::Welcome => self.welcome(desk),
            Worker::Accept => self.accept(),
            Worker::Show(every) => self.show(*every),
            Worker::Read(readers) => self.read(readers.as_mut_slice()),
        }
    }

    fn notice(&self) {
        let noticing = Noticing {
            rt: self.context.rt,
            node: self.context.node,
            contacts: self.contacts,
            inbound: &self.waits.inbound,
            observer: self.config.observer,
            pause: &self.waits.pause,
        };
        noticing.run();
    }

    fn welcome(&self, desk: &Mutex<NodeDesk<'_, H, S, K>>) {
        let NodeContext {
            rt,
            alloc,
            node,
            ..
        } = *self.context;
        let clients = Clients {
            rt,
            alloc,
            node,
            keeper: self.config.keeper,
            desk,
            connections: &self.waits.clients,
            stop: &self.waits.stop,
        };
        if let Some(socket) = self.waits.socket {
            accept_all(rt, &clients, &self.waits.stop, socket);
        }
    }

    fn accept(&self) {
        let answering = Answering {
            context: self.context,
            keeper: self.config.keeper,
            seats: self.writers,
            inbound: &self.waits.inbound,
            observer: self.contacts,
            stop: &self.waits.stop,
        };
        accept_all(
            self.context.rt,
            &answering,
            &self.waits.stop,
            self.waits.listening,
        );
    }

    fn show(&self, every: Duration) {
        let NodeContext {
            rt,
            alloc,
            node,
            ..
        } = *self.context;
        let watching = Watching {
            rt,
            alloc,
            node,
            keeper: self.config.keeper,
            contacts: self.contacts,
            inbound: &self.waits.inbound,
            observer: self.config.observer,
            pause: &self.waits.pause,
        };
        watching.run(every);
    }

    fn read(&self, readers: &mut [(u16, PeerReader)])
        ensures { EachGrows readers.old readers.new }
    {
        let dialer = Dialer {
            rt: self.context.rt,
            ports: self.config.ports,
            dialed: &self.waits.dialed,
            stop: &self.waits.stop,
        };
        run_readers(
            self.context,
            &OpenGate,
            &dialer,
            self.contacts,
            self.config.dials,
            self.config.ahead,
            readers,
        );
    }
}
