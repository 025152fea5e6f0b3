//! The gate that says whether a node's history is on the disk, and an output that writes nothing
//! before it is.

ghost use Rattle.std.specs.Prelude.{◌≡◌, IfSome, IsTrue, OnErr, ℕ, None, ◌<◌, IfOk, length};
ghost use Rattle.std.specs.Io.{WritesAtMost};
ghost use Rattle.std.specs.Io.KnownBytes.{WriteAppends};
ghost use Rattle.pay_durable.specs.Kept.{HasAtLeast};
ghost use Rattle.pay_frame.specs.Device.{next_count, failures_after};
ghost use Rattle.pay_node.specs.Nodes.{NodeFields};

use pay_frame::{DeviceFailed, Output};
use pay_node::{Beginning, Node};
use std::alloc::AllocError;
use std::sync::Wait;

/// A durability gate: it says whether a node's history is on the disk.
pub trait Keeper {
    // Says what a yes means for a node.
    ghost kept: { Self → NodeFields → Type 0 };

    // Says that this many entries are on the disk.
    ghost has: { Self → ℕ → Type 0 };

    /// Waits until all that the history of `node` has at the call is on the disk. Returns `false`
    /// if that failed: from then on nothing leaves the node.
    fn keep<R: Wait, S: Beginning>(&self, rt: &R, node: &Node<S>) -> bool
        ensures { IsTrue result → kept self.now node.now };

    /// Returns whether at least `entries` entries of the history are on the disk, if they are kept
    /// there.
    // promise: node's end
    fn has_entries<R: Wait>(&self, rt: &R, entries: usize) -> bool
        ensures { IsTrue result → HasAtLeast (has self.now) entries };

    /// Notes the `id` of the owner's next payment, before the payment is submitted to the node. Its
    /// value will have the number `seq`, if it gets one.
    fn order<R: Wait>(&self, rt: &R, seq: u32, id: u64) -> Result<(), AllocError>;

    /// Returns how many entries of the history are on the disk, if they are kept there and the
    /// count is known.
    // promise: nothing is lost
    fn durable<R: Wait>(&self, rt: &R) -> Option<usize>
        ensures { IfSome result (has self.now) };
}

/// The gate of a node with its member in memory alone: nothing is kept, and nothing waits.
#[derive(Clone, Copy, Debug)]
pub struct Unkept;

impl Keeper for Unkept {
    ghost kept = { λ _ _. Unit {0} };

    ghost has = { λ _ _. Unit {0} };

    fn keep<R: Wait, S: Beginning>(&self, _rt: &R, _node: &Node<S>) -> bool
        ensures kept { IsTrue result → Unit {0} }
        ensures always { IsTrue result }
    {
        true
    }

    fn has_entries<R: Wait>(&self, _rt: &R, entries: usize) -> bool
        ensures kept { IsTrue result → HasAtLeast (λ _. Unit {0}) entries }
        ensures always { IsTrue result }
    {
        true
    }

    fn order<R: Wait>(&self, _rt: &R, _seq: u32, _id: u64) -> Result<(), AllocError>
        ensures { OnErr result ⊥ }
    {
        Ok(())
    }

    fn durable<R: Wait>(&self, _rt: &R) -> Option<usize>
        ensures { result ≡ None }
    {
        None
    }
}

/// An output that nobody can write to without a durability gate's yes.
#[derive(Drop)]
pub(crate) struct WithheldOutput<W> {
    output: W,
}

impl<W> WithheldOutput<W> {
    pub(crate) fn new(output: W) -> WithheldOutput<W>
        ensures { result.output ≡ output }
    {
        WithheldOutput { output }
    }

    /// Returns the output.
    pub(crate) fn into_output(self) -> W
        ensures { result ≡ self.output }
    {
        self.output
    }
}

impl<W: Output> WithheldOutput<W> {
    /// Writes `bytes`, after `keeper` said that it has the history of `node`.
    // promise: nothing is lost
    pub(crate) fn write<K: Keeper, S: Beginning>(
        &mut self,
        keeper: &K,
        node: &Node<S>,
        bytes: &[u8],
    ) -> Result<usize, DeviceFailed>
        requires { K.kept keeper.now node.now }
        ensures bound { WritesAtMost result bytes.now }
        ensures some { IfOk result (λ count. 0 < length bytes.now → 0 < count) }
        ensures bytes { WriteAppends (W.contents self.old.output) (W.contents self.new.output)
            result bytes.now }
    {
        let _ = keeper;
        let _ = node;
        self.output.write(bytes)
    }
}

/// An output that is written to only after its durability gate has kept all of the node's history.
/// If that fails, its writes fail.
///
/// This struct owns the output: nothing is known about a struct that holds a `&mut` after a loop
/// had it.
#[derive(Drop)]
pub struct DurableOutput<'a, R, K, S: Beginning, W> {
    rt: &'a R,
    keeper: &'a K,
    node: &'a Node<S>,
    inner: WithheldOutput<W>,
    calls: u64,
    failures: u64,
}

impl<'a, R, K, S: Beginning, W> DurableOutput<'a, R, K, S, W> {
    /// Creates an output over `inner` to which nothing was written. `keeper` is the durability gate
    /// of `node`.
    pub fn new(
        rt: &'a R,
        keeper: &'a K,
        node: &'a Node<S>,
        inner: W,
    ) -> DurableOutput<'a, R, K, S, W>
        ensures inner { result.inner.output ≡ inner }
        ensures calls { result.calls ≡ 0 }
        ensures failures { result.failures ≡ 0 }
    {
        DurableOutput {
            rt,
            keeper,
            node,
            inner: WithheldOutput::new(inner),
            calls: 0,
            failures: 0,
        }
    }

    /// Returns the output inside.
    pub fn into_inner(self) -> W
        ensures { result ≡ self.entry.inner.output }
    {
        let DurableOutput { inner, .. } = self;
        inner.into_output()
    }
}

impl<R: Wait, K: Keeper, S: Beginning, W: Output> Output for DurableOutput<'_, R, K, S, W> {
    ghost contents = { λ b. W.contents b.inner.output };

    ghost call_count = { λ b. b.calls };

    ghost failure_count = { λ b. b.failures };

    // promise: nothing is lost (gated)
    fn write(&mut self, bytes: &[u8]) -> Result<usize, DeviceFailed>
        ensures gated { IfOk result (λ _. K.kept self.old.keeper.now self.old.node.now) }
        ensures bound { WritesAtMost result bytes.now }
        ensures some { IfOk result (λ count. 0 < length bytes.now → 0 < count) }
        ensures bytes { WriteAppends (W.contents self.old.inner.output)
            (W.contents self.new.inner.output) result bytes.now }
        ensures called { self.new.calls ≡ next_count self.old.calls }
        ensures failed { self.new.failures ≡ failures_after self.old.failures result }
    {
        self.calls = self.calls.saturating_add(1);
        if !self.keeper.keep(self.rt, self.node) {
            self.failures = self.failures.saturating_add(1);
            return Err(DeviceFailed);
        }
        match self.inner.write(self.keeper, self.node, bytes) {
            Ok(count) => Ok(count),
            Err(_) => {
                self.failures = self.failures.saturating_add(1);
                Err(DeviceFailed)
            }
        }
    }

    fn calls(&self) -> u64 {
        self.calls
    }

    fn failures(&self) -> u64 {
        self.failures
    }
}
