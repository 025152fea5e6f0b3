//! What a desk keeps: the submitted payments, each under its id.

ghost use Rattle.std.specs.Prelude.{◌≡◌, ◌==◌, ◌≤◌, [], ◌∷◌, ◌++◌, None, OnErr, OnOk, length};
ghost use Rattle.std.proofs.Common.{rules};
ghost use Rattle.std.specs.Cmp.Rules.{comparing, hashing};
ghost use Rattle.std.specs.Option.{option_copied};
ghost use Rattle.pay_desk.specs.Calls.{Asks};
ghost use Rattle.pay_desk.specs.Kept.{kept_after, kept_under};
ghost use Rattle.std.specs.Hash as fed;

use crate::fault::TellerFault;
use crate::teller::Teller;
use indexmap::IndexSet;
use pay_frame::{Bytes, GREATEST_VALUE};
use std::alloc::{AllocError, Global};
use std::hash::{Hash, Hasher};
use std::marker::Model;

/// A kept value. Two are equal if their ids are.
#[derive(Drop)]
pub(crate) struct ById {
    pub(crate) kept: Kept,
}

impl ById {
    /// Returns a value that equals all that is kept under this `id`.
    pub(crate) fn of_id(id: u64) -> ById
        ensures { result.kept.id ≡ id }
    {
        ById {
            kept: Kept {
                id,
                value: Bytes::empty(),
                seq: 0,
            },
        }
    }
}

impl PartialEq for ById {
    ghost eq = { λ a b. a.kept.id == b.kept.id };

    ghost laws = { Prim.search (comparing, rules) };

    fn eq(&self, other: &ById) -> bool {
        self.kept.id == other.kept.id
    }
}

impl Eq for ById {
    ghost laws = { Prim.search (comparing, rules) };
}

impl Hash for ById {
    ghost hash_input = { λ a. fed.u64 a.kept.id };

    ghost respects_eq = { Prim.search (hashing, rules) };

    fn hash<H: Hasher>(&self, state: &mut H) {
        self.kept.id.hash(state);
    }
}

/// A submitted value with its id, and the number that it got.
#[derive(Debug, Drop)]
pub struct Kept {
    pub id: u64,
    pub value: Bytes,
    pub seq: u32,
}

/// All submitted values, oldest first. A value is found by its id in constant time. Ids come from
/// the account's own owner, who gains nothing from ids that collide.
#[derive(Drop)]
pub struct KeptValues {
    values: IndexSet<ById>,
}

impl Model for KeptValues {
    ghost use Rattle.std.specs.Prelude.{List, map};
    ghost use Rattle.pay_desk.specs.declared.kept.ById.{ById};
    ghost use Rattle.pay_desk.specs.declared.kept.Kept.{Kept};

    ghost Value = { List Kept };

    ghost view = { λ k. map (λ (p : ById). p.kept) k.values.keys };
}

impl KeptValues {
    pub fn new(alloc: Global) -> KeptValues
        ensures { result ≡ [] }
    {
        KeptValues {
            values: IndexSet::new(alloc),
        }
    }

    /// Returns how many values are kept.
    pub fn len(&self) -> usize
        ensures { result ≡ length self.now }
    {
        self.values.len()
    }

    /// Returns what is kept under `id`.
    // promise: asked once
    pub fn find(&self, id: u64) -> Option<&Kept>
        ensures { option_copied result ≡ kept_under id self.now }
    {
        let value = self.values.get(&ById::of_id(id))?;
        Some(&value.kept)
    }

    /// Adds `kept`, which was submitted earlier, after all else.
    pub fn keep(&mut self, kept: Kept) -> Result<(), AllocError>
        requires { kept_under kept.id self.old ≡ None }
        ensures kept { OnOk result (self.new ≡ self.old ++ kept ∷ []) }
        ensures err { OnErr result (self.new ≡ self.old) }
    {
        self.values.reserve(1)?;
        self.values.insert(ById { kept })?;
        Ok(())
    }

    /// Has `teller` broadcast `value`, and keeps it as submitted under `id`. A lack of memory is
    /// reported before the teller is called, or by the teller. A refused value isn't kept.
    // promise: asked once; ids (replied)
    pub fn ask<T: Teller>(
        &mut self,
        alloc: Global,
        teller: &mut T,
        id: u64,
        value: Bytes,
    ) -> Result<u32, TellerFault>
        requires fresh { kept_under id self.old ≡ None }
        requires short { length value ≤ GREATEST_VALUE }
        ensures replied { Asks T.says teller.old id value result teller.new }
        ensures kept { self.new ≡ kept_after self.old id value result }
    {
        self.values.reserve(1)?;
        let copy = value.copy(alloc)?;
        let seq = teller.ask(alloc, id, value)?;
        let kept = Kept {
            id,
            value: copy,
            seq,
        };
        let Ok(_) = self.values.insert(ById { kept }) else {
            // never, for there is room
            return Err(TellerFault::Memory);
        };
        Ok(seq)
    }
}
