//! Exports audited one by one: each is dropped as soon as it is accepted.

ghost use Rattle.std.specs.Prelude.{◌≡◌, ◌+◌, ◌<◌, ◌∷◌, ◌++◌, List, [], IfOk, unwrap_or};
ghost use Rattle.pay_audit.specs.Auditor.{HasTakenExports, IsWrongWith, taken_by};
ghost use Rattle.pay_audit.specs.Export.{ExportFields};
ghost use Rattle.pay_audit.specs.Verdict.{verdict_of};

use crate::auditing::Verdict;
use crate::comparison::Comparison;
use crate::exported::Export;
use crate::findings::Wrong;
use pay_link::Genesis;
use std::alloc::{AllocError, Global};

/// What is known about the exports accepted up to now: their count, the genesis of the first, what
/// is wrong with one of them, and how their lists compare.
#[derive(Debug, Drop)]
pub struct Auditor {
    taken: usize,
    genesis: Option<Genesis>,
    wrong: Wrong,
    comparison: Comparison,
}

impl Auditor {
    /// Creates an auditor without exports.
    pub fn new(alloc: Global) -> Auditor
        ensures taken { HasTakenExports [] result }
        ensures count { taken_by result ≡ 0 }
    {
        Auditor {
            taken: 0,
            genesis: None,
            wrong: Wrong::NOTHING,
            comparison: Comparison::new(alloc),
        }
    }

    /// Creates an auditor that has accepted `exports`.
    // promise: audits
    pub fn of(alloc: Global, exports: &[Export]) -> Result<Auditor, AllocError>
        ensures { IfOk result (HasTakenExports exports.now) }
    {
        let mut auditor = Auditor::new(alloc);
        for export in exports {
            auditor = auditor.add(alloc, export)?;
        }
        Ok(auditor)
    }

    /// Accepts one more `export`, and drops it.
    // promise: audits
    pub fn take(self, alloc: Global, export: Export) -> Result<Auditor, AllocError>
        requires { taken_by self < usize.MAX }
        ensures taken { IfOk result (λ auditor. (exports : List ExportFields)
            → HasTakenExports exports self → HasTakenExports (exports ++ export ∷ []) auditor) }
        ensures count { IfOk result (λ auditor. taken_by auditor ≡ taken_by self + 1) }
    {
        self.add(alloc, &export)
    }

    /// Judges and settles `export`, and adds it.
    fn add(self, alloc: Global, export: &Export) -> Result<Auditor, AllocError>
        requires { taken_by self < usize.MAX }
        ensures taken { IfOk result (λ auditor. (exports : List ExportFields)
            → HasTakenExports exports self → HasTakenExports (exports ++ export.now ∷ []) auditor) }
        ensures count { IfOk result (λ auditor. taken_by auditor ≡ taken_by self + 1) }
    {
        let wrong = self.wrong.with(alloc, &self.genesis, self.taken, export)?;
        self.with_lists(alloc, wrong, export)
    }

    /// Compares the lists of `export` with the longest lists up to now, and copies what is longer.
    /// `wrong` is what is wrong after `export` is added.
    fn with_lists(self, alloc: Global, wrong: Wrong, export: &Export) -> Result<Auditor, AllocError>
        requires count { taken_by self < usize.MAX }
        requires wrong { IsWrongWith self export.now wrong }
        ensures taken { IfOk result (λ auditor. (exports : List ExportFields)
            → HasTakenExports exports self → HasTakenExports (exports ++ export.now ∷ []) auditor) }
        ensures count { IfOk result (λ auditor. taken_by auditor ≡ taken_by self + 1) }
    {
        let Auditor {
            taken,
            genesis,
            mut comparison,
            ..
        } = self;
        if wrong.is_nothing() {
            comparison = comparison.add(alloc, export.lists.as_slice())?;
        }
        let first = first_or(alloc, genesis, &export.genesis)?;
        Ok(Auditor {
            taken: taken + 1,
            genesis: Some(first),
            wrong,
            comparison,
        })
    }

    /// Returns what is wrong with the accepted exports, if anything is. None of them is needed any
    /// more.
    #[tactic(auto, unfolding(crate::specs::Verdict::verdict_of))]
    // promise: audits
    pub fn verdict(&self) -> Verdict
        ensures { (exports : List ExportFields)
            → HasTakenExports exports self.now → result ≡ verdict_of exports }
    {
        if let Some(verdict) = self.wrong.genesis {
            return verdict;
        }
        if let Some(verdict) = self.wrong.front {
            return verdict;
        }
        if let Some(verdict) = self.wrong.balance {
            return verdict;
        }
        self.comparison.fork().unwrap_or(Verdict::Clean)
    }
}

// Returns the genesis of the first export, which is `genesis` if no export was accepted before.
fn first_or(alloc: Global, first: Option<Genesis>, genesis: &Genesis) -> Result<Genesis, AllocError>
    ensures { IfOk result (λ now. now ≡ unwrap_or first genesis.now) }
{
    match first {
        Some(first) => Ok(first),
        None => genesis.copy(alloc),
    }
}
