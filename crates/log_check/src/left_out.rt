//! The steps of a log that aren't legal.

ghost use Rattle.std.specs.Prelude.{◌≡◌, ◌+◌, ◌^◌, ◌<◌, [], ◌∷◌, ◌++◌, IfErr, List, OnOk, take};
ghost use Rattle.log_check.specs.Taking.{AreLeftOut};
ghost use Rattle.log_check.specs.declared.verdict.IllegalStep.{IllegalStep};
ghost use Rattle.log_check.specs.declared.verdict.LogFault.TheVariants.{NoMemory};

use crate::verdict::{IllegalStep, LogFault};
use std::alloc::{AllocError, Global};

// The most steps that are kept.
const MAX_FIRST: usize = 1_000;

/// The steps that aren't legal: how many, and the first 1,000 of them.
#[derive(Drop)]
pub(crate) struct LeftOut {
    pub(crate) count: u64,
    pub(crate) first: Vec<IllegalStep>,
}

impl LeftOut {
    /// No step so far.
    pub(crate) fn new(alloc: Global) -> LeftOut
        ensures none { AreLeftOut [] result }
        ensures count { result.count ≡ 0 }
    {
        LeftOut {
            count: 0,
            first: Vec::new(alloc),
        }
    }

    /// Notes one step more.
    pub(crate) fn note(&mut self, illegal: IllegalStep) -> Result<(), LogFault>
        requires few { self.old.count + 1 < 2 ^ 64 }
        ensures noted { OnOk result ((before : List IllegalStep) → AreLeftOut before self.old
            → AreLeftOut (before ++ illegal ∷ []) self.new) }
        ensures fault { IfErr result (λ fault. fault ≡ NoMemory) }
        ensures count { self.new.count ≡ self.old.count + 1 }
    {
        self.count += 1;
        match push_below(&mut self.first, MAX_FIRST, illegal) {
            Ok(()) => Ok(()),
            Err(_) => Err(LogFault::NoMemory),
        }
    }
}

// Adds an item if there are fewer than `most`.
fn push_below<T: Copy>(items: &mut Vec<T>, most: usize, item: T) -> Result<(), AllocError>
    ensures { OnOk result (items.old.items ≡ take most items.old.items
        → items.new.items ≡ take most (items.old.items ++ item ∷ [])) }
{
    if items.len() >= most {
        return Ok(());
    }
    match items.push(item) {
        Ok(()) => Ok(()),
        Err(_) => Err(AllocError),
    }
}
