//! The pairs of types of a comparison.

ghost use Rattle.std.specs.Prelude.{◌≡◌, ◌+◌, ◌<◌, ◌^◌, [], ◌∷◌, ◌++◌, OnOk};
ghost use Rattle.btf_compatibility.specs.Pairs.{SetsState, state_of};

use std::alloc::{AllocError, Global};
use std::collections::BTreeMap;

/// A pair of types whose parts are being compared.
#[derive(Clone, Copy)]
pub(crate) struct OpenPair {
    pub(crate) left: u32,
    pub(crate) right: u32,
    /// The index of its next part.
    pub(crate) next: usize,
}

/// The state of the comparison of a pair.
#[derive(Clone, Copy)]
pub(crate) enum PairState {
    Open,
    /// All its parts are compatible.
    Settled,
}

/// The pairs that were entered, and the open ones, each a part of the one before.
#[derive(Drop)]
pub(crate) struct Pairs {
    pub(crate) open: Vec<OpenPair>,
    pub(crate) states: BTreeMap<(u32, u32), PairState>,
}

impl Pairs {
    pub(crate) fn new(alloc: Global) -> Pairs
        ensures open { result.open.items ≡ [] }
        ensures states { result.states.entries ≡ [] }
    {
        Pairs {
            open: Vec::new(alloc),
            states: BTreeMap::new(alloc),
        }
    }

    #[tactic(auto, unfolding(crate::specs::Pairs::state_of))]
    pub(crate) fn state(&self, left: u32, right: u32) -> Option<PairState>
        ensures { result ≡ state_of self.now.states.entries left right }
    {
        self.states.get(&(left, right)).copied()
    }

    /// Opens a pair that wasn't entered yet.
    pub(crate) fn open(&mut self, left: u32, right: u32) -> Result<(), AllocError>
        ensures pushed { OnOk result
            (self.new.open.items
            ≡ self.old.open.items ++ record { left = left; right = right; next = 0 } ∷ []) }
        ensures state { OnOk result
            (SetsState self.old.states.entries self.new.states.entries left right PairState.Open) }
    {
        self.states.insert((left, right), PairState::Open)?;
        self.open.push(OpenPair {
            left,
            right,
            next: 0,
        })?;
        Ok(())
    }

    /// Records that a pair is compatible.
    pub(crate) fn settle(&mut self, left: u32, right: u32) -> Result<(), AllocError>
        ensures open { self.new.open.items ≡ self.old.open.items }
        ensures state { OnOk result
            (SetsState self.old.states.entries self.new.states.entries left right
            PairState.Settled) }
    {
        self.states.insert((left, right), PairState::Settled)?;
        Ok(())
    }
}
