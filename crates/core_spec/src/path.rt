//! Paths through types.

ghost use Rattle.std.specs.Prelude.{◌≡◌, ◌-◌, ◌++◌, ◌∷◌, [], length, slice_get, OnOk, OnErr};

use std::alloc::{AllocError, AllocFailed, Global};
use std::marker::Model;

/// A member, an element or a variant of a type, by its index.
#[derive(Clone, Copy, Debug)]
pub struct Place {
    /// The type's id, after modifiers.
    pub type_id: u32,
    pub index: u64,
}

/// A step of a path.
#[derive(Clone, Copy, Debug)]
pub enum Step {
    /// To the element of a type at an index.
    Element(Place),
    /// To a member of a struct or union that has a name.
    Member(Place),
    /// To a variant of an enum, or of a union that stands for one.
    Variant(Place),
}

/// The steps of a path.
#[derive(Debug, Drop)]
pub struct Steps {
    steps: Vec<Step>,
}

impl Model for Steps {
    ghost use Rattle.std.specs.Prelude.{List};
    ghost use Rattle.core_spec.specs.declared.path.Step.{Step};

    ghost Value = { List Step };

    ghost view = { λ s. s.steps.items };
}

impl Steps {
    pub fn new(alloc: Global) -> Steps
        ensures { result ≡ [] }
    {
        Steps {
            steps: Vec::new(alloc),
        }
    }

    pub fn push(&mut self, step: Step) -> Result<(), AllocError>
        ensures ok { OnOk result (self.new ≡ self.old ++ step ∷ []) }
        ensures err { OnErr result (self.new ≡ self.old) }
    {
        match self.steps.push(step) {
            Ok(()) => Ok(()),
            Err(_) => Err(AllocError),
        }
    }

    pub fn as_slice(&self) -> &[Step]
        ensures { result.now ≡ self.now }
    {
        self.steps.as_slice()
    }

    /// The last step of the path.
    pub fn last(&self) -> Option<Step>
        ensures { result ≡ slice_get self.now (length self.now - 1) }
    {
        self.steps.as_slice().last().copied()
    }
}

/// A path to a part of a type, or to the whole type.
#[derive(Debug, Drop)]
pub struct AccessPath {
    /// The id of the type that it begins with.
    pub type_id: u32,
    /// Its steps: the elements and the members with names for a path to a field, one variant for a
    /// path to a variant, and none for a path to the whole type.
    pub steps: Steps,
    /// The offset of its field from the type's beginning, in bits; 0 for a path that isn't to a
    /// field.
    pub bit_offset: u32,
}
