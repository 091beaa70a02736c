//! Why type relocations can't be made.

ghost use Rattle.std.specs.Prelude.{◌≡◌, ◌≢◌, None, Some, [], unwrap_or};
ghost use Rattle.std.specs.Option.{option_map};
ghost use Rattle.std.specs.String.{string_bytes};
ghost use Rattle.relocation_errors.specs.declared.type_relocations.BtfRelocationCause.TheVariants.{BtfError as TypeError, OutOfMemory};
ghost use Rattle.relocation_errors.specs.declared.place.RelocationPlace.TheVariants.{SectionInfo};

use crate::place::RelocationPlace;
use btf_records::BtfError;
use ebpf_items::RelocationKind;
use std::alloc::{AllocError, AllocFailed};
use thiserror::Error;

/// Why a type relocation, or a section info of type relocations, can't be made. Relocation numbers
/// count from 0 in their section info.
#[derive(Debug, Drop, Error)]
pub enum BtfRelocationCause {
    /// The object has no section of the section info's name.
    #[error("no section of this name")]
    SectionNotFound,
    /// No function of the section holds the instruction.
    #[error("no function holds the instruction")]
    FunctionNotFound,
    /// The access string isn't one or more 64-bit numbers joined by `:`, or its numbers aren't
    /// those that the relocation's kind calls for.
    #[error("invalid access string {access_str:?}")]
    InvalidAccessString {
        access_str: String,
    },
    /// A load of 64 bits has no second slot. `index` is the index of that slot in the function.
    /// Where the load was to become one that can't be run, `index` is in bytes from the function's
    /// beginning.
    #[error("relocation {relocation_number} needs instruction {index} of {num_instructions}")]
    InvalidInstructionIndex {
        index: usize,
        num_instructions: usize,
        relocation_number: usize,
    },
    /// Kernel types have what the relocation asks for at different places, or with different
    /// values. `type_name` is the name of the object's type. `candidates` are the names of the
    /// types that differ from the first.
    #[error("type {type_name:?} has conflicting candidates: {candidates:?}")]
    ConflictingCandidates {
        type_name: String,
        candidates: Vec<String>,
    },
    /// A path through a kernel type has too many parts, or a struct or union contains itself.
    /// `type_name` is the type's name, if it can be read.
    #[error("types are nested too deep in {:?}", type_name.as_deref().unwrap_or(""))]
    MaximumNestingLevelReached {
        type_name: Option<String>,
    },
    /// The access string `spec` counts past the end of the type `access_path`, which has `len`
    /// members, elements or variants.
    #[error("access string {spec:?} counts to {index} in {access_path}: {error} {len}")]
    InvalidAccessIndex {
        access_path: String,
        spec: String,
        index: usize,
        len: usize,
        error: String,
    },
    /// The access, or the kind of the relocation, doesn't apply to the type.
    #[error("relocation {relocation_number} of kind {relocation_kind}: {error} {type_kind}")]
    InvalidRelocationKindForType {
        relocation_number: usize,
        relocation_kind: String,
        type_kind: String,
        error: String,
    },
    /// The instruction can't hold the relocation's value. `index` is the index of its slot in the
    /// function.
    #[error("relocation {relocation_number} at instruction {index}: {error}")]
    InvalidInstruction {
        relocation_number: usize,
        index: usize,
        error: String,
    },
    /// The kernel lacks a type whose id or size the relocation asks for. `ins_index` is the index
    /// of the slot in the section.
    #[error("{kind:?} of type id {type_id} at instruction {ins_index}: no such type in the kernel")]
    MissingTargetDefinition {
        kind: RelocationKind,
        type_id: u32,
        ins_index: usize,
    },
    /// A fault of the types.
    #[error("error in BTF: {0}")]
    BtfError(BtfError),
    /// Memory ran out.
    #[error("out of memory")]
    OutOfMemory,
}

impl From<AllocError> for BtfRelocationCause {
    ghost from_gives = { λ _ e. e ≡ OutOfMemory };

    fn from(_error: AllocError) -> BtfRelocationCause {
        BtfRelocationCause::OutOfMemory
    }
}

impl<T: Drop> From<AllocFailed<T>> for BtfRelocationCause {
    ghost from_gives = { λ _ e. e ≡ OutOfMemory };

    fn from(_error: AllocFailed<T>) -> BtfRelocationCause {
        BtfRelocationCause::OutOfMemory
    }
}

/// Why the type relocations of an object can't be made, with the name of the section info's section
/// and the relocation where the fault is.
#[derive(Debug, Drop, Error)]
#[error("error relocating section {:?}{place}: {error}", section.as_deref().unwrap_or(""))]
pub struct BtfRelocationError {
    section: Option<String>,
    place: RelocationPlace,
    error: BtfRelocationCause,
}

impl BtfRelocationError {
    /// A fault at a place of a section info. It is `OutOfMemory` where memory ran out for the name
    /// or the place.
    pub fn new(
        section: Result<String, AllocError>,
        place: Result<RelocationPlace, AllocError>,
        error: BtfRelocationCause,
    ) -> BtfRelocationError
        ensures { result.error ≢ OutOfMemory → result.error ≡ error }
    {
        match (section, place) {
            (Ok(section), Ok(place)) => BtfRelocationError {
                section: Some(section),
                place,
                error,
            },
            _ => BtfRelocationError::from(AllocError),
        }
    }

    /// The name of the section info's section, or `section@` and its offset where it can't be read;
    /// empty where memory ran out before it was known.
    pub fn section(&self) -> &str
        ensures { result.now ≡ unwrap_or (option_map string_bytes self.now.section) [] }
    {
        match &self.section {
            Some(section) => section.as_str(),
            None => "",
        }
    }

    /// The relocation where the fault is, or the section info as a whole.
    pub fn place(&self) -> &RelocationPlace
        ensures { result.now ≡ self.now.place }
    {
        &self.place
    }

    /// The fault.
    pub fn error(&self) -> &BtfRelocationCause
        ensures { result.now ≡ self.now.error }
    {
        &self.error
    }
}

impl From<AllocError> for BtfRelocationError {
    ghost from_gives = { λ _ e. e ≡ record { section = None; place = SectionInfo; error = OutOfMemory } };

    fn from(_error: AllocError) -> BtfRelocationError {
        BtfRelocationError {
            section: None,
            place: RelocationPlace::SectionInfo,
            error: BtfRelocationCause::OutOfMemory,
        }
    }
}

impl<T: Drop> From<AllocFailed<T>> for BtfRelocationError {
    ghost from_gives = { λ _ e. e ≡ record { section = None; place = SectionInfo; error = OutOfMemory } };

    fn from(_error: AllocFailed<T>) -> BtfRelocationError {
        BtfRelocationError::from(AllocError)
    }
}
