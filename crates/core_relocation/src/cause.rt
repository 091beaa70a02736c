//! The causes of failed relocations, with what their messages need.

ghost use Rattle.std.specs.Prelude.{◌≢◌, IfOk};
ghost use Rattle.core_relocation.specs.Faults.{OfAccess, OfMatch, OfWrite};
ghost use Rattle.relocation_errors.specs.declared.type_relocations.BtfRelocationCause.TheVariants.{OutOfMemory};

use crate::conflicting::matches_of;
use crate::texts::{kind_name, name_or_empty, text_at, type_name};
use btf_records::BtfError;
use btf_tables::Btf;
use core_patch::WriteError;
use core_resolve::{TypeRelocation, TypeRelocationError, conflicts};
use core_spec::AccessError;
use object_parts::SLOT_SIZE;
use relocation_errors::BtfRelocationCause;
use std::alloc::{AllocError, Global};

/// A failed relocation: its place, what it asks for, and the types that it is resolved against.
#[derive(Drop)]
pub(crate) struct FailedRelocation<'r, 'l, 't> {
    pub(crate) alloc: Global,
    pub(crate) local: &'r Btf<'l>,
    pub(crate) targets: &'r [Btf<'t>],
    /// Its index in its section info.
    pub(crate) number: usize,
    /// The instruction's offset in the section, in bytes.
    pub(crate) offset: u64,
    pub(crate) asked: TypeRelocation,
}

/// The cause for an access without a place, or without a value, in a type of a table; `root` is the
/// first type of its path.
fn of_access(
    failed: &FailedRelocation<'_, '_, '_>,
    table: &Btf<'_>,
    root: u32,
    error: AccessError,
) -> Result<BtfRelocationCause, AllocError>
    ensures { IfOk result (λ c. c ≢ OutOfMemory → OfAccess error c) }
{
    let alloc = failed.alloc;
    let access_str_off = failed.asked.access_str_off;
    let cause = match error {
        AccessError::InvalidAccessString => BtfRelocationCause::InvalidAccessString {
            access_str: text_at(alloc, failed.local, access_str_off)?,
        },
        AccessError::InvalidAccessIndex { place, len } => BtfRelocationCause::InvalidAccessIndex {
            access_path: name_or_empty(alloc, table, place.type_id)?,
            spec: text_at(alloc, failed.local, access_str_off)?,
            index: place.index as usize,
            len,
            error: String::from_str(alloc, "it has only")?,
        },
        AccessError::InvalidRelocationKindForType { type_id } => {
            BtfRelocationCause::InvalidRelocationKindForType {
                relocation_number: failed.number,
                relocation_kind: format!(in alloc; "{:?}", failed.asked.kind)?,
                type_kind: kind_name(alloc, table, type_id)?,
                error: String::from_str(alloc, "it doesn't go with a type of kind")?,
            }
        }
        AccessError::MaximumNestingLevelReached => BtfRelocationCause::MaximumNestingLevelReached {
            type_name: type_name(alloc, table, root)?,
        },
        AccessError::BtfError(error) => BtfRelocationCause::BtfError(error),
    };
    Ok(cause)
}

/// The names of the kernel types that conflict with the first.
fn conflict_names(failed: &FailedRelocation<'_, '_, '_>) -> Result<Vec<String>, AllocError> {
    let mut names = Vec::new(failed.alloc);
    let matches = matches_of(failed.alloc, failed.local, failed.targets, failed.asked)?;
    for found in conflicts(failed.alloc, matches.as_slice())?.as_slice() {
        if let Some(target) = failed.targets.get(found.table) {
            names.push(name_or_empty(failed.alloc, target, found.type_id)?)?;
        }
    }
    Ok(names)
}

/// The cause of a relocation that can't be resolved in the kernel's types.
fn of_match(
    failed: &FailedRelocation<'_, '_, '_>,
    error: TypeRelocationError,
) -> Result<BtfRelocationCause, AllocError>
    ensures { IfOk result (λ c. c ≢ OutOfMemory → OfMatch error c) }
{
    match error {
        TypeRelocationError::Local(error) => {
            of_access(failed, failed.local, failed.asked.type_id, error)
        }
        TypeRelocationError::Kernel { place, error } => match failed.targets.get(place.table) {
            Some(target) => of_access(failed, target, place.type_id, error),
            None => of_access(failed, failed.local, failed.asked.type_id, error),
        },
        TypeRelocationError::UnreadableName { place: _, offset } => {
            Ok(BtfRelocationCause::BtfError(BtfError::InvalidStringOffset {
                offset: offset as usize,
            }))
        }
        TypeRelocationError::ConflictingCandidates => {
            Ok(BtfRelocationCause::ConflictingCandidates {
                type_name: name_or_empty(failed.alloc, failed.local, failed.asked.type_id)?,
                candidates: conflict_names(failed)?,
            })
        }
        TypeRelocationError::MissingTargetDefinition => {
            Ok(BtfRelocationCause::MissingTargetDefinition {
                kind: failed.asked.kind,
                type_id: failed.asked.type_id,
                ins_index: (failed.offset / SLOT_SIZE) as usize,
            })
        }
        TypeRelocationError::OutOfMemory => Ok(BtfRelocationCause::OutOfMemory),
    }
}

/// The cause of a relocation that can't be resolved in the kernel's types, or `OutOfMemory` where
/// memory runs out.
pub(crate) fn cause_of_match(
    failed: &FailedRelocation<'_, '_, '_>,
    error: TypeRelocationError,
) -> BtfRelocationCause
    ensures { result ≢ OutOfMemory → OfMatch error result }
{
    match of_match(failed, error) {
        Ok(cause) => cause,
        Err(error) => BtfRelocationCause::from(error),
    }
}

/// Why an instruction is invalid.
fn reason_of(error: WriteError) -> &'static str {
    match error {
        WriteError::SourceRegister => "its source is a register",
        WriteError::LargeOffset => "the offset doesn't fit 16 bits",
        WriteError::OtherWidth => "the field has another size, which it can't get",
        WriteError::OtherClass => "instructions of its class hold no such value",
        WriteError::NoNextSlot | WriteError::NoNextPoison => "it has no second slot",
    }
}

/// Where a relocation stands.
#[derive(Clone, Copy)]
pub(crate) struct InstructionPlace {
    /// The relocation's index in its section info.
    pub(crate) number: usize,
    /// The index of its slot in the function.
    pub(crate) index: usize,
    /// The number of slots of the function.
    pub(crate) num_instructions: usize,
}

/// The cause of a value that doesn't fit its instruction.
fn of_write(
    alloc: Global,
    place: InstructionPlace,
    error: WriteError,
) -> Result<BtfRelocationCause, AllocError>
    ensures { IfOk result (λ c. c ≢ OutOfMemory → OfWrite error c) }
{
    let next = place.index.saturating_add(1);
    match error {
        WriteError::NoNextSlot => Ok(BtfRelocationCause::InvalidInstructionIndex {
            index: next,
            num_instructions: place.num_instructions,
            relocation_number: place.number,
        }),
        WriteError::NoNextPoison => Ok(BtfRelocationCause::InvalidInstructionIndex {
            index: next.saturating_mul(SLOT_SIZE as usize),
            num_instructions: place.num_instructions,
            relocation_number: place.number,
        }),
        error => Ok(BtfRelocationCause::InvalidInstruction {
            relocation_number: place.number,
            index: place.index,
            error: String::from_str(alloc, reason_of(error))?,
        }),
    }
}

/// The cause of a value that doesn't fit its instruction, or `OutOfMemory` where memory runs out.
pub(crate) fn cause_of_write(
    alloc: Global,
    place: InstructionPlace,
    error: WriteError,
) -> BtfRelocationCause
    ensures { result ≢ OutOfMemory → OfWrite error result }
{
    match of_write(alloc, place, error) {
        Ok(cause) => cause,
        Err(error) => BtfRelocationCause::from(error),
    }
}
