//! Texts on relocations and externs.

ghost use Rattle.std.specs.Prelude.{◌≡◌};
ghost use Rattle.report_texts.specs.Answers.{is_poison, leaves_poison};
ghost use Rattle.report_texts.specs.Words.{extern_kind_word, poison_cell_suffix, poison_suffix, presence_word};

use crate::rows::ExternKind;
use ebpf_items::bpf_insn;
use kernel_reports::{
    Outcome, Patch, Presence, Reach, RelocationAnswer, TypeRelocationError, WriteError,
};
use std::fmt;

/// How an instruction holds a value.
#[derive(Clone, Copy)]
pub(crate) enum Manner {
    /// As the immediate of arithmetic.
    Immediate,
    /// As the immediate of a load of 64 bits.
    Immediate64,
    /// As the offset of a load or a store of this number of bytes.
    Offset { width: u8 },
}

/// How an instruction that got a value holds it, by its class (instruction-set.rst, "Instruction
/// encoding").
fn manner_of(slot: bpf_insn) -> Manner {
    match (slot.code % 8, slot.code / 8 % 4) {
        (0, _) => Manner::Immediate64,
        (1..=3, 0) => Manner::Offset { width: 4 },
        (1..=3, 1) => Manner::Offset { width: 2 },
        (1..=3, 2) => Manner::Offset { width: 1 },
        (1..=3, _) => Manner::Offset { width: 8 },
        _ => Manner::Immediate,
    }
}

/// The result of a relocation, as far as its text goes.
#[derive(Clone, Copy)]
pub(crate) enum Said<'a> {
    Value { value: u64, manner: Manner },
    Poison,
    Unplaced,
    Unwritten { patch: Patch, error: WriteError },
    Fault(&'a TypeRelocationError),
}

pub(crate) fn said_of(answer: &RelocationAnswer) -> Said<'_> {
    match answer {
        RelocationAnswer::Unplaced => Said::Unplaced,
        RelocationAnswer::Fault(error) => Said::Fault(error),
        RelocationAnswer::Given { patch, written } => match (*patch, *written) {
            (patch, Outcome::Refused(error)) => Said::Unwritten { patch, error },
            (Patch::Value { value, .. }, Outcome::Written(write)) => Said::Value {
                value,
                manner: manner_of(write.first),
            },
            _ => Said::Poison,
        },
    }
}

/// Why an instruction can't get what a relocation gives.
fn unwritten_reason(error: WriteError) -> &'static str {
    match error {
        WriteError::SourceRegister => "the instruction's source is a register",
        WriteError::LargeOffset => "the offset doesn't fit 16 bits",
        WriteError::OtherWidth => { "the field has another size, which the instruction can't get" }
        WriteError::OtherClass => "instructions of the class hold no such value",
        WriteError::NoNextSlot | WriteError::NoNextPoison => {
            "the load of 64 bits has no second slot"
        }
    }
}

/// Why a relocation can't be resolved.
#[derive(Clone, Copy)]
pub(crate) struct FaultText<'a>(pub(crate) &'a TypeRelocationError);

impl<'a> fmt::Display for FaultText<'a> {
    fn fmt<W: fmt::Write>(&self, f: &mut fmt::Formatter<W>) -> fmt::Result {
        match self.0 {
            TypeRelocationError::Local(error) => write!(f, "the object's types: {error}"),
            TypeRelocationError::UnreadableName { place, .. } => {
                write!(f, "the name of type {} can't be read", place.type_id)
            }
            TypeRelocationError::Kernel { place, error } => {
                write!(f, "type {}: {error}", place.type_id)
            }
            TypeRelocationError::ConflictingCandidates => {
                write!(f, "types of the kernel disagree")
            }
            TypeRelocationError::MissingTargetDefinition => {
                write!(f, "the kernel has no such type")
            }
            TypeRelocationError::OutOfMemory => write!(f, "out of memory"),
        }
    }
}

/// The end of a line on a relocation.
#[derive(Clone, Copy)]
pub struct AnswerWords<'a>(pub &'a RelocationAnswer);

impl<'a> fmt::Display for AnswerWords<'a> {
    fn fmt<W: fmt::Write>(&self, f: &mut fmt::Formatter<W>) -> fmt::Result {
        match said_of(self.0) {
            Said::Value { value, manner } => match manner {
                Manner::Immediate => write!(f, "value {value} as immediate"),
                Manner::Immediate64 => write!(f, "value {value} as immediate64"),
                Manner::Offset { width } => { write!(f, "value {value} as offset width {width}") }
            },
            Said::Poison => write!(f, "poison"),
            Said::Unplaced => write!(f, "refused no function holds the instruction"),
            Said::Unwritten {
                patch: Patch::Value { value, .. },
                error,
            } => write!(f, "refused value {value}: {}", unwritten_reason(error)),
            Said::Unwritten { error, .. } => {
                write!(f, "refused poison: {}", unwritten_reason(error))
            }
            Said::Fault(error) => write!(f, "refused {}", FaultText(error)),
        }
    }
}

/// The cell of a table for a relocation.
#[derive(Clone, Copy)]
pub struct AnswerCell<'a>(pub &'a RelocationAnswer);

impl<'a> fmt::Display for AnswerCell<'a> {
    fn fmt<W: fmt::Write>(&self, f: &mut fmt::Formatter<W>) -> fmt::Result {
        match said_of(self.0) {
            Said::Value { value, manner } => match manner {
                Manner::Immediate | Manner::Immediate64 => write!(f, "{value}"),
                Manner::Offset { width } => write!(f, "{value}, {width} bytes"),
            },
            Said::Poison => write!(f, "poison"),
            Said::Unplaced | Said::Unwritten { .. } | Said::Fault(_) => write!(f, "refused"),
        }
    }
}

/// Whether a patch that was written, or was to be, leaves poison.
fn leaves_poison(patch: Patch, written: Outcome<WriteError>) -> bool
    ensures { result ≡ leaves_poison patch written }
{
    match (patch, written) {
        (_, Outcome::Refused(_)) => false,
        (Patch::Value { .. }, Outcome::Written(_)) => false,
        _ => true,
    }
}

/// Whether the instruction of a relocation becomes poison.
fn is_poison(answer: &RelocationAnswer) -> bool
    ensures { result ≡ is_poison answer.now }
{
    match answer {
        RelocationAnswer::Unplaced | RelocationAnswer::Fault(_) => false,
        RelocationAnswer::Given { patch, written } => leaves_poison(*patch, *written),
    }
}

/// What stands behind an answer on a relocation in a line: for poison, whether a run can reach it,
/// and nothing for any other answer.
pub fn poison_suffix(answer: &RelocationAnswer, reach: Option<Reach>) -> &'static str
    ensures { result.now ≡ poison_suffix answer.now reach }
{
    if !is_poison(answer) {
        return "";
    }
    match reach {
        Some(Reach::Reached) => " reached",
        Some(Reach::CutOff) => " cut-off",
        None => " -",
    }
}

/// The same in a cell of a table.
pub fn poison_cell_suffix(answer: &RelocationAnswer, reach: Option<Reach>) -> &'static str
    ensures { result.now ≡ poison_cell_suffix answer.now reach }
{
    if !is_poison(answer) {
        return "";
    }
    match reach {
        Some(Reach::Reached) => ", reached",
        Some(Reach::CutOff) => ", cut off",
        None => "",
    }
}

/// Whether a kernel has an extern, in one word.
pub fn presence_word(presence: Presence) -> &'static str
    ensures { result.now ≡ presence_word presence }
{
    match presence {
        Presence::Found => "found",
        Presence::Missing => "missing",
        Presence::Unknown => "unknown",
    }
}

/// What an extern is, in one word.
pub fn extern_kind_word(kind: ExternKind) -> &'static str
    ensures { result.now ≡ extern_kind_word kind }
{
    match kind {
        ExternKind::Function => "function",
        ExternKind::Variable => "variable",
        ExternKind::Symbol => "symbol",
    }
}
