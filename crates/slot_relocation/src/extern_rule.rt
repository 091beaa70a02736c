//! Relocations by externs.

ghost use Rattle.std.specs.Prelude.{◌≡◌, ◌≢◌, ◌/◌, ◌%◌, ◌^◌, IfErr, OnErr, OnOk};
ghost use Rattle.std.specs.Option.{option_copied, option_map};
ghost use Rattle.std.specs.String.{string_bytes};
ghost use Rattle.relocation_errors.specs.declared.error.RelocationError.TheVariants.{OutOfMemory};
ghost use Rattle.slot_relocation.specs.Externs.{call_outcome, extern_of, extern_outcome, extern_rule, load_outcome, load_write, resolution, resolved_outcome, signed_word};
ghost use Rattle.slot_relocation.specs.declared.extern_rule.Resolution.TheVariants.{Missing};
ghost use Rattle.slot_relocation.specs.Writes.{AreRelocated, CanBeRelocated, HasErrorIn};

use crate::by_symbol::SymbolRule;
use crate::errors::relocate_by_symbol;
use crate::outcome::{Fault, Outcome, Write, with_number};
use ebpf_items::bpf_insn;
use elf64::SymbolView;
use object_externs::{ExternDesc, Externs, is_extern_symbol};
use object_file::ObjectFile;
use object_parts::Functions;
use relocation_errors::EbpfRelocationError;
use std::alloc::Global;

/// The operation code of a call: `BPF_JMP | BPF_CALL`.
const CALL: u8 = 0x85;

/// The operation code of a load of 64 bits: `BPF_LD | BPF_IMM | BPF_DW`.
const LOAD_64: u8 = 0x18;

/// The source register that marks a call of a kernel function.
const BPF_PSEUDO_KFUNC_CALL: u8 = 2;

/// The source register that marks the id of a kernel variable.
const BPF_PSEUDO_BTF_ID: u8 = 3;

/// The immediate of a call of a missing function is this plus the symbol's index (libbpf's
/// `POISON_CALL_KFUNC_BASE`).
const MISSING_CALL: u64 = 2_002_000_000;

/// What is known about an extern in the kernel.
#[derive(Clone, Copy, Debug)]
pub enum Resolution {
    /// The id of its type.
    Id(u32),
    /// Its address.
    Address(u64),
    /// The kernel lacks it, and it is weak.
    Missing,
    /// The kernel lacks it, and it isn't weak.
    Unresolved,
}

/// What relocations by externs do to the slots of an object's functions.
#[derive(Drop)]
struct ExternRule<'r, 'e> {
    externs: &'r Externs<'e>,
}

impl Resolution {
    /// What is known about an extern.
    fn of(desc: &ExternDesc<'_>) -> Resolution
        ensures { result ≡ resolution desc.now }
    {
        if desc.is_resolved {
            if let Some(id) = desc.kernel_btf_id {
                return Resolution::Id(id);
            }
            if let Some(address) = desc.ksym_addr {
                return Resolution::Address(address);
            }
        }
        if desc.is_weak {
            Resolution::Missing
        } else {
            Resolution::Unresolved
        }
    }
}

/// What a relocation at a call of a missing function does.
fn missing_outcome(slot: bpf_insn, symbol_index: usize) -> Outcome<Fault>
    ensures { result ≡ call_outcome slot symbol_index Missing }
{
    let Ok(number) = i32::try_from(MISSING_CALL as u128 + symbol_index as u128) else {
        return Outcome::Refused(Fault::InvalidOffset);
    };
    let mut first = with_number(slot, 0, number);
    first.set_dst_reg(0);
    first.off = 0;
    Outcome::Written(Write { first, next: None })
}

/// What a relocation at a call does.
fn call_outcome(slot: bpf_insn, symbol_index: usize, resolution: Resolution) -> Outcome<Fault>
    ensures { result ≡ call_outcome slot symbol_index resolution }
{
    match resolution {
        Resolution::Id(id) => {
            let mut first = with_number(slot, BPF_PSEUDO_KFUNC_CALL, id.cast_signed());
            first.off = 0;
            Outcome::Written(Write { first, next: None })
        }
        Resolution::Missing => missing_outcome(slot, symbol_index),
        Resolution::Address(_) | Resolution::Unresolved => {
            Outcome::Refused(Fault::Unresolvable { symbol_index })
        }
    }
}

/// What a relocation does at a load that gets two words.
fn load_write(
    slot: bpf_insn,
    next: Option<bpf_insn>,
    source: u8,
    low: i32,
    high: i32,
) -> Outcome<Fault>
    ensures { result ≡ load_write slot next source low high }
{
    let Some(mut next) = next else {
        return Outcome::Refused(Fault::InvalidOffset);
    };
    next.imm = high;
    Outcome::Written(Write {
        first: with_number(slot, source, low),
        next: Some(next),
    })
}

/// The low word of an address.
fn low_word(address: u64) -> i32
    ensures { result ≡ signed_word (address % 2 ^ 32) }
{
    ((address % (1 << 32)) as u32).cast_signed()
}

/// The high word of an address.
fn high_word(address: u64) -> i32
    ensures { result ≡ signed_word (address / 2 ^ 32) }
{
    ((address / (1 << 32)) as u32).cast_signed()
}

/// What a relocation at a load of 64 bits does.
fn load_outcome(
    slot: bpf_insn,
    next: Option<bpf_insn>,
    symbol_index: usize,
    resolution: Resolution,
) -> Outcome<Fault>
    ensures { result ≡ load_outcome slot next symbol_index resolution }
{
    match resolution {
        Resolution::Id(id) => load_write(slot, next, BPF_PSEUDO_BTF_ID, id.cast_signed(), 0),
        Resolution::Address(address) => {
            load_write(slot, next, 0, low_word(address), high_word(address))
        }
        Resolution::Missing => load_write(slot, next, 0, 0, 0),
        Resolution::Unresolved => Outcome::Refused(Fault::Unresolvable { symbol_index }),
    }
}

/// What a relocation does, given the resolution of its extern.
fn resolved_outcome(
    slot: bpf_insn,
    next: Option<bpf_insn>,
    symbol_index: usize,
    resolution: Resolution,
) -> Outcome<Fault>
    ensures { result ≡ resolved_outcome slot next symbol_index resolution }
{
    match slot.code {
        CALL => call_outcome(slot, symbol_index, resolution),
        LOAD_64 => load_outcome(slot, next, symbol_index, resolution),
        _ => Outcome::Refused(Fault::InvalidOffset),
    }
}

/// The extern with a symbol's name.
fn extern_of<'r, 'e>(
    externs: &'r Externs<'e>,
    symbol: &SymbolView<'_>,
) -> Option<&'r ExternDesc<'e>>
    ensures { option_copied result ≡ extern_of externs.now.by_name symbol.now }
{
    let Ok(name) = symbol.name() else {
        return None;
    };
    externs.get(name)
}

impl<'r, 'e> SymbolRule for ExternRule<'r, 'e> {
    ghost does = { λ r. extern_outcome r.externs.now.by_name };

    fn outcome_by(
        &self,
        slot: bpf_insn,
        next: Option<bpf_insn>,
        symbol_index: usize,
        symbol: &SymbolView<'_>,
    ) -> Outcome<Fault> {
        if !is_extern_symbol(symbol) {
            return Outcome::Skipped;
        }
        match extern_of(self.externs, symbol) {
            Some(desc) => resolved_outcome(slot, next, symbol_index, Resolution::of(desc)),
            None => Outcome::Refused(Fault::NoExtern { symbol_index }),
        }
    }
}

/// Writes what is known about the kernel's functions and variables into the slots of relocations by
/// externs. The relocations inside a function are made in order of offset. The symbol's name gives
/// the extern; symbols that aren't externs are skipped. A call gets the id of the kernel type as
/// its immediate, `BPF_PSEUDO_KFUNC_CALL` as its source register and the offset 0. A load of 64
/// bits gets the id with `BPF_PSEUDO_BTF_ID`, or the address in two words with source register 0.
/// Where the kernel lacks a weak extern, a load gets 0, and a call the immediate 2,002,000,000 plus
/// the symbol's index with all other fields 0.
///
/// # Errors
///
/// With the function's name: `InvalidRelocationOffset` for a relocation that applies to no whole
/// slot, to one that is neither a call nor a load of 64 bits with a second slot, or to a call of a
/// missing function with an immediate past 32 signed bits; `UnknownSymbol` for a symbol that the
/// object lacks; `ExternNotFound` for a name that no extern has, which is every name where the
/// object has no table of types; `UnresolvableSymbol` for an extern that the kernel lacks and that
/// isn't weak, and for a call of one that has only an address; and `OutOfMemory`. Of several faults
/// the first in order of section and offset is returned. The functions then stay as they are.
pub fn relocate_externs<'f>(
    alloc: Global,
    file: &ObjectFile<'_>,
    functions: &mut Functions<'f>,
    externs: &Externs<'_>,
) -> Result<(), EbpfRelocationError>
    ensures relocated { OnOk result
        (AreRelocated (extern_rule file.now externs.now.by_name) file.now functions.old
        functions.new) }
    ensures sound { OnOk result
        (CanBeRelocated (extern_rule file.now externs.now.by_name) file.now functions.old) }
    ensures fault { IfErr result (λ e.
        e.error ≢ OutOfMemory
        → HasErrorIn (extern_rule file.now externs.now.by_name) file.now functions.old
        (option_map string_bytes e.function) e.error) }
    ensures unchanged { OnErr result (functions.new ≡ functions.old) }
{
    let rule = ExternRule { externs };
    relocate_by_symbol(alloc, file, rule, functions)
}
