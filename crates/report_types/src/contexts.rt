//! The words of its context that a program can read.

ghost use Rattle.std.specs.Prelude.{◌≡◌, false, length, slice_get};
ghost use Rattle.std.specs.List.{list_any};
ghost use Rattle.std.specs.Option.{option_map_or};
ghost use Rattle.btf_records.specs.Fields.{params_of};
ghost use Rattle.report_types.specs.Contexts.{context_words, has_result, is_kind, is_wide, next_type, proto_of, proto_words, words_at, words_read};

use btf_encoding::TypeRef;
use btf_records::{BtfKind, BtfParam};
use btf_tables::Btf;
use program_kinds::ProgramSection;
use report_needs::TargetNeed;

/// The size of a word of the context, in bytes.
const WORD: u64 = 8;

fn is_kind(kind: BtfKind, t: &TypeRef<'_>) -> bool
    ensures { result ≡ is_kind kind t.now }
{
    t.kind() as u8 == kind as u8
}

/// The record that a record refers to.
fn next_type<'k>(kernel: &'k Btf<'_>, t: &TypeRef<'_>) -> Option<TypeRef<'k>>
    ensures { result ≡ next_type kernel.now t.now }
{
    match kernel.type_by_id(t.btf_type()?) {
        Ok(next) => Some(next),
        Err(_error) => None,
    }
}

/// The prototype of a function, and that of the pointer that a tracepoint's typedef names.
fn proto_of<'k>(kernel: &'k Btf<'_>, t: &TypeRef<'_>) -> Option<TypeRef<'k>>
    ensures { result ≡ proto_of kernel.now t.now }
{
    let next = next_type(kernel, t)?;
    if is_kind(BtfKind::Typedef, t) {
        next_type(kernel, &next)
    } else {
        Some(next)
    }
}

/// Whether an argument isn't known to have 1 to 8 bytes, as a last one without a type isn't, which
/// stands for any number of arguments.
fn is_wide(kernel: &Btf<'_>, param: BtfParam) -> bool
    ensures { result ≡ is_wide kernel.now param }
{
    if param.btf_type == 0 {
        return true;
    }
    match kernel.type_size(param.btf_type) {
        Ok(size) => !(1..=WORD).contains(&size),
        Err(_error) => true,
    }
}

/// The same of the argument at an index, if there is one.
fn is_wide_at(kernel: &Btf<'_>, t: &TypeRef<'_>, index: usize) -> bool
    ensures { result ≡ option_map_or (is_wide kernel.now) (slice_get (params_of t.now) index) false }
{
    match t.param(index) {
        Some(param) => is_wide(kernel, param),
        None => false,
    }
}

/// Whether an argument of a prototype isn't known to have 1 to 8 bytes.
#[tactic(auto, using(crate::proofs::Params::here, crate::proofs::Params::later, crate::proofs::Params::nowhere))]
fn has_wide(kernel: &Btf<'_>, t: &TypeRef<'_>) -> bool
    ensures { result ≡ list_any (is_wide kernel.now) (params_of t.now) }
{
    for index in 0..t.count() {
        if is_wide_at(kernel, t, index) {
            return true;
        }
    }
    false
}

/// Whether the function of a prototype has a result.
fn has_result(t: &TypeRef<'_>) -> bool
    ensures { result ≡ has_result t.now }
{
    t.btf_type().unwrap_or(0) != 0
}

/// How many words of its context a program of a kind can read, given those of the prototype and
/// whether there is a result.
fn words_read(kind: &ProgramSection, has_result: bool, count: u16) -> Option<u64>
    ensures { result ≡ words_read kind.now has_result count }
{
    let count = u64::from(count);
    let with_result = if has_result { count + 1 } else { count };
    match kind {
        ProgramSection::FEntry { .. } | ProgramSection::Iter { .. } => Some(count),
        ProgramSection::FExit { .. } | ProgramSection::Lsm { .. } | ProgramSection::LsmCgroup => {
            Some(with_result)
        }
        ProgramSection::BtfTracePoint => Some(count.saturating_sub(1)),
        _ => None,
    }
}

/// The same by a prototype.
fn proto_words(kernel: &Btf<'_>, kind: &ProgramSection, t: &TypeRef<'_>) -> Option<u64>
    ensures { result ≡ proto_words kernel.now kind.now t.now }
{
    if is_kind(BtfKind::FuncProto, t) && !has_wide(kernel, t) {
        words_read(kind, has_result(t), t.count() as u16)
    } else {
        None
    }
}

/// The same by the id of a function or of a tracepoint's typedef.
fn words_at(kernel: &Btf<'_>, kind: &ProgramSection, id: u32) -> Option<u64>
    ensures { result ≡ words_at kernel.now kind.now id }
{
    let Ok(t) = kernel.type_by_id(id) else {
        return None;
    };
    proto_words(kernel, kind, &proto_of(kernel, &t)?)
}

/// How many words of its context a program of a kind can read, if its target is found and the number
/// is known: those of the arguments of the kernel's function or tracepoint that it is attached to, and
/// of a function's result where it runs at the end of one (`btf_ctx_access` in `kernel/bpf/btf.c`).
pub fn context_words(kernel: &Btf<'_>, kind: &ProgramSection, target: TargetNeed) -> Option<u64>
    ensures { result ≡ context_words kernel.now kind.now target }
{
    match target {
        TargetNeed::Found(id) => words_at(kernel, kind, id),
        TargetNeed::NotNamed | TargetNeed::Missing | TargetNeed::Unknown => None,
    }
}
