//! The parameters of function prototypes.

ghost use Rattle.std.specs.Prelude.{◌≡◌, ◌≢◌, ◌++◌, ◌∷◌, [], IfErr, IfOk, OnOk, if◌then◌else◌, length, true};
ghost use Rattle.btf_records.specs.declared.error.BtfError.TheVariants.{OutOfMemory};
ghost use Rattle.btf_sanitize.specs.Additions.{next_offset, with_text, with_texts};
ghost use Rattle.btf_sanitize.specs.Faults.{IsTooMuch};
ghost use Rattle.btf_sanitize.specs.Names.{named_params, param_texts, param_name, is_nameless};

use crate::additions::Additions;
use crate::names::{is_nameless, param_name};
use btf_records::{BtfError, BtfParam};
use std::alloc::Global;

/// A parameter. If it has a type and no name, it gets the name of its index.
fn named_param(
    additions: &mut Additions,
    index: usize,
    param: BtfParam,
) -> Result<BtfParam, BtfError>
    ensures value { IfOk result (λ p.
        p
        ≡ (if is_nameless param
        then record param { name_offset = next_offset additions.old }
        else param)) }
    ensures added { OnOk result
        (additions.new
        ≡ with_texts (if is_nameless param then param_name index ++ 0 ∷ [] else []) additions.old) }
    ensures refused { IfErr result (λ e.
        e ≢ OutOfMemory
        → (is_nameless param ≡ true) × IsTooMuch (with_text (param_name index) additions.old) e) }
{
    if !is_nameless(param) {
        return Ok(param);
    }
    let name = param_name(additions.alloc(), index)?;
    let name_offset = additions.add_text(name.as_bytes())?;
    Ok(BtfParam {
        name_offset,
        ..param
    })
}

/// The parameters of a function prototype. Those with a type and no name are named by their indices
/// from 0.
pub(crate) fn named_params(
    alloc: Global,
    additions: &mut Additions,
    params: &[BtfParam],
) -> Result<Vec<BtfParam>, BtfError>
    ensures value { IfOk result (λ named.
        named.items ≡ named_params 0 (next_offset additions.old) params.now) }
    ensures len { IfOk result (λ named. length named.items ≡ length params.now) }
    ensures added { OnOk result
        (additions.new ≡ with_texts (param_texts 0 params.now) additions.old) }
    ensures refused { IfErr result (λ e.
        e ≢ OutOfMemory → IsTooMuch (with_texts (param_texts 0 params.now) additions.old) e) }
{
    let mut named = Vec::with_capacity(alloc, params.len())?;
    for (index, param) in params.iter().enumerate() {
        named.push(named_param(additions, index, *param)?)?;
    }
    Ok(named)
}
