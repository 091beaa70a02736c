//! Names that are checked, changed or made.

ghost use Rattle.std.specs.Prelude.{◌≡◌, ◌==◌, IfOk, if◌then◌else◌};
ghost use Rattle.std.specs.String.{string_bytes};
ghost use Rattle.btf_sanitize.specs.Names.{has_byte, is_memory_function, is_nameless, param_name, replaced};

use btf_records::BtfParam;
use std::alloc::{AllocError, Global};

/// Whether a function is one that compilers call implicitly, such as `memset`. These functions are
/// made static, since kernels verify a global function apart from its callers.
pub fn is_memory_function(name: &str) -> bool
    ensures { result ≡ is_memory_function name.now }
{
    name == "memset" || name == "memcpy" || name == "memmove" || name == "memcmp"
}

/// Whether a name has a byte.
pub(crate) fn has_byte(name: &[u8], byte: u8) -> bool
    ensures { result ≡ has_byte byte name.now }
{
    name.contains(&byte)
}

/// `to` if the byte is `from`, else the byte.
fn replaced_byte(byte: u8, from: u8, to: u8) -> u8
    ensures { result ≡ (if byte == from then to else byte) }
{
    if byte == from { to } else { byte }
}

/// A name with each byte `from` replaced by `to`.
pub(crate) fn replaced(alloc: Global, name: &[u8], from: u8, to: u8) -> Result<Vec<u8>, AllocError>
    ensures { IfOk result (λ text. text.items ≡ replaced from to name.now) }
{
    let mut text = Vec::with_capacity(alloc, name.len())?;
    for byte in name {
        text.push(replaced_byte(*byte, from, to))?;
    }
    Ok(text)
}

/// Whether a parameter has a type and no name.
pub(crate) fn is_nameless(param: BtfParam) -> bool
    ensures { result ≡ is_nameless param }
{
    param.name_offset == 0 && param.btf_type != 0
}

/// The name for a parameter without a name, by its index from 0.
pub(crate) fn param_name(alloc: Global, index: usize) -> Result<String, AllocError>
    ensures { IfOk result (λ name. string_bytes name ≡ param_name index) }
{
    format!(in alloc; "param{index}")
}
