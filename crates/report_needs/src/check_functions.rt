//! The kernel's functions that check records of types.

ghost use Rattle.std.specs.Prelude.{◌≡◌, ◌∷◌, [], IfOk, is_some};
ghost use Rattle.report_needs.specs.CheckFunctions.{check_functions, checked_presence, function_presence, has_function};

use crate::enums::Presence;
use crate::records::first_named;
use btf_records::BtfKind;
use btf_search::NamedTypes;
use btf_tables::Btf;
use std::alloc::{AllocError, Global};
use std::slice;

/// The names of the functions.
const FUNCTION_NAMES: [&str; 4] = [
    "btf_int_check_meta",
    "btf_float_check_meta",
    "btf_decl_tag_check_meta",
    "btf_enum64_check_meta",
];

/// Whether a kernel has the functions of `kernel/bpf/btf.c` that check kinds of records.
#[derive(Clone, Copy, Debug)]
pub(crate) struct CheckFunctions {
    pub(crate) float: Presence,
    pub(crate) decl_tag: Presence,
    pub(crate) enum64: Presence,
}

/// Whether a kernel, which is the only table of `types`, has a function.
fn has_function(
    alloc: Global,
    kernel: &Btf<'_>,
    types: &NamedTypes<'_, '_>,
    name: &str,
) -> Result<bool, AllocError>
    requires { types.now ≡ kernel.now ∷ [] }
    ensures { IfOk result (λ has. has ≡ has_function kernel.now name.now) }
{
    let found = first_named(alloc, kernel, types, BtfKind::Func, name)?;
    Ok(found.is_some())
}

/// Whether a kernel has a function of `btf.c`. Nothing is known where its types lack even the
/// function that checks integers.
fn function_presence(
    alloc: Global,
    kernel: &Btf<'_>,
    types: &NamedTypes<'_, '_>,
    name: &str,
) -> Result<Presence, AllocError>
    requires { types.now ≡ kernel.now ∷ [] }
    ensures { IfOk result (λ presence. presence ≡ function_presence kernel.now name.now) }
{
    if has_function(alloc, kernel, types, name)? {
        return Ok(Presence::Found);
    }
    if has_function(alloc, kernel, types, "btf_int_check_meta")? {
        Ok(Presence::Missing)
    } else {
        Ok(Presence::Unknown)
    }
}

impl CheckFunctions {
    /// The functions of a kernel. Its types are searched for them once.
    pub(crate) fn find(alloc: Global, kernel: &Btf<'_>) -> Result<CheckFunctions, AllocError>
        ensures { IfOk result (λ functions. functions ≡ check_functions kernel.now) }
    {
        let tables = slice::from_ref(kernel);
        let types = NamedTypes::find(alloc, &[BtfKind::Func], &FUNCTION_NAMES, tables)?;
        Ok(CheckFunctions {
            float: function_presence(alloc, kernel, &types, "btf_float_check_meta")?,
            decl_tag: function_presence(alloc, kernel, &types, "btf_decl_tag_check_meta")?,
            enum64: function_presence(alloc, kernel, &types, "btf_enum64_check_meta")?,
        })
    }

    /// What the functions tell of a kind of records.
    pub(crate) fn presence(&self, kind: BtfKind) -> Presence
        ensures { result ≡ checked_presence self.now kind }
    {
        match kind {
            BtfKind::Float => self.float,
            BtfKind::DeclTag => self.decl_tag,
            BtfKind::TypeTag => self.decl_tag.missing_or_unknown(),
            BtfKind::Enum64 => self.enum64,
            _ => Presence::Unknown,
        }
    }
}
