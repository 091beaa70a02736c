//! What a kernel grants: features of types, and the newer helpers that read memory.

ghost use Rattle.std.specs.Prelude.{◌≡◌};
ghost use Rattle.std.specs.Option.{option_copied};
ghost use Rattle.kernel_reports.specs.Grants.{feature_presence, grants_of, has_newer_helpers, lacks_helper};

use btf_records::BtfKind;
use load_plan::BtfFeature;
use report_needs::{Presence, SearchedKernel};

/// What a kernel's types say of a feature.
fn feature_presence(kernel: &SearchedKernel<'_, '_>, feature: BtfFeature) -> Presence
    ensures { result ≡ feature_presence kernel.now feature }
{
    match feature {
        BtfFeature::Func => kernel.record_kind(BtfKind::Func),
        BtfFeature::FuncGlobal => kernel.function_linkages(),
        BtfFeature::DataSec => kernel.record_kind(BtfKind::DataSec),
        BtfFeature::DataSecZero => Presence::Unknown,
        BtfFeature::Float => kernel.record_kind(BtfKind::Float),
        BtfFeature::DeclTag => kernel.record_kind(BtfKind::DeclTag),
        BtfFeature::TypeTag => kernel.record_kind(BtfKind::TypeTag),
        BtfFeature::Enum64 => kernel.record_kind(BtfKind::Enum64),
    }
}

/// Whether a kernel grants a feature of types, as far as its own types say. It doesn't grant one
/// where it lacks the kind of records that the feature stands for, or linkages of functions. It
/// grants all others, and all where its types aren't given.
pub(crate) fn grants(kernel: Option<&SearchedKernel<'_, '_>>, feature: BtfFeature) -> bool
    ensures { result ≡ grants_of (option_copied kernel.entry) feature }
{
    match kernel {
        Some(kernel) => feature_presence(kernel, feature) != Presence::Missing,
        None => true,
    }
}

/// Whether a kernel lacks a helper.
fn lacks_helper(kernel: &SearchedKernel<'_, '_>, helper: i32) -> bool
    ensures { result ≡ lacks_helper kernel.now helper }
{
    kernel.helper(helper) == Presence::Missing
}

/// Whether a kernel has the newer helpers that read memory, 112 to 115, as far as its own types
/// say: its enum of helpers lacks none of them.
pub(crate) fn has_newer_helpers(kernel: Option<&SearchedKernel<'_, '_>>) -> bool
    ensures { result ≡ has_newer_helpers (option_copied kernel.entry) }
{
    let Some(kernel) = kernel else {
        return true;
    };
    !(lacks_helper(kernel, 112)
        || lacks_helper(kernel, 113)
        || lacks_helper(kernel, 114)
        || lacks_helper(kernel, 115))
}
