//! Records that a rewriting leaves as they are.

ghost use Rattle.std.specs.Prelude.{◌≡◌, true};
ghost use Rattle.std.specs.List.{list_any};
ghost use Rattle.btf_records.specs.Fields.{params_of};
ghost use Rattle.btf_sanitize.specs.Knowledge.{facts_of};
ghost use Rattle.btf_sanitize.specs.Names.{is_nameless};
ghost use Rattle.btf_sanitize.specs.Stays.{stays};

use crate::known::Known;
use crate::names::is_nameless;
use btf_encoding::TypeRef;
use btf_records::{BtfFeature, BtfKind};

/// Whether a function prototype has a parameter with a type and without a name.
#[tactic(auto, using(crate::proofs::Stays::nameless_here, crate::proofs::Stays::named_here, crate::proofs::Stays::none_here, crate::proofs::Stays::all_are_named))]
fn has_nameless(t: &TypeRef<'_>) -> bool
    ensures { result ≡ list_any is_nameless (params_of t.now) }
{
    for index in 0..t.count() {
        if let Some(param) = t.param(index) {
            if is_nameless(param) {
                return true;
            }
        }
    }
    false
}

/// Whether a record is known to stay as it is, with nothing added for it, by its first words and
/// its parameters.
pub(crate) fn stays(known: &Known<'_, '_, '_>, t: &TypeRef<'_>) -> bool
    ensures { result ≡ stays (facts_of known.now) t.now }
{
    match t.kind() {
        BtfKind::Ptr => t.name_offset() == 0,
        BtfKind::Var => known.grants(BtfFeature::DataSec),
        BtfKind::DataSec => false,
        BtfKind::FuncProto => known.grants(BtfFeature::Func) && !has_nameless(t),
        BtfKind::Func => known.grants(BtfFeature::Func) && t.count() != 1,
        BtfKind::Float => known.grants(BtfFeature::Float),
        BtfKind::DeclTag => known.grants(BtfFeature::DeclTag),
        BtfKind::TypeTag => known.grants(BtfFeature::TypeTag),
        BtfKind::Enum => known.grants(BtfFeature::Enum64) || !t.flag(),
        BtfKind::Enum64 => known.grants(BtfFeature::Enum64),
        _ => true,
    }
}
