//! Variants of enums by name.

ghost use Rattle.std.specs.Prelude.{◌≡◌, MatchResult, Ok, Err};
ghost use Rattle.core_match.specs.VariantMatches.{first_variant, is_so_named, local_variant, variant_matched};

use btf_encoding::TypeRef;
use btf_tables::{Btf, essential_name};
use core_spec::{AccessError, Place, variant_count, variant_name};

/// Whether the name at an offset is this one, without its flavour.
fn is_so_named(target: &Btf<'_>, offset: u32, name: &str) -> Result<bool, AccessError>
    ensures { result ≡ is_so_named target.now offset name.now }
{
    let text = target.string_at(offset)?;
    Ok(essential_name(text) == essential_name(name))
}

/// The index of the first variant with this name, without flavours.
#[tactic(auto, using(crate::proofs::Variants::none_left, crate::proofs::Variants::unnamed, crate::proofs::Variants::this_variant, crate::proofs::Variants::bad_variant, crate::proofs::Variants::next_variant))]
fn first_variant(
    target: &Btf<'_>,
    t: &TypeRef<'_>,
    count: usize,
    name: &str,
) -> Result<Option<usize>, AccessError>
    ensures { result ≡ first_variant target.now t.now name.now count 0 }
{
    for index in 0..count {
        let Some(offset) = variant_name(t, index) else {
            return Ok(None);
        };
        let found = is_so_named(target, offset, name)?;
        if found {
            return Ok(Some(index));
        }
    }
    Ok(None)
}

/// The name of a variant of the local types.
fn local_variant<'l>(local: &'l Btf<'_>, place: Place) -> Result<&'l str, AccessError>
    ensures { MatchResult result (λ name. local_variant local.now place ≡ Ok name.now) (λ e.
        local_variant local.now place ≡ Err e) }
{
    let t = local.type_by_id(place.type_id)?;
    let Some(offset) = variant_name(&t, place.index as usize) else {
        return Err(AccessError::InvalidRelocationKindForType {
            type_id: place.type_id,
        });
    };
    match local.string_at(offset) {
        Ok(name) => Ok(name),
        Err(error) => Err(AccessError::BtfError(error)),
    }
}

/// The first variant of an enum, or of a union that stands for one, with the name of a local
/// variant, without flavours; none where there is no such variant, or the type isn't an enum.
///
/// `BtfError` where the type can't be looked up, or a name before it can't be read.
pub(crate) fn variant_matched(
    local: &Btf<'_>,
    place: Place,
    target: &Btf<'_>,
    type_id: u32,
) -> Result<Option<Place>, AccessError>
    ensures { result ≡ variant_matched local.now place target.now type_id }
{
    let root = target.resolve_type(type_id)?;
    let t = target.type_by_id(root)?;
    let Some(count) = variant_count(&t) else {
        return Ok(None);
    };
    let name = match local_variant(local, place) {
        Ok(name) => name,
        Err(error) => return Err(error),
    };
    match first_variant(target, &t, count, name)? {
        Some(index) => Ok(Some(Place {
            type_id: root,
            index: index as u64,
        })),
        None => Ok(None),
    }
}
