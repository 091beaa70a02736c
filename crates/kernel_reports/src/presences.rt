//! Whether a kernel has the externs of an object.

ghost use Rattle.std.specs.Prelude.{◌≡◌, ◌≢◌, Some, map, option_copied, IfOk, IfSome};
ghost use Rattle.extern_resolution.specs.declared.error.KsymsError.TheVariants.{OutOfMemory};
ghost use Rattle.kernel_reports.specs.Presences.{SaysOfExterns, all_weak, as_weak, presence_of};
ghost use Rattle.report_needs.specs.declared.enums.Presence.TheVariants.{Unknown};

use btf_tables::Btf;
use extern_resolution::{KsymsError, resolve_externs};
use object_externs::{ExternDesc, Externs};
use report_needs::Presence;
use std::alloc::{AllocError, Global};
use std::collections::BTreeMap;
use watched::Watched;

/// The extern as it was declared, but weak.
fn as_weak<'a>(desc: &ExternDesc<'a>) -> Result<ExternDesc<'a>, AllocError>
    ensures { IfOk result (λ weak. weak ≡ as_weak desc.now) }
{
    let mut weak = desc.clone()?;
    weak.is_weak = true;
    weak.is_resolved = false;
    weak.kernel_btf_id = None;
    weak.ksym_addr = None;
    Ok(weak)
}

/// The externs as they were declared, but all weak, so that none is refused.
fn all_weak<'a>(alloc: Global, externs: &Externs<'a>) -> Result<Externs<'a>, AllocError>
    ensures { IfOk result (λ weak. weak ≡ all_weak externs.now) }
{
    let mut by_name = BTreeMap::new(alloc);
    for (name, desc) in externs.iter() {
        let weak = as_weak(desc)?;
        by_name.insert(*name, weak)?;
    }
    Ok(externs.replaced(by_name))
}

/// Whether the kernel has a resolved extern.
fn presence_of(desc: &ExternDesc<'_>, has_symbols: bool) -> Presence
    ensures { result ≡ presence_of has_symbols desc.now }
{
    if desc.type_id.is_none() && !has_symbols {
        return Presence::Unknown;
    }
    if desc.is_resolved {
        Presence::Found
    } else {
        Presence::Missing
    }
}

/// Whether the kernel has each of some resolved externs, by name.
fn all_presences(
    alloc: Global,
    externs: &Externs<'_>,
    has_symbols: bool,
) -> Result<Vec<Presence>, AllocError>
    ensures { IfOk result (λ presences.
        presences.items ≡ map (λ e. presence_of has_symbols e.1) externs.now.by_name) }
{
    let mut presences = Vec::new(alloc);
    for (_, desc) in externs.iter() {
        presences.push(presence_of(desc, has_symbols))?;
    }
    Ok(presences)
}

/// Nothing is known about externs.
fn all_unknown(alloc: Global, externs: &Externs<'_>) -> Result<Vec<Presence>, AllocError>
    ensures { IfOk result (λ presences. presences.items ≡ map (λ e. Unknown) externs.now.by_name) }
{
    let mut presences = Vec::new(alloc);
    for _extern in externs.iter() {
        presences.push(Presence::Unknown)?;
    }
    Ok(presences)
}

/// An error that isn't out of memory.
fn fault_of(error: KsymsError) -> Result<KsymsError, AllocError>
    ensures { IfOk result (λ fault. (fault ≡ error) × (error ≢ OutOfMemory)) }
{
    match error {
        KsymsError::OutOfMemory => Err(AllocError),
        error => Ok(error),
    }
}

/// Whether a kernel has each of an object's externs, by name: those with a type by its types, the
/// others by a text of its symbols. An extern without a type is unknown where no text is given. All
/// are unknown where the object has no types of its own, or where the look-up of one of them has a
/// fault, such as a text that isn't UTF-8, two addresses, or types that can't be compared.
///
/// # Errors
///
/// `AllocError` where memory runs out.
pub fn presences_of(
    alloc: Global,
    externs: &Externs<'_>,
    table: Option<&Btf<'_>>,
    kernel: Option<&Btf<'_>>,
    symbols: &[u8],
    has_symbols: bool,
) -> Result<Vec<Presence>, AllocError>
    ensures { IfOk result (λ said.
        SaysOfExterns (option_copied table.entry) (option_copied kernel.entry) symbols.now
        has_symbols externs.now said.items) }
{
    let Some(table) = table else {
        let said = all_unknown(alloc, externs)?;
        return Ok(said);
    };
    let mut weak = all_weak(alloc, externs)?;
    let mut symbols = Watched::new(symbols);
    let answer = resolve_externs(alloc, &mut weak, Some(table), kernel, &mut symbols);
    // a reader of bytes doesn't fail
    if symbols.failed() {
        return Err(AllocError);
    }
    match answer {
        Ok(()) => {
            let said = all_presences(alloc, &weak, has_symbols)?;
            Ok(said)
        }
        Err(error) => {
            let _fault = fault_of(error)?;
            let said = all_unknown(alloc, externs)?;
            Ok(said)
        }
    }
}
