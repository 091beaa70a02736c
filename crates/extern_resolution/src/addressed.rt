//! Externs that are resolved by the kernel's symbols.

ghost use Rattle.std.specs.Prelude.{◌≡◌, ◌≢◌, Any, false, IfErr, IfOk, OnOk};
ghost use Rattle.std.specs.List.{AllZip};
ghost use Rattle.object_externs.specs.Names.{by_bytes};
ghost use Rattle.watched.specs.Watched.{has_failed, watched_inner};
ghost use Rattle.extern_resolution.specs.Errors.{IsAmbiguous, IsUnreadable, SaysOfSymbols};
ghost use Rattle.extern_resolution.specs.Outcomes.{is_any_sought, is_sought, left_weak, with_address};
ghost use Rattle.extern_resolution.specs.Steps.{AreSought, AreSoughtNames, CannotSeek, EntryAddressed, NoAddress, NoFault, address_found, addressed};
ghost use Rattle.extern_resolution.specs.declared.error.KsymsError.TheVariants.{OutOfMemory};

use crate::error::KsymsError;
use kernel_symbols::{Addresses, SymbolsError, read_addresses};
use object_externs::{ExternDesc, Externs};
use std::alloc::{AllocError, Global};
use std::collections::BTreeMap;
use std::io::BufRead;
use watched::Watched;

/// Whether an extern is searched among the kernel's symbols.
fn is_sought(desc: &ExternDesc<'_>) -> bool
    ensures { result ≡ is_sought desc.now }
{
    desc.type_id.is_none() && !desc.is_resolved
}

/// Whether any extern is searched among the kernel's symbols.
fn is_any_sought(externs: &Externs<'_>) -> bool
    ensures { result ≡ is_any_sought externs.now.by_name }
{
    for (_name, desc) in externs.iter() {
        if is_sought(desc) {
            return true;
        }
    }
    false
}

/// The names of the externs that are searched among the kernel's symbols.
fn sought_names<'a>(alloc: Global, externs: &Externs<'a>) -> Result<Vec<&'a str>, AllocError>
    ensures { IfOk result (λ names. AreSoughtNames externs.now.by_name names.items) }
{
    let mut names = Vec::new(alloc);
    for (name, desc) in externs.iter() {
        if is_sought(desc) {
            names.push(*name)?;
        }
    }
    Ok(names)
}

/// The error for a name whose address can't be read.
fn unreadable(alloc: Global, name: &str) -> Result<KsymsError, AllocError>
    ensures { IfOk result (IsUnreadable name.now) }
{
    Ok(KsymsError::KallsymsParseError(String::from_str(alloc, name)?))
}

/// The error for a name with two addresses.
fn ambiguous(
    alloc: Global,
    name: &str,
    first_addr: u64,
    second_addr: u64,
) -> Result<KsymsError, AllocError>
    ensures { IfOk result (IsAmbiguous name.now first_addr second_addr) }
{
    Ok(KsymsError::AmbiguousResolution {
        name: String::from_str(alloc, name)?,
        first_addr,
        second_addr,
    })
}

/// The error for a fault of the symbols.
fn ksyms_error(alloc: Global, error: SymbolsError<'_>) -> KsymsError
    ensures { result ≢ OutOfMemory → SaysOfSymbols error.entry result }
{
    let answer = match error {
        SymbolsError::Access(error) => Ok(KsymsError::KallsymsAccessError(error)),
        SymbolsError::UnreadableAddress(name) => unreadable(alloc, name),
        SymbolsError::Ambiguous {
            name,
            first_addr,
            second_addr,
        } => ambiguous(alloc, name, first_addr, second_addr),
        SymbolsError::OutOfMemory => Ok(KsymsError::OutOfMemory),
    };
    match answer {
        Ok(error) => error,
        Err(_error) => KsymsError::OutOfMemory,
    }
}

/// The addresses of the externs that are searched. Where no extern is, nothing is read.
pub(crate) fn sought_addresses<'a, R: BufRead>(
    alloc: Global,
    externs: &Externs<'a>,
    symbols: &mut Watched<R>,
) -> Result<Addresses<'a>, KsymsError>
    ensures found { IfOk result
        (AreSought externs.now.by_name (R.remaining (watched_inner symbols.old))
        (has_failed symbols.new)) }
    ensures refused { IfErr result (λ f.
        f ≢ OutOfMemory
        → CannotSeek externs.now.by_name (R.remaining (watched_inner symbols.old))
        (has_failed symbols.new) f) }
    ensures unread { is_any_sought externs.now.by_name ≡ false → symbols.new ≡ symbols.old }
{
    if !is_any_sought(externs) {
        return Ok(Addresses::none(alloc));
    }
    let names = sought_names(alloc, externs)?;
    match read_addresses(alloc, &names, symbols) {
        Ok(addresses) => Ok(addresses),
        Err(error) => Err(ksyms_error(alloc, error)),
    }
}

/// The address of an extern that is searched, if it is found.
fn address_found(addresses: &Addresses<'_>, name: &str, desc: &ExternDesc<'_>) -> Option<u64>
    ensures { result ≡ address_found addresses.now name.now desc.now }
{
    if is_sought(desc) {
        addresses.get(name)
    } else {
        None
    }
}

/// The extern, resolved where an address was found; a weak one that isn't resolved has address 0.
fn with_address<'a>(found: Option<u64>, desc: &ExternDesc<'a>) -> ExternDesc<'a>
    ensures { result ≡ left_weak (with_address found desc.now) }
{
    let is_resolved = desc.is_resolved || found.is_some();
    let found = if desc.is_weak && !is_resolved {
        Some(0)
    } else {
        found
    };
    ExternDesc {
        is_resolved,
        ksym_addr: found.or(desc.ksym_addr),
        ..*desc
    }
}

/// An extern after the search by its name.
fn addressed_extern<'a>(
    alloc: Global,
    addresses: &Addresses<'_>,
    name: &str,
    desc: &ExternDesc<'a>,
) -> Result<ExternDesc<'a>, KsymsError>
    ensures value { IfOk result (λ new. new ≡ addressed addresses.now name.now desc.now) }
    ensures accepted { OnOk result (NoFault (λ f. NoAddress addresses.now f (name.now, desc.now))) }
    ensures refused { IfErr result (λ f.
        f ≢ OutOfMemory → NoAddress addresses.now f (name.now, desc.now)) }
{
    let found = address_found(addresses, name, desc);
    if is_sought(desc) && !desc.is_weak && found.is_none() {
        let name = String::from_str(alloc, name)?;
        return Err(KsymsError::VariableNotFound { name });
    }
    Ok(with_address(found, desc))
}

/// The externs after the search by their names.
pub(crate) fn addressed_externs<'a>(
    alloc: Global,
    externs: &Externs<'a>,
    addresses: &Addresses<'_>,
) -> Result<BTreeMap<&'a str, ExternDesc<'a>>, KsymsError>
    ensures becomes { IfOk result (λ new.
        AllZip (EntryAddressed addresses.now) externs.now.by_name (by_bytes new.entries)) }
    ensures accepted { OnOk result
        (NoFault (λ f. Any (NoAddress addresses.now f) externs.now.by_name)) }
    ensures refused { IfErr result (λ f.
        f ≢ OutOfMemory → Any (NoAddress addresses.now f) externs.now.by_name) }
{
    let mut by_name = BTreeMap::new(alloc);
    for (name, desc) in externs.iter() {
        let desc = addressed_extern(alloc, addresses, name, desc)?;
        by_name.insert(*name, desc)?;
    }
    Ok(by_name)
}
