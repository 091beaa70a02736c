//! The externs of an object, resolved.

ghost use Rattle.std.specs.Prelude.{◌≡◌, ◌≢◌, None, Some, false, option_copied, IfErr, IfOk, IfSome, IsOk, OnErr, OnOk};
ghost use Rattle.std.specs.Option.{IsSomeAnd};
ghost use Rattle.watched.specs.Watched.{has_failed, watched_inner};
ghost use Rattle.extern_resolution.specs.Outcomes.{is_any_sought};
ghost use Rattle.extern_resolution.specs.Resolution.{AreResolved, CannotResolve, ForText};
ghost use Rattle.object_externs.specs.Names.{by_bytes};
ghost use Rattle.extern_resolution.specs.declared.error.KsymsError.TheVariants.{OutOfMemory};

use crate::addressed::{addressed_externs, sought_addresses};
use crate::error::KsymsError;
use crate::typed::typed_externs;
use btf_tables::Btf;
use object_externs::{ExternDesc, Externs};
use std::alloc::Global;
use std::collections::BTreeMap;
use std::io::BufRead;
use watched::Watched;

/// The externs of an object with a table, resolved.
fn resolved<'a, R: BufRead>(
    alloc: Global,
    externs: &Externs<'a>,
    table: &Btf<'_>,
    kernel: Option<&Btf<'_>>,
    symbols: &mut Watched<R>,
) -> Result<BTreeMap<&'a str, ExternDesc<'a>>, KsymsError>
    ensures resolved { IfOk result (λ new.
        ForText (R.remaining (watched_inner symbols.old)) (λ text.
        AreResolved table.now (option_copied kernel.entry) text (has_failed symbols.new) externs.now
        (record externs.now { by_name = by_bytes new.entries }))) }
    ensures refused { IfErr result (λ f.
        f ≢ OutOfMemory
        → ForText (R.remaining (watched_inner symbols.old)) (λ text.
        CannotResolve table.now (option_copied kernel.entry) text (has_failed symbols.new)
        externs.now f)) }
    ensures unread { is_any_sought externs.now.by_name ≡ false → symbols.new ≡ symbols.old }
{
    let typed = typed_externs(alloc, externs, table, kernel)?;
    let addresses = sought_addresses(alloc, externs, symbols)?;
    addressed_externs(alloc, &typed, &addresses)
}

/// Resolves the externs of an object with the table of types `table`: externs with a type by the
/// kernel's types `kernel`, the others by the kernel's symbols, a text in the format of
/// /proc/kallsyms. A weak extern that is missing gets address 0. Without a table, nothing is done.
/// Where no extern without a type is left to resolve, nothing is read. On a refusal the externs
/// stay as before.
///
/// `TypedKsymRequiresKernelBtf` where an extern with a type isn't weak and no kernel types are
/// given; `FunctionNotFound` and `VariableNotFound` where the kernel lacks one that isn't weak;
/// `IncompatibleFunctionSignature` and `IncompatibleVariableType` where its type isn't compatible;
/// `BtfError` where types can't be compared; `InvalidExternType` where the type that declares an
/// extern is neither a function nor a variable; `KallsymsAccessError` where the reader fails or a
/// line isn't UTF-8; `KallsymsParseError` where the address of an extern can't be read;
/// `AmbiguousResolution` where an extern has two addresses.
pub fn resolve_externs<'a, R: BufRead>(
    alloc: Global,
    externs: &mut Externs<'a>,
    table: Option<&Btf<'_>>,
    kernel: Option<&Btf<'_>>,
    symbols: &mut Watched<R>,
) -> Result<(), KsymsError>
    ensures resolved { OnOk result
        (IfSome (option_copied table.entry) (λ t.
        ForText (R.remaining (watched_inner symbols.old)) (λ text.
        AreResolved t (option_copied kernel.entry) text (has_failed symbols.new) externs.old
        externs.new))) }
    ensures refused { IfErr result (λ f.
        f ≢ OutOfMemory
        → IsSomeAnd (option_copied table.entry) (λ t.
        ForText (R.remaining (watched_inner symbols.old)) (λ text.
        CannotResolve t (option_copied kernel.entry) text (has_failed symbols.new) externs.old
        f))) }
    ensures no_table { option_copied table.entry ≡ None
        → (IsOk result) × (externs.new ≡ externs.old) × (symbols.new ≡ symbols.old) }
    ensures err { OnErr result (externs.new ≡ externs.old) }
    ensures unread { is_any_sought externs.old.by_name ≡ false → symbols.new ≡ symbols.old }
{
    let Some(table) = table else {
        return Ok(());
    };
    let resolved = resolved(alloc, externs, table, kernel, symbols)?;
    externs.set_by_name(resolved);
    Ok(())
}
