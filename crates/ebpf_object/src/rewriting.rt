//! The table of types, rewritten to the features that a kernel grants.

ghost use Rattle.std.specs.Prelude.{◌≡◌, ◌≢◌, IfErr, IfOk, OnErr};
ghost use Rattle.btf_records.specs.declared.error.BtfError.TheVariants.{OutOfMemory};
ghost use Rattle.ebpf_object.specs.Rewriting.{AreAnswered, IsRefused, IsRefusedTable, IsRewritten, IsRewrittenTable};

use btf_records::{BtfError, BtfFeature};
use btf_rewrite::{Answers, KsymsIds, fixup_and_sanitize};
use btf_tables::Btf;
use object_file::{ObjectFile, section_sizes, symbol_offsets};
use std::alloc::Global;

/// Rewrites a table, given the sizes of a file's sections and the offsets of its symbols.
fn rewrite_table<'a, F: FnMut(BtfFeature) -> bool>(
    alloc: Global,
    file: &ObjectFile<'_>,
    ksyms: Option<KsymsIds>,
    table: &mut Btf<'a>,
    predicate: F,
) -> Result<Answers, BtfError>
    requires { F.IsAlwaysCallable predicate }
    ensures rewritten { IfOk result (λ answers.
        IsRewrittenTable answers.items file.now ksyms table.old table.new) }
    ensures answered { IfOk result (λ answers. AreAnswered F.FnMut predicate answers.items) }
    ensures refused { IfErr result (λ e.
        e ≢ OutOfMemory → IsRefusedTable F.FnMut predicate file.now ksyms table.old e) }
    ensures err { OnErr result (table.new ≡ table.old) }
{
    let sizes = section_sizes(alloc, file)?;
    let offsets = symbol_offsets(alloc, file)?;
    fixup_and_sanitize(table, &sizes, &offsets, ksyms, predicate)
}

/// Rewrites the table of a file, if there is one and it has a type.
pub(crate) fn rewrite<'a, F: FnMut(BtfFeature) -> bool>(
    alloc: Global,
    file: &ObjectFile<'_>,
    ksyms: Option<KsymsIds>,
    types: &mut Option<Btf<'a>>,
    predicate: F,
) -> Result<Answers, BtfError>
    requires { F.IsAlwaysCallable predicate }
    ensures rewritten { IfOk result (λ answers.
        IsRewritten answers.items file.now ksyms types.old types.new) }
    ensures answered { IfOk result (λ answers. AreAnswered F.FnMut predicate answers.items) }
    ensures refused { IfErr result (λ e.
        e ≢ OutOfMemory → IsRefused F.FnMut predicate file.now ksyms types.old e) }
    ensures err { OnErr result (types.new ≡ types.old) }
{
    match types {
        Some(table) if !table.is_empty() => { rewrite_table(alloc, file, ksyms, table, predicate) }
        _ => Ok(Answers::new()),
    }
}
