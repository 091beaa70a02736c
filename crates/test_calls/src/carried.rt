//! Answers that a rewriting carries over, as another crate would prove it from the contracts of the
//! public calls.

ghost use Rattle.std.specs.Prelude.{◌≡◌, Bool, IfOk, true, ℕ};
ghost use Rattle.btf_sanitize.specs.Facts.{number_named};
ghost use Rattle.btf_rewrite.specs.Carrying.{AreLeft, stays_in};
ghost use Rattle.btf_rewrite.specs.Sanitizing.{facts_in, stepped};

use btf::{Answers, Btf, BtfError, BtfFeature, KsymsIds, fixup_and_sanitize};
use std::collections::BTreeMap;

/// The sizes of a type before and after a rewriting, and the answers that this rests on.
#[derive(Drop)]
pub struct SizeAfter {
    pub answers: Answers,
    pub before: Option<u64>,
    pub after: Option<u64>,
}

/// Finds the size of a type before and after a rewriting. The two are the same where the records
/// that are reached from the type stay.
pub fn size_after<'m, 'n, F: FnMut(BtfFeature) -> bool>(
    table: &mut Btf<'_>,
    sizes: &'m BTreeMap<&'n str, u64>,
    offsets: &'m BTreeMap<&'n str, u64>,
    ksyms: Option<KsymsIds>,
    predicate: F,
    type_id: u32,
) -> Result<SizeAfter, BtfError>
    requires { F.IsAlwaysCallable predicate }
    ensures { IfOk result (λ sizes_of.
        (reached : ℕ → Bool)
        → AreLeft
        (stays_in ksyms table.old
        (facts_in sizes_of.answers.items (number_named sizes.now.entries)
        (number_named offsets.now.entries) (stepped ksyms table.old))) reached table.old
        → reached type_id ≡ true
        → sizes_of.after ≡ sizes_of.before) }
{
    let before = table.type_size(type_id).ok();
    let answers = fixup_and_sanitize(table, sizes, offsets, ksyms, predicate)?;
    let after = table.type_size(type_id).ok();
    Ok(SizeAfter {
        answers,
        before,
        after,
    })
}
