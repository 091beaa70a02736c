//! The calls that rewrite a table for one kernel.

ghost use Rattle.std.specs.Prelude.{◌≡◌, ◌≢◌, ◌⊎◌, IfErr, IfOk, OnErr, OnOk};
ghost use Rattle.btf_records.specs.declared.error.BtfError.TheVariants.{OutOfMemory};
ghost use Rattle.btf_sanitize.specs.Facts.{number_named};
ghost use Rattle.btf_sanitize.specs.Kept.{Keeps};
ghost use Rattle.btf_rewrite.specs.Ksyms.{KsymsFault, StepKeeps, leaves};
ghost use Rattle.btf_storage.specs.Faultless.{IsFaultless};
ghost use Rattle.btf_tables.specs.GrownTables.{TextsStay};
ghost use Rattle.btf_rewrite.specs.Carrying.{Carries, stays_in};
ghost use Rattle.btf_rewrite.specs.Sanitizing.{AreAnswersFor, IsAccepted, IsRefused, StepFault, StepStays, facts_in, ksyms_in, sanitized, stepped, with_ksyms};

use crate::rewriting::{fixup_and_sanitize, fixup_ksyms_datasec};
use btf_records::{BtfError, BtfFeature};
use btf_sanitize::Answers;
use btf_storage::KsymsIds;
use btf_tables::Btf;
use std::collections::BTreeMap;

/// Rewriting of a table for one kernel.
///
/// The calls are those of a trait, so that crates that only look types up can be proved before the
/// functions that rewrite tables are.
pub trait RewriteBtf {
    /// Rewrites the section `.ksyms`, of this id, and the records that it names:
    /// [`fixup_ksyms_datasec`].
    ///
    /// # Errors
    ///
    /// Those of [`fixup_ksyms_datasec`]; the table is as before then.
    fn fixup_ksyms_datasec(
        &mut self,
        section: u32,
        placeholder: Option<u32>,
    ) -> Result<(), BtfError>;

    /// Rewrites the table to use only the features that a kernel grants, by the predicate:
    /// [`fixup_and_sanitize`].
    ///
    /// # Errors
    ///
    /// Those of [`fixup_and_sanitize`]; the table is as before then.
    fn fixup_and_sanitize<'m, 'n, F: FnMut(BtfFeature) -> bool>(
        &mut self,
        sizes: &'m BTreeMap<&'n str, u64>,
        offsets: &'m BTreeMap<&'n str, u64>,
        ksyms: Option<KsymsIds>,
        predicate: F,
    ) -> Result<Answers, BtfError>
        requires { F.IsAlwaysCallable predicate };
}

impl<'a> RewriteBtf for Btf<'a> {
    fn fixup_ksyms_datasec(
        &mut self,
        section: u32,
        placeholder: Option<u32>,
    ) -> Result<(), BtfError>
        ensures table { OnOk result (self.new ≡ with_ksyms section placeholder self.old) }
        ensures refused { IfErr result (λ e.
            e ≢ OutOfMemory → KsymsFault self.old.order (ksyms_in self.old section placeholder) e) }
        ensures accepted { OnOk result
            (IsFaultless (KsymsFault self.old.order (ksyms_in self.old section placeholder))) }
        ensures keeps { OnOk result
            (StepKeeps (ksyms_in self.old section placeholder) self.new.types) }
        ensures texts { OnOk result (TextsStay self.old self.new) }
        ensures carries { OnOk result
            (Carries (leaves (ksyms_in self.old section placeholder)) self.old self.new) }
        ensures err { OnErr result (self.new ≡ self.old) }
    {
        fixup_ksyms_datasec(self, section, placeholder)
    }

    fn fixup_and_sanitize<'m, 'n, F: FnMut(BtfFeature) -> bool>(
        &mut self,
        sizes: &'m BTreeMap<&'n str, u64>,
        offsets: &'m BTreeMap<&'n str, u64>,
        ksyms: Option<KsymsIds>,
        predicate: F,
    ) -> Result<Answers, BtfError>
        requires { F.IsAlwaysCallable predicate }
        ensures table { IfOk result (λ answers.
            self.new
            ≡ sanitized answers.items (number_named sizes.now.entries)
            (number_named offsets.now.entries) (stepped ksyms self.old)) }
        ensures answers { IfOk result (λ answers.
            AreAnswersFor F.FnMut predicate (stepped ksyms self.old) answers.items) }
        ensures refused { IfErr result (λ e.
            e ≢ OutOfMemory
            → StepFault ksyms self.old e
            ⊎ (IsFaultless (StepFault ksyms self.old)
            × IsRefused F.FnMut predicate (number_named sizes.now.entries)
            (number_named offsets.now.entries) (stepped ksyms self.old) e)) }
        ensures stepped { OnOk result (IsFaultless (StepFault ksyms self.old)) }
        ensures accepted { IfOk result (λ answers.
            IsAccepted answers.items (number_named sizes.now.entries)
            (number_named offsets.now.entries) (stepped ksyms self.old)) }
        ensures step { OnOk result (StepStays ksyms self.old) }
        ensures keeps { IfOk result (λ answers.
            Keeps
            (facts_in answers.items (number_named sizes.now.entries)
            (number_named offsets.now.entries) (stepped ksyms self.old)) self.new.types) }
        ensures texts { OnOk result (TextsStay self.old self.new) }
        ensures carries { IfOk result (λ answers.
            Carries
            (stays_in ksyms self.old
            (facts_in answers.items (number_named sizes.now.entries)
            (number_named offsets.now.entries) (stepped ksyms self.old))) self.old self.new) }
        ensures err { OnErr result (self.new ≡ self.old) }
    {
        fixup_and_sanitize(self, sizes, offsets, ksyms, predicate)
    }
}
