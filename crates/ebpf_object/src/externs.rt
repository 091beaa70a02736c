//! The externs of an object, resolved.

ghost use Rattle.std.specs.Prelude.{◌≡◌, ◌≢◌, None, Some, false, option_copied, IfErr, IfSome, IsOk, OnErr, OnOk};
ghost use Rattle.std.specs.Option.{IsSomeAnd};
ghost use Rattle.extern_resolution.specs.Outcomes.{is_any_sought};
ghost use Rattle.extern_resolution.specs.Resolution.{AreResolved, CannotResolve, ForText};
ghost use Rattle.extern_resolution.specs.declared.error.KsymsError.TheVariants.{OutOfMemory};
ghost use Rattle.watched.specs.Watched.{has_failed, watched_inner};

use crate::object::Object;
use btf_tables::Btf;
use extern_resolution::{KsymsError, resolve_externs};
use std::io::BufRead;
use watched::Watched;

impl Object<'_> {
    /// Resolves the externs: those with a type by the kernel's types `kernel`, the others by the
    /// kernel's symbols, a text in the format of /proc/kallsyms. A weak extern that is missing gets
    /// address 0. Without a table of types, nothing is done. Where no extern without a type is left
    /// to resolve, nothing is read. Everything else of the object stays; on a refusal the externs
    /// stay too.
    pub fn resolve_externs<R: BufRead>(
        &mut self,
        kernel: Option<&Btf<'_>>,
        symbols: &mut Watched<R>,
    ) -> Result<(), KsymsError>
        ensures externs { OnOk result
            (IfSome self.old.types (λ t.
            ForText (R.remaining (watched_inner symbols.old)) (λ text.
            AreResolved t (option_copied kernel.entry) text (has_failed symbols.new)
            self.old.externs self.new.externs))) }
        ensures others { self.new ≡ record self.old { externs = self.new.externs } }
        ensures refused { IfErr result (λ f.
            f ≢ OutOfMemory
            → IsSomeAnd self.old.types (λ t.
            ForText (R.remaining (watched_inner symbols.old)) (λ text.
            CannotResolve t (option_copied kernel.entry) text (has_failed symbols.new)
            self.old.externs f))) }
        ensures no_table { self.old.types ≡ None
            → (IsOk result) × (self.new ≡ self.old) × (symbols.new ≡ symbols.old) }
        ensures err { OnErr result (self.new ≡ self.old) }
        ensures unread { is_any_sought self.old.externs.by_name ≡ false
            → symbols.new ≡ symbols.old }
    {
        resolve_externs(
            self.alloc,
            &mut self.externs,
            self.btf.as_ref(),
            kernel,
            symbols,
        )
    }
}
