//! What the arguments of `bpf_prepare` ask for.

ghost use Rattle.std.specs.Prelude.{◌≡◌, ◌≢◌, IfErr, OnOk, Some};
ghost use Rattle.command_line.specs.SettingWords.{with_line, without, IsLineFault};
ghost use Rattle.command_line.specs.declared.setting_words.WordError.TheVariants.{OutOfMemory};

use crate::setting_words::{WordError, set_globals, set_maps};
use btf_records::{BtfFeature, Endianness};
use run_settings::{GrantedFeatures, RunSettings};
use std::alloc::Global;

/// What the arguments of a command line ask for. File names are as they are given.
#[derive(Debug, Drop)]
pub struct Arguments<'w> {
    /// The object's file.
    pub object: &'w str,
    /// Files with kernel types, in order.
    pub types: Vec<&'w str>,
    /// The byte order of all of them.
    pub types_order: Endianness,
    /// The file with the kernel's symbols.
    pub symbols: Option<&'w str>,
    /// The file of settings.
    pub settings: Option<&'w str>,
    /// Whether types are rewritten before type relocations are resolved in them.
    pub rewrite_first: bool,
    /// Whether notes on the object are printed.
    pub notes: bool,
    /// Whether maps without a number get one.
    pub number_maps: bool,
    pub(crate) has_older_helpers: bool,
    pub(crate) maps: Vec<&'w str>,
    pub(crate) globals: Vec<&'w str>,
    pub(crate) denied: Vec<BtfFeature>,
}

/// The features without those that are denied.
fn without(granted: GrantedFeatures, denied: &[BtfFeature]) -> GrantedFeatures
    ensures { result ≡ without granted denied.now }
{
    let mut features = granted;
    for feature in denied {
        features = features.with_answer(*feature, false);
    }
    features
}

impl<'w> Arguments<'w> {
    /// Sets what the command line sets, over what is already set.
    ///
    /// # Errors
    ///
    /// The first argument that sets nothing, numbers of maps first, then values of variables; and
    /// `OutOfMemory`.
    pub fn set_over(&self, alloc: Global, settings: &mut RunSettings) -> Result<(), WordError>
        ensures ok { OnOk result (with_line self.now settings.old ≡ Some settings.new) }
        ensures refused { IfErr result (λ e. e ≢ OutOfMemory → IsLineFault self.now e) }
    {
        set_maps(alloc, settings, &self.maps)?;
        set_globals(alloc, settings, &self.globals)?;
        settings.features = without(settings.features, &self.denied);
        if self.has_older_helpers {
            settings.probe = false;
        }
        Ok(())
    }
}
