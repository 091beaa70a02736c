//! What a user sets for a run.

ghost use Rattle.std.specs.Prelude.{◌≡◌};
ghost use Rattle.run_settings.specs.Documents.{nothing_set};

use crate::features::GrantedFeatures;
use settings::Settings;
use std::alloc::Global;
use std::marker::Model;

/// Numbers of maps and values of global variables, which features of types the kernel grants, and
/// whether it has the newer helpers that read memory.
#[derive(Debug, Drop)]
pub struct RunSettings {
    pub settings: Settings,
    pub features: GrantedFeatures,
    pub probe: bool,
}

impl Model for RunSettings {
    ghost use Rattle.run_settings.specs.Documents.{RunContent};

    ghost Value = { RunContent };

    ghost view = { λ s. record { settings = s.settings; features = s.features; probe = s.probe } };
}

impl RunSettings {
    /// The default settings: all features are granted, and the kernel has the newer helpers.
    pub fn new(alloc: Global) -> RunSettings
        ensures { result ≡ nothing_set }
    {
        RunSettings {
            settings: Settings::new(alloc),
            features: GrantedFeatures::all(),
            probe: true,
        }
    }
}
