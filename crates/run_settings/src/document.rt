//! Settings of a TOML document.

ghost use Rattle.std.specs.Prelude.{◌≡◌, None, Some, Ok, Err, IfOk, if◌then◌else◌};
ghost use Rattle.toml.specs.View.{table_view, view};
ghost use Rattle.run_settings.specs.Documents.{number_of, settings_of, with_features, with_member, with_members, with_numbers};
ghost use Rattle.run_settings.specs.declared.error.SettingsError.TheVariants.{Invalid};

use crate::error::SettingsError;
use crate::features::{GrantedFeatures, feature_named};
use crate::globals::set_globals;
use crate::run_settings::RunSettings;
use settings::Settings;
use std::alloc::{AllocError, Global};
use toml::{Table, Value};

/// The number of a map, below 2^31.
pub(crate) fn number_of(value: &Value) -> Option<u32>
    ensures { result ≡ number_of (view value.now) }
{
    let number = value.as_integer()?;
    if number < 0 || number >= 0x8000_0000 {
        return None;
    }
    Some(number as u32)
}

/// Sets the numbers of the maps of a table. Returns whether each member is one.
fn set_numbers(settings: &mut Settings, table: &Table) -> Result<bool, AllocError>
    ensures value { IfOk result (λ is_set.
        with_numbers settings.old.maps (table_view table.now)
        ≡ (if is_set then Some settings.new.maps else None)) }
    ensures others { settings.new.globals ≡ settings.old.globals }
{
    let mut entries = table.iter();
    while let Some((name, value)) = entries.next() {
        let Some(number) = number_of(value) else {
            return Ok(false);
        };
        settings.set_map(name.as_str(), number)?;
    }
    Ok(true)
}

/// The granted features with the answers of a table, if each member is an answer.
fn with_features(granted: GrantedFeatures, table: &Table) -> Option<GrantedFeatures>
    ensures { result ≡ with_features granted (table_view table.now) }
{
    let mut features = granted;
    let mut entries = table.iter();
    while let Some((name, value)) = entries.next() {
        let feature = feature_named(name.as_str())?;
        features = features.with_answer(feature, value.as_bool()?);
    }
    Some(features)
}

impl RunSettings {
    /// Takes a member of a document's table. Returns whether it is a valid one.
    fn set_member(&mut self, alloc: Global, key: &str, value: &Value) -> Result<bool, AllocError>
        ensures { IfOk result (λ is_set.
            with_member self.old key.now (view value.now)
            ≡ (if is_set then Some self.new else None)) }
    {
        if key == "maps" {
            let Some(table) = value.as_table() else {
                return Ok(false);
            };
            return set_numbers(&mut self.settings, table);
        }
        if key == "globals" {
            let Some(table) = value.as_table() else {
                return Ok(false);
            };
            return set_globals(alloc, &mut self.settings, table);
        }
        if key == "features" {
            let Some(table) = value.as_table() else {
                return Ok(false);
            };
            let Some(features) = with_features(self.features, table) else {
                return Ok(false);
            };
            self.features = features;
            return Ok(true);
        }
        if key == "probe" {
            let Some(probe) = value.as_bool() else {
                return Ok(false);
            };
            self.probe = probe;
            return Ok(true);
        }
        Ok(false)
    }

    /// Takes the members of a document's table. Returns whether each is a valid one.
    fn set_members(&mut self, alloc: Global, table: &Table) -> Result<bool, AllocError>
        ensures { IfOk result (λ is_set.
            with_members self.old (table_view table.now)
            ≡ (if is_set then Some self.new else None)) }
    {
        let mut entries = table.iter();
        while let Some((key, value)) = entries.next() {
            if !self.set_member(alloc, key.as_str(), value)? {
                return Ok(false);
            }
        }
        Ok(true)
    }

    /// The settings of a TOML document. `maps` has the number of each map. `globals` has for each
    /// variable its bytes as hexadecimal digits (`value`) and whether the object must have it
    /// (`required`, false by default). `features` has for each feature whether the kernel grants it
    /// (yes by default). `probe` says whether the kernel has the newer helpers that read memory
    /// (true by default).
    ///
    /// # Errors
    ///
    /// `Invalid` where the text isn't a TOML document, or its table has another form; and
    /// `OutOfMemory`.
    pub fn from_toml(alloc: Global, text: &str) -> Result<RunSettings, SettingsError>
        ensures value { IfOk result (λ s. settings_of text.now ≡ Some s) }
        ensures invalid { result ≡ Err Invalid → settings_of text.now ≡ None }
    {
        let table = match toml::table_from_str(alloc, text) {
            Ok(table) => table,
            Err(error) if error.is_memory() => return Err(SettingsError::OutOfMemory),
            Err(_) => return Err(SettingsError::Invalid),
        };
        let mut settings = RunSettings::new(alloc);
        if settings.set_members(alloc, &table)? {
            return Ok(settings);
        }
        Err(SettingsError::Invalid)
    }
}
