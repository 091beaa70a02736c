//! Settings, by name.

ghost use Rattle.std.specs.Prelude.{◌≡◌, ◌<◌, ◌^◌, [], IfSome, OnOk, OnErr};
ghost use Rattle.std.specs.BTreeMap.{insert_entry, is_at};
ghost use Rattle.std.specs.Cmp.Lexicographic.{slice_cmp};
ghost use Rattle.std.specs.Map.{lookup};
ghost use Rattle.std.specs.Ordering.{nat_cmp};

use crate::global_values::GlobalValues;
use std::alloc::{AllocError, Global};
use std::collections::BTreeMap;
use std::marker::Model;

/// Numbers of maps and values of global variables, by the names that these have in an object.
#[derive(Debug)]
pub struct Settings {
    alloc: Global,
    maps: BTreeMap<String, u32>,
    globals: GlobalValues,
}

impl Drop for Settings {
    // A single call where a value is dropped, instead of one call per field.
    fn drop(self) {
        let Settings {
            alloc: _,
            maps: _maps,
            globals: _globals,
        } = self;
    }
}

impl Model for Settings {
    ghost use Rattle.settings.specs.Content.{SettingsContent, AreMapNumbers};
    ghost use Rattle.settings.specs.Names.{by_bytes};

    ghost Value = { SettingsContent };

    ghost view = { λ s. record { maps = by_bytes s.maps.entries; globals = s.globals } };

    ghost invariant = { λ s. AreMapNumbers s.maps.entries };
}

impl Settings {
    /// Empty settings.
    pub fn new(alloc: Global) -> Settings
        ensures { result ≡ record { maps = []; globals = [] } }
    {
        Settings {
            alloc,
            maps: BTreeMap::new(alloc),
            globals: GlobalValues::new(alloc),
        }
    }

    /// Sets the number by which programs know a map: its file descriptor, or a number that stands
    /// for it. The number must be below 2^31, like file descriptors. Of several numbers of one name
    /// the last one counts.
    ///
    /// # Errors
    ///
    /// `AllocError` where memory runs out; the settings are as before then.
    pub fn set_map(&mut self, name: &str, number: u32) -> Result<(), AllocError>
        requires { number < 2 ^ 31 }
        ensures ok { OnOk result
            (self.new
            ≡ record self.old
            { maps = insert_entry (slice_cmp nat_cmp) self.old.maps name.now number }) }
        ensures err { OnErr result (self.new ≡ self.old) }
    {
        let name = String::from_str(self.alloc, name)?;
        self.maps.insert(name, number)?;
        Ok(())
    }

    /// Sets the bytes of a global variable. `must_exist` says whether an object without this
    /// variable is refused. Of several values of one name the last one counts.
    ///
    /// # Errors
    ///
    /// `AllocError` where memory runs out; the settings are as before then.
    pub fn set_global(
        &mut self,
        name: &str,
        bytes: &[u8],
        must_exist: bool,
    ) -> Result<(), AllocError>
        ensures ok { OnOk result
            (self.new
            ≡ record self.old {
              globals = insert_entry (slice_cmp nat_cmp) self.old.globals name.now
                  (record { bytes = bytes.now; must_exist = must_exist });
            }) }
        ensures err { OnErr result (self.new ≡ self.old) }
    {
        self.globals.set(name, bytes, must_exist)
    }

    /// The number that is set for a map, which is below 2^31.
    pub fn map_number(&self, name: &str) -> Option<u32>
        ensures value { result ≡ lookup (is_at (slice_cmp nat_cmp name.now)) self.now.maps }
        ensures small { IfSome result (λ number. number < 2 ^ 31) }
    {
        self.maps.get(name).copied()
    }

    /// The values of the global variables.
    pub fn globals(&self) -> &GlobalValues
        ensures { result.now ≡ self.now.globals }
    {
        &self.globals
    }
}
