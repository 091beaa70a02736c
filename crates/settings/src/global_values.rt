//! Values of global variables, by name.

ghost use Rattle.std.specs.Prelude.{◌≡◌, ◌==◌, [], length, map, is_some, OnOk, OnErr};
ghost use Rattle.std.specs.BTreeMap.{insert_entry, is_at};
ghost use Rattle.std.specs.Cmp.Lexicographic.{slice_cmp};
ghost use Rattle.std.specs.List.Sorted.{IsStrictlySortedBy};
ghost use Rattle.std.specs.Map.{lookup};
ghost use Rattle.std.specs.Ordering.{nat_cmp};
ghost use Rattle.settings.specs.Names.{by_bytes};

use std::alloc::{AllocError, Global};
use std::collections::BTreeMap;
use std::collections::btree_map::Iter;
use std::marker::Model;

/// The value of a global variable.
#[derive(Debug, Drop)]
pub struct GlobalValue {
    /// The variable's bytes, as many as its size.
    pub bytes: Vec<u8>,
    /// Whether an object without this variable is refused.
    pub must_exist: bool,
}

impl Model for GlobalValue {
    ghost use Rattle.settings.specs.ValuesContent.{GlobalContent};

    ghost Value = { GlobalContent };

    ghost view = { λ g. record { bytes = g.bytes.items; must_exist = g.must_exist } };
}

/// Values of global variables, by the names that these have in an object.
#[derive(Debug)]
pub struct GlobalValues {
    alloc: Global,
    values: BTreeMap<String, GlobalValue>,
}

impl Drop for GlobalValues {
    // A single call where a value is dropped, instead of one call per field.
    fn drop(self) {
        let GlobalValues {
            alloc: _,
            values: _values,
        } = self;
    }
}

impl Model for GlobalValues {
    ghost use Rattle.std.specs.Prelude.{ℕ, List};
    ghost use Rattle.settings.specs.ValuesContent.{GlobalContent};
    ghost use Rattle.settings.specs.Names.{by_bytes};

    ghost Value = { List (List ℕ × GlobalContent) };

    ghost view = { λ g. by_bytes g.values.entries };
}

impl GlobalValues {
    /// An empty collection.
    pub fn new(alloc: Global) -> GlobalValues
        ensures { result ≡ [] }
    {
        GlobalValues {
            alloc,
            values: BTreeMap::new(alloc),
        }
    }

    /// Sets the bytes of a global variable. `must_exist` says whether an object without this
    /// variable is refused. Of several values of one name the last one counts.
    ///
    /// # Errors
    ///
    /// `AllocError` where memory runs out; the values are as before then.
    pub fn set(&mut self, name: &str, bytes: &[u8], must_exist: bool) -> Result<(), AllocError>
        ensures ok { OnOk result
            (self.new
            ≡ insert_entry (slice_cmp nat_cmp) self.old name.now
            (record { bytes = bytes.now; must_exist = must_exist })) }
        ensures err { OnErr result (self.new ≡ self.old) }
    {
        let name = String::from_str(self.alloc, name)?;
        let bytes = Vec::from_slice(self.alloc, bytes)?;
        let value = GlobalValue { bytes, must_exist };
        self.values.insert(name, value)?;
        Ok(())
    }

    /// The names and values, the names strictly rising by bytes.
    pub fn iter(&self) -> Iter<'_, String, GlobalValue>
        ensures value { by_bytes result ≡ self.now }
        ensures rising { IsStrictlySortedBy (slice_cmp nat_cmp) (map (λ e. e.0) self.now) }
    {
        self.values.iter()
    }

    /// Whether a value is set for the global variable with this name.
    pub fn contains(&self, name: &str) -> bool
        ensures { result ≡ is_some (lookup (is_at (slice_cmp nat_cmp name.now)) self.now) }
    {
        self.values.contains_key(name)
    }

    /// Whether no value is set.
    pub fn is_empty(&self) -> bool
        ensures { result ≡ (length self.now == 0) }
    {
        self.values.is_empty()
    }
}
