//! Wanted symbols by name.

ghost use Rattle.std.specs.Prelude.{◌≡◌, ◌<◌, ℕ, List, [], None, Some, if◌then◌else◌, IfOk, OnOk};
ghost use Rattle.std.specs.Str.{bytes_eq};
ghost use Rattle.string_table.specs.Names.{by_bytes};
ghost use Rattle.kernel_symbols.specs.Reading.{AreWanted, HasNoAddress};
ghost use Rattle.kernel_symbols.specs.Wanted.{AreMarked, mark, under, with_address};

use crate::wanted::Wanted;
use std::alloc::{AllocError, Global};
use std::collections::BTreeMap;
use std::marker::Model;

/// The number of marks.
const MARKS: usize = 256;

/// The mark of a name: a hash of its length and its last byte.
fn mark(name: &[u8]) -> usize
    ensures value { result ≡ mark name.now }
    ensures small { result < MARKS }
{
    let last = if name.is_empty() {
        0
    } else {
        name[name.len() - 1]
    };
    name.len() % 32 * 8 + usize::from(last % 8)
}

/// Wanted symbols by name.
#[derive(Debug, Drop)]
pub(crate) struct WantedByName<'a> {
    by_name: BTreeMap<&'a [u8], Wanted<'a>>,
    /// For each mark, whether a wanted name has it. Most names of a text have a mark that no wanted
    /// name has, and need no look-up.
    is_wanted: [bool; MARKS],
}

impl<'a> Model for WantedByName<'a> {
    ghost use Rattle.std.specs.Prelude.{ℕ, List};
    ghost use Rattle.string_table.specs.Names.{by_bytes};
    ghost use Rattle.kernel_symbols.specs.Wanted.{AreMarked};
    ghost use Rattle.kernel_symbols.specs.declared.wanted.Wanted.{Wanted};

    ghost Value = { List (List ℕ × Wanted) };

    ghost view = { λ w. by_bytes w.by_name.entries };

    ghost invariant = { λ w. AreMarked (by_bytes w.by_name.entries) w.is_wanted };
}

/// Adds a name to the wanted names.
#[tactic(auto, using(crate::proofs::WantedLemmas::marked_more))]
fn want<'a>(
    names: &mut BTreeMap<&'a [u8], Wanted<'a>>,
    is_wanted: &mut [bool; MARKS],
    name: &'a str,
) -> Result<(), AllocError>
    requires { AreMarked (by_bytes names.old.entries) is_wanted.old }
    ensures marked { OnOk result (AreMarked (by_bytes names.new.entries) is_wanted.new) }
    ensures wanted { OnOk result
        ((other : List ℕ)
        → under (by_bytes names.new.entries) other
        ≡ (if bytes_eq name.now other
        then Some (record { name = name.entry; address = None })
        else under (by_bytes names.old.entries) other)) }
{
    let wanted = Wanted {
        name,
        address: None,
    };
    is_wanted[mark(name.as_bytes())] = true;
    names.insert(name.as_bytes(), wanted)?;
    Ok(())
}

/// Writes an address.
fn put(wanted: &mut Wanted<'_>, address: Option<u64>)
    ensures { wanted.new ≡ record { name = wanted.old.name; address = address } }
{
    wanted.address = address;
}

impl<'a> WantedByName<'a> {
    /// No symbol is wanted.
    pub(crate) fn none(alloc: Global) -> WantedByName<'a>
        ensures { result ≡ [] }
    {
        WantedByName {
            by_name: BTreeMap::new(alloc),
            is_wanted: [false; MARKS],
        }
    }

    /// These names as wanted symbols without an address.
    pub(crate) fn of(alloc: Global, names: &[&'a str]) -> Result<WantedByName<'a>, AllocError>
        ensures { IfOk result (λ by_name. AreWanted names.now by_name × HasNoAddress by_name) }
    {
        let mut by_name = BTreeMap::new(alloc);
        let mut is_wanted = [false; MARKS];
        for name in names {
            want(&mut by_name, &mut is_wanted, name)?;
        }
        Ok(WantedByName { by_name, is_wanted })
    }

    /// The wanted symbol of a name.
    pub(crate) fn get(&self, name: &[u8]) -> Option<Wanted<'a>>
        ensures { result ≡ under self.now name.now }
    {
        if !self.is_wanted[mark(name)] {
            return None;
        }
        self.by_name.get(name).copied()
    }

    /// Sets the address of the wanted symbol of a name.
    pub(crate) fn put(&mut self, name: &[u8], address: Option<u64>)
        ensures { (other : List ℕ)
            → under self.new other
            ≡ (if bytes_eq name.now other
            then with_address address (under self.old name.now)
            else under self.old other) }
    {
        if let Some(wanted) = self.by_name.get_mut(name) {
            put(wanted, address);
        }
    }
}
