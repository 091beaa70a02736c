//! Wanted symbols.

ghost use Rattle.std.specs.Prelude.{◌≡◌, ℕ, List, None};
ghost use Rattle.kernel_symbols.specs.Reading.{address_under};

use crate::wanted_names::WantedByName;
use std::alloc::Global;

/// A wanted symbol, and its address if it was found.
#[derive(Clone, Copy, Debug, Drop)]
pub(crate) struct Wanted<'a> {
    pub(crate) name: &'a str,
    pub(crate) address: Option<u64>,
}

/// The addresses of wanted symbols.
#[derive(Debug, Drop)]
pub struct Addresses<'a> {
    pub(crate) by_name: WantedByName<'a>,
}

impl<'a> Addresses<'a> {
    /// No addresses.
    pub fn none(alloc: Global) -> Addresses<'a>
        ensures { (name : List ℕ) → address_under result name ≡ None }
    {
        Addresses {
            by_name: WantedByName::none(alloc),
        }
    }

    /// The address of a symbol of this name, where it was wanted and found.
    pub fn get(&self, name: &str) -> Option<u64>
        ensures { result ≡ address_under self.now name.now }
    {
        let wanted = self.by_name.get(name.as_bytes())?;
        wanted.address
    }
}
