//! Numbers for maps, in order of name.

ghost use Rattle.std.specs.Prelude.{◌≡◌, ◌==◌, ◌||◌, ◌≤◌, ◌<◌, ◌^◌, ℕ, true, false, IfOk, OnOk};
ghost use Rattle.std.specs.Option.{option_map_or};
ghost use Rattle.std.specs.BTreeSet.{contains};
ghost use Rattle.std.specs.Ordering.{nat_cmp};
ghost use Rattle.load_plan.specs.Numbering.{AreNumbered, IsKept, is_taken, names_of};

use object_maps::Maps;
use settings::Settings;
use std::alloc::{AllocError, Global};
use std::collections::BTreeSet;

/// The numbers of maps are below this one, like file descriptors.
const LIMIT: u32 = 0x8000_0000;

/// Adds a number to the used ones, if there is one.
fn add(used: &mut BTreeSet<u32>, number: Option<u32>) -> Result<(), AllocError>
    ensures { OnOk result
        ((n : ℕ)
        → contains nat_cmp used.new n
        ≡ (contains nat_cmp used.old n || option_map_or (λ m. m == n) number false)) }
{
    if let Some(number) = number {
        used.insert(number)?;
    }
    Ok(())
}

/// The numbers that are set for maps.
fn set_numbers(
    alloc: Global,
    maps: &Maps<'_>,
    settings: &Settings,
) -> Result<BTreeSet<u32>, AllocError>
    ensures { IfOk result (λ used.
        (number : ℕ)
        → contains nat_cmp used number ≡ is_taken (names_of maps.now) settings.now number) }
{
    let mut used = BTreeSet::new(alloc);
    for (name, _map) in maps.iter() {
        add(&mut used, settings.map_number(name))?;
    }
    Ok(used)
}

/// The least number from `start` on that isn't used; `LIMIT` or more where all lesser ones are.
fn next_free(used: &BTreeSet<u32>, start: u32) -> u32
    requires { start ≤ 2 ^ 31 }
    ensures small { result ≤ 2 ^ 31 }
    ensures later { start ≤ result }
    ensures used { (number : ℕ)
        → start ≤ number
        → number < result
        → contains nat_cmp used.now number ≡ true }
    ensures free { result < 2 ^ 31 → contains nat_cmp used.now result ≡ false }
{
    let mut number = start;
    while number < LIMIT && used.contains(&number) {
        number += 1;
    }
    number
}

/// Sets a number for each map that has none: the least number that no map has, in order of the
/// names. Returns whether each map has a number then. If not, each number below 2^31 is one of a
/// map.
///
/// # Errors
///
/// `AllocError` where memory runs out. Numbers that were set before are kept then.
pub fn number_maps(
    alloc: Global,
    maps: &Maps<'_>,
    settings: &mut Settings,
) -> Result<bool, AllocError>
    ensures numbered { IfOk result (λ all.
        all ≡ true
        → AreNumbered (names_of maps.now) (names_of maps.now) settings.old settings.new) }
    ensures full { IfOk result (λ all.
        all ≡ false
        → (n : ℕ)
        → n < 2 ^ 31
        → is_taken (names_of maps.now) settings.new n ≡ true) }
    ensures kept { IsKept settings.old settings.new }
{
    let used = set_numbers(alloc, maps, settings)?;
    let mut number = 0;
    for (name, _map) in maps.iter() {
        if settings.map_number(name).is_none() {
            number = next_free(&used, number);
            if number >= LIMIT {
                return Ok(false);
            }
            settings.set_map(name, number)?;
            number += 1;
        }
    }
    Ok(true)
}
