//! The relocation of an object's functions.

ghost use Rattle.std.specs.Prelude.{◌≡◌, map, true, IfErr, IfOk, OnErr, OnOk};
ghost use Rattle.std.specs.Prelude.{List, ℕ};
ghost use Rattle.std.specs.Map.{values_of};
ghost use Rattle.object_parts.specs.Content.{AreKeyed};
ghost use Rattle.object_parts.specs.Installed.{AreChanged};
ghost use Rattle.slot_relocation.specs.Walks.{IsRefusal, IsStop, changed, first_of, is_sound};
ghost use Rattle.slot_relocation.specs.Writes.{AreFaultless};

use crate::rule::{Pass, Refusal};
use object_parts::{Function, Functions, changes_are_installed};
use std::alloc::{AllocError, AllocFailed, Global};

/// A fault of the relocation at an offset of a function's section.
#[derive(Clone, Copy, Debug)]
pub struct FaultAt<'f, E> {
    pub function: &'f str,
    pub section_index: usize,
    pub offset: u64,
    pub fault: E,
}

/// Why functions aren't relocated.
#[derive(Clone, Copy, Debug)]
pub enum Stop<'f, E> {
    /// A relocation has a fault.
    Fault(FaultAt<'f, E>),
    /// Memory ran out.
    OutOfMemory,
}

impl<'f, E> From<AllocError> for Stop<'f, E> {
    ghost use Rattle.slot_relocation.specs.declared.driver.Stop.TheVariants.{OutOfMemory};

    ghost from_gives = { λ _ r. r ≡ OutOfMemory };

    fn from(_error: AllocError) -> Stop<'f, E> {
        Stop::OutOfMemory
    }
}

impl<'f, E, T: Drop> From<AllocFailed<T>> for Stop<'f, E> {
    ghost use Rattle.slot_relocation.specs.declared.driver.Stop.TheVariants.{OutOfMemory};

    ghost from_gives = { λ _ r. r ≡ OutOfMemory };

    fn from(_error: AllocFailed<T>) -> Stop<'f, E> {
        Stop::OutOfMemory
    }
}

/// The first of two faults in a pass's order; `earlier` where neither comes before the other.
fn first_of<'f, A, E: Copy, P: Pass<A, E>>(
    pass: &P,
    earlier: Option<FaultAt<'f, E>>,
    met: FaultAt<'f, E>,
) -> FaultAt<'f, E>
    ensures { result ≡ first_of (P.before pass.now) earlier.entry met.entry }
{
    let Some(earlier) = earlier else {
        return met;
    };
    if pass.is_before(&met, &earlier) {
        met
    } else {
        earlier
    }
}

/// A function after the relocations inside it.
fn relocated<'f, A, E: Copy, P: Pass<A, E>>(
    pass: &P,
    function: &Function<'f>,
) -> Result<Function<'f>, Refusal<E>>
    ensures value { IfOk result (λ f.
        f ≡ changed (P.rule pass.now) (P.inside pass.now) function.now) }
    ensures sound { OnOk result
        (is_sound (P.rule pass.now) (P.inside pass.now function.now) function.now ≡ true) }
    ensures refused { IfErr result
        (IsRefusal (P.rule pass.now) (P.inside pass.now function.now) function.now) }
{
    let slots = pass.slots_after(function)?;
    let relocated = function.with_instructions(slots)?;
    Ok(relocated)
}

/// The functions after the relocations inside them, in order of key. Of several faults the first in
/// the pass's order is returned.
fn relocated_functions<'g, 'f, A, E: Copy, P: Pass<A, E>>(
    alloc: Global,
    pass: &P,
    functions: &'g Functions<'f>,
) -> Result<Vec<Function<'f>>, Stop<'f, E>>
    ensures value { IfOk result (λ list.
        list.items
        ≡ map (changed (P.rule pass.now) (P.inside pass.now)) (values_of functions.now)) }
    ensures keyed { AreKeyed functions.now }
    ensures sound { OnOk result (AreFaultless (P.rule pass.now) (P.inside pass.now) functions.now) }
    ensures fault { IfErr result (IsStop (P.rule pass.now) (P.inside pass.now) functions.now) }
{
    let mut list = Vec::new(alloc);
    let mut first = None;
    for (_, function) in functions.iter() {
        match relocated(pass, function) {
            Ok(function) => list.push(function)?,
            Err(Refusal::Fault { offset, fault }) => {
                let met = FaultAt {
                    function: function.name,
                    section_index: function.section_index,
                    offset,
                    fault,
                };
                first = Some(first_of(pass, first, met));
            }
            Err(Refusal::OutOfMemory) => return Err(Stop::OutOfMemory),
        }
    }
    match first {
        Some(at) => Err(Stop::Fault(at)),
        None => Ok(list),
    }
}

/// Makes the relocations of a pass in all functions, each function's in the pass's order. All new
/// functions are made before the first one is replaced: on a fault, or where memory runs out, the
/// functions stay as they are. Of several faults the first in the pass's order is returned.
pub fn relocate_functions<'f, A, E: Copy, P: Pass<A, E>>(
    alloc: Global,
    pass: &P,
    functions: &mut Functions<'f>,
) -> Result<(), Stop<'f, E>>
    ensures relocated { OnOk result
        (AreChanged (changed (P.rule pass.now) (P.inside pass.now)) functions.old functions.new) }
    ensures sound { OnOk result (AreFaultless (P.rule pass.now) (P.inside pass.now) functions.old) }
    ensures fault { IfErr result (IsStop (P.rule pass.now) (P.inside pass.now) functions.old) }
    ensures unchanged { OnErr result (functions.new ≡ functions.old) }
{
    changes_are_installed();
    let list = relocated_functions(alloc, pass, functions)?;
    functions.install(list);
    Ok(())
}
