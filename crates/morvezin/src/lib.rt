//! Load plans of eBPF objects, for callers in C: the functions of `include/morvezin.h`.
#![tactic(auto)]

mod answers;
mod checks;
mod failure;
mod inputs;
mod listings;
mod messages;
mod preparing;
mod tables;

ghost use Rattle.std.specs.Prelude.{◌≡◌, ◌⊎◌, [], pos};
ghost use Rattle.morvezin.specs.Calls.{AreInvalid, Gives, HasText, IsFaultOfSettings, IsRefused};

pub use answers::{Answer, Put};
use answers::{
    INVALID_SETTINGS, INVALID_TYPES, NO_KIND, OK, OUT_OF_MEMORY, REFUSED, failed, put_text,
    with_text, without_memory,
};
use checks::check_answer;
use failure::Failure;
pub use inputs::{Inputs, Types};
use listings::listed_text;
use preparing::plan_text;
use std::alloc::Global;

/// Makes the plan of an object. The answer's text is the plan's, or says why there is none.
#[unsafe(no_mangle)]
pub extern "C" fn morvezin_prepare(alloc: Global, inputs: &Inputs<'_>, answer: &mut Answer)
    ensures planned { answer.new.status ≡ pos 0
        → HasText inputs.now answer.new.text.now × (answer.new.kind ≡ pos 0) }
    ensures refused { answer.new.status ≡ pos 1 → IsRefused inputs.now answer.new.kind }
    ensures settings { answer.new.status ≡ pos 2
        → IsFaultOfSettings inputs.now.settings.now × (answer.new.kind ≡ pos 0) }
    ensures types { answer.new.status ≡ pos 3
        → AreInvalid inputs.now.types.now × (answer.new.kind ≡ pos 0) }
    ensures memory { answer.new.status ≡ pos 4
        → (answer.new.text.now ≡ []) × (answer.new.kind ≡ pos 0) }
    ensures statuses { (answer.new.status ≡ pos 0)
        ⊎ ((answer.new.status ≡ pos 1)
        ⊎ ((answer.new.status ≡ pos 2)
        ⊎ ((answer.new.status ≡ pos 3) ⊎ (answer.new.status ≡ pos 4)))) }
{
    *answer = match plan_text(alloc, inputs) {
        Ok(text) => with_text(text, OK, NO_KIND),
        Err(Failure::Refused(kind, text)) => with_text(text.into_bytes(), REFUSED, kind),
        Err(Failure::Settings(text)) => { with_text(text.into_bytes(), INVALID_SETTINGS, NO_KIND) }
        Err(Failure::Types(text)) => with_text(text.into_bytes(), INVALID_TYPES, NO_KIND),
        Err(Failure::OutOfMemory) => without_memory(),
    };
}

/// The same for a buffer of the caller's: the text is put at its front where it fits.
#[unsafe(no_mangle)]
pub extern "C" fn morvezin_prepare_into(alloc: Global, inputs: &Inputs<'_>, out: &mut [u8]) -> Put
    ensures planned { result.status ≡ pos 0
        → Gives out.old out.new result.len (HasText inputs.now) × (result.kind ≡ pos 0) }
    ensures refused { result.status ≡ pos 1
        → Gives out.old out.new result.len (λ _. IsRefused inputs.now result.kind) }
    ensures settings { result.status ≡ pos 2
        → Gives out.old out.new result.len (λ _. IsFaultOfSettings inputs.now.settings.now)
        × (result.kind ≡ pos 0) }
    ensures types { result.status ≡ pos 3
        → Gives out.old out.new result.len (λ _. AreInvalid inputs.now.types.now)
        × (result.kind ≡ pos 0) }
    ensures memory { result.status ≡ pos 4
        → (result.len ≡ 0) × ((out.new ≡ out.old) × (result.kind ≡ pos 0)) }
    ensures statuses { (result.status ≡ pos 0)
        ⊎ ((result.status ≡ pos 1)
        ⊎ ((result.status ≡ pos 2) ⊎ ((result.status ≡ pos 3) ⊎ (result.status ≡ pos 4)))) }
{
    match plan_text(alloc, inputs) {
        Ok(text) => put_text(&text, out, OK, NO_KIND),
        Err(Failure::Refused(kind, text)) => put_text(text.as_bytes(), out, REFUSED, kind),
        Err(Failure::Settings(text)) => put_text(text.as_bytes(), out, INVALID_SETTINGS, NO_KIND),
        Err(Failure::Types(text)) => put_text(text.as_bytes(), out, INVALID_TYPES, NO_KIND),
        Err(Failure::OutOfMemory) => Put {
            len: 0,
            status: OUT_OF_MEMORY,
            kind: NO_KIND,
        },
    }
}

/// Checks whether a kernel takes an object. The answer's text is a JSON document.
#[unsafe(no_mangle)]
pub extern "C" fn morvezin_check(alloc: Global, inputs: &Inputs<'_>, answer: &mut Answer) {
    *answer = check_answer(alloc, inputs);
}

/// Lists the instructions of an object's programs as they would be loaded.
#[unsafe(no_mangle)]
pub extern "C" fn morvezin_code(alloc: Global, inputs: &Inputs<'_>, answer: &mut Answer) {
    *answer = match listed_text(alloc, inputs) {
        Ok(text) => with_text(text, OK, NO_KIND),
        Err(failure) => failed(failure),
    };
}

/// The version of the library: the first of its numbers times 1000000, the second times 1000, and
/// the third.
#[unsafe(no_mangle)]
pub extern "C" fn morvezin_version() -> u32
    ensures { result ≡ 1000 }
{
    1000
}
