//! Laws of functions that replace others. The function here computes nothing: its contract is the
//! theorem.

ghost use Rattle.object_parts.specs.Installed.{ChangesAreInstalled};

/// Changed functions, one for each function in order of key, can replace the functions, and then
/// each one is changed under its key.
#[tactic(auto, using(crate::proofs::Changed::changes_are_installed))]
pub fn changes_are_installed()
    ensures { ChangesAreInstalled }
{}
