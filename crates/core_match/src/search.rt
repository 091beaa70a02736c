//! Searches by name.

ghost use Rattle.std.specs.Prelude.{◌≡◌, ◌≢◌, IfOk, IfErr, Ok, Err};
ghost use Rattle.core_match.specs.Looks.{searched};
ghost use Rattle.core_match.specs.Searches.{member_found};
ghost use Rattle.core_spec.specs.declared.error.AccessError.TheVariants.{BtfError as TypeError};
ghost use Rattle.btf_records.specs.declared.error.BtfError.TheVariants.{OutOfMemory};

use crate::turn::{Memory, Turn, entered, next_member};
use btf_tables::Btf;
use core_spec::{AccessError, Place};

/// A member that was found.
#[derive(Clone, Copy)]
pub struct FoundMember {
    /// Its struct or union, and its index there.
    pub place: Place,
    /// The id of its type.
    pub type_id: u32,
    /// Its offset in bits, including the offset that the search began with, if it fits in 32 bits.
    pub bits: Option<u32>,
    /// The number of members on the path to it: members without names, and itself.
    pub parts: usize,
}

/// The member of the target's struct or union `root` that has this name and is compatible with the
/// local type `type_id`: libbpf's `bpf_core_match_member` (tools/lib/bpf/relo_core.c). `bits` is
/// the offset of `root` in bits.
///
/// Members are compared in order. A struct or union member without a name is searched in its turn.
/// The first member with the name decides the search of its struct or union. A struct or union that
/// was searched without a match isn't searched again.
///
/// `MaximumNestingLevelReached` where a struct or union contains itself, and the errors of the
/// look-ups of names and types and of the comparisons of types.
pub fn find_member<'t>(
    local: &Btf<'t>,
    type_id: u32,
    name: &str,
    target: &Btf<'t>,
    root: u32,
    bits: Option<u32>,
) -> Result<Option<FoundMember>, AccessError>
    ensures value { IfOk result (λ found.
        member_found (searched local.now type_id name.now target.now) root bits ≡ Ok found) }
    ensures refused { IfErr result (λ e.
        e ≢ TypeError OutOfMemory
        → member_found (searched local.now type_id name.now target.now) root bits ≡ Err e) }
{
    let _root = target.type_by_id(root)?;
    let mut memory = Memory::new(target.allocator());
    let mut frame = entered(root, bits);
    loop {
        match next_member(local, type_id, name, target, frame, &mut memory)? {
            Turn::Found(found) => return Ok(Some(found)),
            Turn::On(next) => frame = next,
            Turn::Over => return Ok(None),
        }
    }
}
