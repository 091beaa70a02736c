//! Turns of a search; each compares one member.

ghost use Rattle.std.specs.Prelude.{◌≡◌, ◌≢◌, ◌<◌, ◌++◌, ◌∷◌, [], IfOk, IfErr, IfSome, Err, true, false, slice_get};
ghost use Rattle.core_match.specs.EmptyTypes.{is_noted};
ghost use Rattle.core_match.specs.Looks.{searched};
ghost use Rattle.core_match.specs.Searches.{found_here};
ghost use Rattle.core_match.specs.Stacks.{IsEntered, IsFollowed, IsLeft, IsOpenInside, IsSound, IsTurn, entered, is_open, stack_value};
ghost use Rattle.core_spec.specs.declared.error.AccessError.TheVariants.{BtfError as TypeError, MaximumNestingLevelReached};
ghost use Rattle.btf_records.specs.Fields.{members_of};
ghost use Rattle.btf_records.specs.declared.error.BtfError.TheVariants.{OutOfMemory};

use crate::look::{Look, look_at};
use crate::search::FoundMember;
use btf_encoding::TypeRef;
use btf_records::BtfMember;
use btf_tables::Btf;
use core_spec::{AccessError, Place, bits_after};
use std::alloc::{AllocError, Global};
use std::collections::BTreeSet;

/// A struct or union whose members are being compared.
#[derive(Clone, Copy)]
pub(crate) struct Frame {
    pub(crate) type_id: u32,
    /// The index of the next member.
    pub(crate) next: usize,
    /// Its offset in bits, if it fits in 32 bits.
    pub(crate) bits: Option<u32>,
}

/// The state of a search between turns.
#[derive(Drop)]
pub(crate) struct Memory {
    /// The structs and unions around the innermost one, which is being searched.
    pub(crate) outer: Vec<Frame>,
    /// The ids of the structs and unions that were searched without a match.
    pub(crate) nothing: BTreeSet<u32>,
}

/// The result of a turn.
#[derive(Clone, Copy)]
pub(crate) enum Turn {
    /// The member was found.
    Found(FoundMember),
    /// This is the innermost struct or union now.
    On(Frame),
    /// There is no such member.
    Over,
}

impl Memory {
    pub(crate) fn new(alloc: Global) -> Memory
        ensures outer { result.outer.items ≡ [] }
        ensures nothing { result.nothing.keys ≡ [] }
    {
        Memory {
            outer: Vec::new(alloc),
            nothing: BTreeSet::new(alloc),
        }
    }
}

/// The member of a struct or union at an index.
#[tactic(auto, using(crate::proofs::Members::no_more))]
fn member_at(t: &TypeRef<'_>, index: usize) -> Option<BtfMember>
    ensures value { result ≡ slice_get (members_of t.now) index }
    ensures few { IfSome result (λ _. index < 65536) }
{
    if index >= t.count() {
        return None;
    }
    t.member(index)
}

/// The result for the next member of a struct or union, if it matches. `parts` members are on the
/// path to it.
fn found_here(frame: Frame, t: &TypeRef<'_>, member: BtfMember, parts: usize) -> FoundMember
    ensures { result ≡ found_here frame.type_id t.now parts frame.bits frame.next member }
{
    FoundMember {
        place: Place {
            type_id: frame.type_id,
            index: frame.next as u64,
        },
        type_id: member.btf_type,
        bits: bits_after(frame.bits, u64::from(member.bit_offset(t.flag()))),
        parts,
    }
}

/// A struct or union before its members are compared.
pub(crate) fn entered(type_id: u32, bits: Option<u32>) -> Frame
    ensures { result ≡ entered type_id bits }
{
    Frame {
        type_id,
        next: 0,
        bits,
    }
}

/// Whether one of these has this id.
fn is_open(frames: &[Frame], type_id: u32) -> bool
    ensures { result ≡ is_open frames.now type_id }
{
    frames.iter().any(|frame| frame.type_id == type_id)
}

/// Enters a struct or union from the innermost one.
///
/// `MaximumNestingLevelReached` where its members are being compared already.
fn enter(
    type_id: u32,
    bits: Option<u32>,
    innermost: Frame,
    memory: &mut Memory,
) -> Result<Turn, AccessError>
    requires { is_noted memory.old.nothing.keys type_id ≡ false }
    ensures entered { IfOk result (λ turn.
        IsEntered type_id bits innermost memory.old.outer.items memory.old.nothing.keys turn
        memory.new.outer.items memory.new.nothing.keys) }
    ensures refused { IfErr result (λ e.
        e ≢ TypeError OutOfMemory
        → (e ≡ MaximumNestingLevelReached)
        × (is_open (memory.old.outer.items ++ innermost ∷ []) type_id ≡ true)) }
{
    memory.outer.push(innermost)?;
    if is_open(memory.outer.as_slice(), type_id) {
        return Err(AccessError::MaximumNestingLevelReached);
    }
    Ok(Turn::On(entered(type_id, bits)))
}

/// Leaves the innermost struct or union, which has no match.
fn leave(type_id: u32, memory: &mut Memory) -> Result<Turn, AllocError>
    ensures { IfOk result (λ turn.
        IsLeft type_id memory.old.outer.items memory.old.nothing.keys turn memory.new.outer.items
        memory.new.nothing.keys) }
{
    match memory.outer.pop() {
        Some(frame) => {
            memory.nothing.insert(type_id)?;
            Ok(Turn::On(frame))
        }
        None => Ok(Turn::Over),
    }
}

/// Continues after the comparison of a member of the innermost struct or union.
fn follow(
    seen: Look,
    here: FoundMember,
    after: Frame,
    memory: &mut Memory,
) -> Result<Turn, AccessError>
    ensures over { IfOk result (λ turn.
        IsFollowed seen here after memory.old.outer.items memory.old.nothing.keys turn
        memory.new.outer.items memory.new.nothing.keys) }
    ensures refused { IfErr result (λ e.
        e ≢ TypeError OutOfMemory
        → IsOpenInside seen (memory.old.outer.items ++ after ∷ []) e) }
{
    match seen {
        Look::Next => Ok(Turn::On(after)),
        Look::Mismatch => {
            let turn = leave(after.type_id, memory)?;
            Ok(turn)
        }
        Look::Match => Ok(Turn::Found(here)),
        Look::Descend(type_id) => {
            if memory.nothing.contains(&type_id) {
                return Ok(Turn::On(after));
            }
            enter(type_id, here.bits, after, memory)
        }
    }
}

/// Compares the next member of the innermost struct or union.
pub(crate) fn next_member<'t>(
    local: &Btf<'t>,
    type_id: u32,
    name: &str,
    target: &Btf<'t>,
    frame: Frame,
    memory: &mut Memory,
) -> Result<Turn, AccessError>
    requires { IsSound (searched local.now type_id name.now target.now) memory.old.nothing.keys
        memory.old.outer.items frame }
    ensures turn { IfOk result (λ turn.
        IsTurn (searched local.now type_id name.now target.now) memory.old.nothing.keys
        memory.old.outer.items frame turn memory.new.nothing.keys memory.new.outer.items) }
    ensures refused { IfErr result (λ e.
        e ≢ TypeError OutOfMemory
        → stack_value (searched local.now type_id name.now target.now)
        (memory.old.outer.items ++ frame ∷ [])
        ≡ Err e) }
{
    let t = target.type_by_id(frame.type_id)?;
    let Some(member) = member_at(&t, frame.next) else {
        let turn = leave(frame.type_id, memory)?;
        return Ok(turn);
    };
    let seen = look_at(local, type_id, name, target, member)?;
    let here = found_here(frame, &t, member, memory.outer.len() + 1);
    let after = Frame {
        next: frame.next + 1,
        ..frame
    };
    follow(seen, here, after, memory)
}
