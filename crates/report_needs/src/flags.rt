//! The flags with which programs are loaded.

ghost use Rattle.std.specs.Prelude.{◌≡◌};
ghost use Rattle.report_needs.specs.Flags.{between, flag_helpers, frags, sleepable};

use crate::enums::Presence;
use program_kinds::ProgramSection;

/// `bpf_copy_from_user`, of Linux 5.10, which brought `BPF_F_SLEEPABLE`.
const COPY_FROM_USER: i32 = 148;

/// `bpf_xdp_load_bytes`, of Linux 5.18, which brought `BPF_F_XDP_HAS_FRAGS`.
const XDP_LOAD_BYTES: i32 = 189;

/// `bpf_cgrp_storage_delete`, of Linux 6.2. Iterators may sleep since Linux 5.18, and probes of user
/// functions since Linux 6.0.
const STORAGE_DELETE: i32 = 211;

/// The helpers that tell whether a kernel takes `BPF_F_SLEEPABLE`.
fn sleepable(is_sleepable: bool, since: i32) -> Option<(i32, i32)>
    ensures { result ≡ sleepable is_sleepable since }
{
    if is_sleepable {
        Some((COPY_FROM_USER, since))
    } else {
        None
    }
}

/// The helpers that tell whether a kernel takes `BPF_F_XDP_HAS_FRAGS`.
fn frags(has_frags: bool) -> Option<(i32, i32)>
    ensures { result ≡ frags has_frags }
{
    if has_frags {
        Some((XDP_LOAD_BYTES, XDP_LOAD_BYTES))
    } else {
        None
    }
}

/// Two helpers for programs of a kind that are loaded with flags. A kernel without the first
/// doesn't take the flags, and a kernel with the second does.
pub(crate) fn flag_helpers(kind: &ProgramSection) -> Option<(i32, i32)>
    ensures { result ≡ flag_helpers kind.now }
{
    match kind {
        ProgramSection::FEntry { sleepable: is }
        | ProgramSection::FExit { sleepable: is }
        | ProgramSection::Lsm { sleepable: is } => sleepable(*is, COPY_FROM_USER),
        ProgramSection::Iter { sleepable: is }
        | ProgramSection::UProbe { sleepable: is, .. }
        | ProgramSection::URetProbe { sleepable: is, .. } => sleepable(*is, STORAGE_DELETE),
        ProgramSection::Xdp {
            frags: has_frags,
            ..
        } => frags(*has_frags),
        _ => None,
    }
}

/// What two helpers tell of something that a kernel lacks without the first and has with the second.
pub(crate) fn between(first: Presence, since: Presence) -> Presence
    ensures { result ≡ between first since }
{
    match (first, since) {
        (Presence::Missing, _) => Presence::Missing,
        (Presence::Found, Presence::Found) => Presence::Found,
        _ => Presence::Unknown,
    }
}
