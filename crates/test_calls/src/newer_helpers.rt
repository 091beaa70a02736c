//! When a kernel is asked for the newer helpers, and slots that stay in the file.

use load_plan::{Order, Plan, Settings, Watched, prepare};
use std::alloc::Global;
use std::io;
use std::process::Abort;

/// A little-endian object of 568 bytes: a section `license` (index 1, its four bytes `GPL` and a
/// NUL at 64), a section `kprobe` (index 2, two slots at 72), a symbol table (index 3, at 88) whose
/// symbol 1 (at 112) is the function `foo` at address 0 of section 2, its string table (index 4, at
/// 136) and the sections' names (index 5, at 141). The section headers begin at 184.
static ONE_PROGRAM: [u8; 568] = [
    0x7f, 0x45, 0x4c, 0x46, 2, 1, 0, 0, 0, 0, 0, 0, 0, 0, 0, 0, 0, 0, 0, 0, 0, 0, 0, 0, 0, 0, 0, 0,
    0, 0, 0, 0, 0, 0, 0, 0, 0, 0, 0, 0, 0xb8, 0, 0, 0, 0, 0, 0, 0, 0, 0, 0, 0, 0, 0, 0, 0, 0, 0,
    0x40, 0, 6, 0, 5, 0, 0x47, 0x50, 0x4c, 0, 0, 0, 0, 0, 0xb7, 0, 0, 0, 0, 0, 0, 0, 0x95, 0, 0, 0,
    0, 0, 0, 0, 0, 0, 0, 0, 0, 0, 0, 0, 0, 0, 0, 0, 0, 0, 0, 0, 0, 0, 0, 0, 0, 0, 0, 0, 1, 0, 0, 0,
    0x12, 0, 2, 0, 0, 0, 0, 0, 0, 0, 0, 0, 0x10, 0, 0, 0, 0, 0, 0, 0, 0, 0x66, 0x6f, 0x6f, 0, 0,
    0x6c, 0x69, 0x63, 0x65, 0x6e, 0x73, 0x65, 0, 0x6b, 0x70, 0x72, 0x6f, 0x62, 0x65, 0, 0x2e, 0x73,
    0x79, 0x6d, 0x74, 0x61, 0x62, 0, 0x2e, 0x73, 0x74, 0x72, 0x74, 0x61, 0x62, 0, 0x2e, 0x73, 0x68,
    0x73, 0x74, 0x72, 0x74, 0x61, 0x62, 0, 0, 0, 0, 0, 0, 0, 0, 0, 0, 0, 0, 0, 0, 0, 0, 0, 0, 0, 0,
    0, 0, 0, 0, 0, 0, 0, 0, 0, 0, 0, 0, 0, 0, 0, 0, 0, 0, 0, 0, 0, 0, 0, 0, 0, 0, 0, 0, 0, 0, 0, 0,
    0, 0, 0, 0, 0, 0, 0, 0, 0, 0, 0, 0, 0, 0, 1, 0, 0, 0, 1, 0, 0, 0, 0, 0, 0, 0, 0, 0, 0, 0, 0, 0,
    0, 0, 0, 0, 0, 0, 0x40, 0, 0, 0, 0, 0, 0, 0, 4, 0, 0, 0, 0, 0, 0, 0, 0, 0, 0, 0, 0, 0, 0, 0, 0,
    0, 0, 0, 0, 0, 0, 0, 0, 0, 0, 0, 0, 0, 0, 0, 9, 0, 0, 0, 1, 0, 0, 0, 6, 0, 0, 0, 0, 0, 0, 0, 0,
    0, 0, 0, 0, 0, 0, 0, 0x48, 0, 0, 0, 0, 0, 0, 0, 0x10, 0, 0, 0, 0, 0, 0, 0, 0, 0, 0, 0, 0, 0, 0,
    0, 0, 0, 0, 0, 0, 0, 0, 0, 0, 0, 0, 0, 0, 0, 0, 0, 0x10, 0, 0, 0, 2, 0, 0, 0, 0, 0, 0, 0, 0, 0,
    0, 0, 0, 0, 0, 0, 0, 0, 0, 0, 0x58, 0, 0, 0, 0, 0, 0, 0, 0x30, 0, 0, 0, 0, 0, 0, 0, 4, 0, 0, 0,
    0, 0, 0, 0, 0, 0, 0, 0, 0, 0, 0, 0, 0x18, 0, 0, 0, 0, 0, 0, 0, 0x18, 0, 0, 0, 3, 0, 0, 0, 0, 0,
    0, 0, 0, 0, 0, 0, 0, 0, 0, 0, 0, 0, 0, 0, 0x88, 0, 0, 0, 0, 0, 0, 0, 5, 0, 0, 0, 0, 0, 0, 0, 0,
    0, 0, 0, 0, 0, 0, 0, 0, 0, 0, 0, 0, 0, 0, 0, 0, 0, 0, 0, 0, 0, 0, 0, 0x20, 0, 0, 0, 3, 0, 0, 0,
    0, 0, 0, 0, 0, 0, 0, 0, 0, 0, 0, 0, 0, 0, 0, 0, 0x8d, 0, 0, 0, 0, 0, 0, 0, 0x2a, 0, 0, 0, 0, 0,
    0, 0, 0, 0, 0, 0, 0, 0, 0, 0, 0, 0, 0, 0, 0, 0, 0, 0, 0, 0, 0, 0, 0, 0, 0, 0,
];

/// The offset of the slots of the object with one program.
const SLOTS: usize = 72;

/// The two slots of the one program of a plan, if they are borrowed from the file.
fn slots_of(plan: &Plan<'_>) -> Option<[[u8; 8]; 2]> {
    let slots = plan.programs().first()?.slots();
    if !slots.is_borrowed() {
        return None;
    }
    Some([slots.get(0)?.to_bytes(), slots.get(1)?.to_bytes()])
}

/// The two slots of an object's one program for a kernel that has or lacks the newer helpers, if
/// they are borrowed from the file, and how often the kernel is asked.
fn probed(alloc: Global, object: &[u8], has_helpers: bool) -> Option<([[u8; 8]; 2], u32)> {
    let settings = Settings::new(alloc);
    let mut symbols = Watched::new(io::empty());
    let mut asked = 0u32;
    let result = prepare(
        alloc,
        object,
        &[],
        &mut symbols,
        &settings,
        Order::RelocateFirst,
        |_feature| true,
        || {
            asked = asked.saturating_add(1);
            has_helpers
        },
    );
    match result {
        Ok(plan) => match slots_of(&plan) {
            Some(slots) => Some((slots, asked)),
            None => None,
        },
        Err(_) => None,
    }
}

/// A call of the helper with a number.
fn call(helper: u8) -> [u8; 8] {
    [0x85, 0, 0, 0, helper, 0, 0, 0]
}

/// The numbers of the helpers that two slots call, the numbers for a kernel that lacks the newer
/// helpers, and how often a kernel is asked.
static PROBES: [([u8; 2], [u8; 2], u32); 4] = [
    ([112, 6], [4, 6], 1),
    ([6, 115], [6, 45], 1),
    ([113, 114], [4, 45], 1),
    ([111, 116], [111, 116], 0),
];

/// Writes a slot at an offset of a file, unless it goes past the end.
fn put_slot(file: &mut [u8], at: usize, slot: [u8; 8]) {
    if at <= file.len() && slot.len() <= file.len() - at {
        file[at..at + slot.len()].copy_from_slice(&slot);
    }
}

/// The object whose one program has these slots.
fn object_with(slots: &[[u8; 8]; 2]) -> [u8; 568] {
    let mut object = ONE_PROGRAM;
    put_slot(&mut object[..], SLOTS, slots[0]);
    put_slot(&mut object[..], SLOTS + 8, slots[1]);
    object
}

/// Checks the slots of the object with one program that calls these helpers.
fn check_probes(rt: &impl Abort, alloc: Global, helpers: [u8; 2], older: [u8; 2], asked: u32) {
    let slots = [call(helpers[0]), call(helpers[1])];
    let older = [call(older[0]), call(older[1])];
    let object = object_with(&slots);
    assert!(rt; probed(alloc, &object, true) == Some((slots, asked)));
    assert!(rt; probed(alloc, &object, false) == Some((older, asked)));
}

#[test]
fn older_helpers(rt: HostRuntime) {
    for (helpers, older, asked) in &PROBES {
        check_probes(&rt, rt.alloc(), *helpers, *older, *asked);
    }
}
