//! The words of a plan's text, written without memory.

ghost use Rattle.std.specs.Prelude.{[], ◌∷◌, map};
ghost use Rattle.std.specs.Fmt.{decimal};
ghost use Rattle.std.specs.Option.{option_map};
ghost use Rattle.ebpf_items.specs.Instruction.{bytes_of};
ghost use Rattle.watched.specs.Watched.{Sends};
ghost use Rattle.hex.specs.Hex.{encode_lower};
ghost use Rattle.plan_lines.specs.Lines.{form_word, table_words, types_word, version_word};
ghost use Rattle.plan_lines.specs.Words.{hex_word, slot_bytes, words_onto};

use ebpf_items::{Slots, Watched, bpf_insn};
use itoa::Buffer;
use std::io::Write;

/// Sends a number in decimal digits.
pub fn send_decimal<W: Write>(out: &mut Watched<W>, number: u64)
    ensures { Sends W.contents out.old out.new (decimal number) }
{
    let mut buffer = Buffer::new();
    out.send(buffer.format(number).as_bytes());
}

/// Sends a number, with a space before it.
fn send_number<W: Write>(out: &mut Watched<W>, number: u64)
    ensures { Sends W.contents out.old out.new (32 ∷ decimal number) }
{
    out.send(b" ");
    send_decimal(out, number);
}

/// Sends numbers, a space before each.
pub fn send_numbers<W: Write>(out: &mut Watched<W>, numbers: &[u64])
    ensures { Sends W.contents out.old out.new (words_onto (map decimal numbers.now) []) }
{
    for number in numbers {
        send_number(out, *number);
    }
}

fn send_byte<W: Write>(out: &mut Watched<W>, byte: u8)
    ensures { Sends W.contents out.old out.new (encode_lower (byte ∷ [])) }
{
    let mut digits = [0; 2];
    let _ = hex::encode_to_slice([byte], &mut digits);
    out.send(&digits);
}

fn send_digits<W: Write>(out: &mut Watched<W>, bytes: &[u8])
    ensures { Sends W.contents out.old out.new (encode_lower bytes.now) }
{
    for byte in bytes {
        send_byte(out, *byte);
    }
}

/// Sends bytes in hexadecimal digits, or a dash where there are none.
pub fn send_bytes<W: Write>(out: &mut Watched<W>, bytes: &[u8])
    ensures { Sends W.contents out.old out.new (hex_word bytes.now) }
{
    if bytes.is_empty() {
        out.send(b"-");
    } else {
        send_digits(out, bytes);
    }
}

fn send_slot<W: Write>(out: &mut Watched<W>, slot: bpf_insn)
    ensures { Sends W.contents out.old out.new (encode_lower (bytes_of slot)) }
{
    let mut digits = [0; 16];
    let _ = hex::encode_to_slice(slot.to_bytes(), &mut digits);
    out.send(&digits);
}

fn send_slot_digits<W: Write>(out: &mut Watched<W>, slots: &Slots<'_>)
    ensures { Sends W.contents out.old out.new (encode_lower (slot_bytes slots.now)) }
{
    for slot in slots.iter() {
        send_slot(out, slot);
    }
}

/// Sends the bytes of slots in hexadecimal digits, or a dash where there are none.
pub fn send_slots<W: Write>(out: &mut Watched<W>, slots: &Slots<'_>)
    ensures { Sends W.contents out.old out.new (hex_word (slot_bytes slots.now)) }
{
    if slots.len() == 0 {
        out.send(b"-");
    } else {
        send_slot_digits(out, slots);
    }
}

/// Sends indexes of kernel tables, a space before each.
fn send_places<W: Write>(out: &mut Watched<W>, places: &[u32])
    ensures { Sends W.contents out.old out.new (words_onto (map decimal places.now) []) }
{
    for place in places {
        let number: u64 = u64::from(*place);
        send_number(out, number);
    }
}

/// Sends indexes of kernel tables, a space before each: a dash where there are none, and a question
/// mark where they aren't known.
pub fn send_tables<W: Write>(out: &mut Watched<W>, tables: Option<&[u32]>)
    ensures { Sends W.contents out.old out.new
        (words_onto (table_words (option_map (λ places. places.now) tables.entry)) []) }
{
    match tables {
        Some(places) if places.is_empty() => out.send(b" -"),
        Some(places) => send_places(out, places),
        None => out.send(b" ?"),
    }
}

/// Sends whether types define a map.
pub fn send_form<W: Write>(out: &mut Watched<W>, is_btf: bool)
    ensures { Sends W.contents out.old out.new (form_word is_btf) }
{
    if is_btf {
        out.send(b"btf");
    } else {
        out.send(b"legacy");
    }
}

/// Sends a kernel version, or a word for any version.
pub fn send_version<W: Write>(out: &mut Watched<W>, version: Option<u32>)
    ensures { Sends W.contents out.old out.new (version_word version) }
{
    match version {
        None => out.send(b"any"),
        Some(version) => send_decimal(out, u64::from(version)),
    }
}

/// Sends the bytes of types, where there are any.
pub fn send_types<W: Write>(out: &mut Watched<W>, type_bytes: Option<&[u8]>)
    ensures { Sends W.contents out.old out.new
        (types_word (option_map (λ bytes. bytes.now) type_bytes.entry)) }
{
    match type_bytes {
        None => out.send(b"none"),
        Some(bytes) => send_bytes(out, bytes),
    }
}
