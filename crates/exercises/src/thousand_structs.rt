//! A table of 1,000 structs, parsed and then with one more type: its number of types and of bytes.

use btf::{Btf, BtfError, BtfType, Endianness, Int, IntEncoding};
use std::process::ExitCode;

const HEADER: [u8; 24] = [
    0x9f, 0xeb, 1, 0, 24, 0, 0, 0, 0, 0, 0, 0, 0xc0, 0x5d, 0, 0, 0xc0, 0x5d, 0, 0, 1, 0, 0, 0,
];

/// A struct of four bytes with one member of type 1.
const STRUCT: [u8; 24] = [
    0, 0, 0, 0, 1, 0, 0, 4, 4, 0, 0, 0, 0, 0, 0, 0, 1, 0, 0, 0, 0, 0, 0, 0,
];

/// The bytes of a header, 1,000 records of 24 bytes, and the empty text.
const LEN: usize = 24_025;

/// The byte of the section at each offset. It takes no memory.
fn section_byte(at: usize) -> u8 {
    if at < 24 {
        HEADER[at]
    } else if at < LEN - 1 {
        STRUCT[at % 24]
    } else {
        0
    }
}

/// The bytes of a table with one more type.
fn grown(table: &mut Btf<'_>) -> Result<usize, BtfError> {
    let name = table.add_string("count")?;
    table.add_type(BtfType::Int(Int::new(name, 4, IntEncoding::None, 0)))?;
    Ok(table.to_bytes()?.len())
}

/// Prints the results of the calls on a table.
fn print_grown(rt: &HostRuntime, table: &mut Btf<'_>) -> Result<(), BtfError> {
    let _ = println!(rt; "{}", table.types().count());
    let len = grown(table)?;
    let _ = println!(rt; "{len}");
    Ok(())
}

/// Prints the results of the calls, as far as memory suffices.
fn print(rt: &HostRuntime, section: &[u8]) -> Result<(), BtfError> {
    let mut table = Btf::parse(rt.alloc(), section, Endianness::Little)?;
    print_grown(rt, &mut table)
}

/// Prints the counts.
pub(crate) fn run(rt: &HostRuntime) -> ExitCode {
    let mut section = [0; LEN];
    for at in 0..LEN {
        section[at] = section_byte(at);
    }
    match print(rt, &section) {
        Ok(()) => ExitCode::SUCCESS,
        Err(error) => {
            let _ = println!(rt; "{error}");
            ExitCode::FAILURE
        }
    }
}
