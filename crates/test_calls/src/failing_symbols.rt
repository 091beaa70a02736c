//! Readers that give the text of kernel symbols a byte at a time, and fail.

use crate::slow_text::SlowText;
use kernel_symbols::{SymbolsError, read_addresses};
use std::alloc::Global;
use watched::Watched;

// What is known about `init_task`.
#[derive(Clone, Copy, Debug, PartialEq, Eq)]
enum AddressAnswer {
    Address(Option<u64>),
    Unreadable,
    Access,
    Other,
}

fn asked(alloc: Global, text: &'static [u8], fails_at: usize) -> AddressAnswer {
    let mut symbols = Watched::new(SlowText::new(text, fails_at));
    match read_addresses(alloc, &["init_task"], &mut symbols) {
        Ok(addresses) => AddressAnswer::Address(addresses.get("init_task")),
        Err(SymbolsError::UnreadableAddress(_)) => AddressAnswer::Unreadable,
        Err(SymbolsError::Access(_)) => AddressAnswer::Access,
        Err(_) => AddressAnswer::Other,
    }
}

#[test]
fn keeps_the_reader_s_failure(rt: HostRuntime) {
    let text = b"1000 D init_task\n";
    for fails_at in 0..18 {
        assert_eq!(rt; asked(rt.alloc(), text, fails_at), AddressAnswer::Access);
    }
    assert_eq!(rt;
        asked(rt.alloc(), text, 18),
        AddressAnswer::Address(Some(0x1000))
    );
}

// The line is complete before the reader fails, or isn't.
#[test]
fn tells_the_fault_of_a_line_before_the_failure(rt: HostRuntime) {
    let text = b"xx D init_task\n1000 D init_task\n";
    assert_eq!(rt; asked(rt.alloc(), text, 15), AddressAnswer::Unreadable);
    assert_eq!(rt; asked(rt.alloc(), text, 14), AddressAnswer::Access);
}

// White space of two and of three bytes comes in pieces.
#[test]
fn reads_characters_in_pieces(rt: HostRuntime) {
    let text = "1000\u{a0}D\u{2003}init_task\u{3000}\n".as_bytes();
    assert_eq!(rt;
        asked(rt.alloc(), text, 100),
        AddressAnswer::Address(Some(0x1000))
    );
}
