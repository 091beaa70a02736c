//! Prints the load plan of an eBPF object.
#![tactic(auto)]

mod error;
mod printing;
mod settings_text;

use crate::printing::print_asked;
use std::process::ExitCode;

fn main(rt: HostRuntime) -> ExitCode {
    match print_asked(&rt) {
        Ok(()) => ExitCode::SUCCESS,
        Err(error) => {
            let _ = eprintln!(rt; "bpf_prepare: {error}");
            ExitCode::from(error.status())
        }
    }
}
