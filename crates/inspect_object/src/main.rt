//! Prints what an eBPF object holds after parsing, reports about it on kernels, or the code of its
//! programs.
#![tactic(auto)]

mod checks;
mod error;
mod extraction;
mod kernels;
mod listings;
mod objects;
mod printing;
mod reports;

use printing::print_asked;
use std::process::ExitCode;

fn main(rt: HostRuntime) -> ExitCode {
    match print_asked(&rt) {
        Ok(ended) => ExitCode::from(ended.status()),
        Err(error) => {
            let _ = eprintln!(rt; "inspect_object: {error}");
            ExitCode::from(error.status())
        }
    }
}
