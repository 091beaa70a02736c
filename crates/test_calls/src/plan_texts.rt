//! The text of a plan in the first version, and writers that fail.

use plan_text::{Plan, Watched};
use std::alloc::Global;
use std::io;
use std::io::{ErrorKind, Write};
use std::test::Fail;

const MAPS_PLAN: &[u8] = b"bpf-plan 2\n\
      license 47504c\n\
      version any\n\
      types none\n\
      map 2e726f64617461 1 legacy 2 4 4 1 128 0 0 0 0 0 0a000000\n\
      map 636f756e746572 7 legacy 1 4 8 16 0 0 0 0 0 0 -\n\
      program 66 1 0 0\n\
      slots 9500000000000000\n\
      tables ?\n\
      end\n";

/// The text of a plan in the first version, and the same in the second.
const FIRST_VERSION: &[u8] = b"bpf-plan 1\n\
      license 47504c\n\
      version any\n\
      types none\n\
      program 666f6f 1 0 0\n\
      slots b7000000000000009500000000000000\n\
      end\n";

const FROM_FIRST_VERSION: &[u8] = b"bpf-plan 2\n\
      license 47504c\n\
      version any\n\
      types none\n\
      program 666f6f 1 0 0\n\
      slots b7000000000000009500000000000000\n\
      tables ?\n\
      end\n";

/// Accepts a number of bytes, one at a time, and then fails or accepts nothing.
#[derive(Drop)]
struct Short {
    taken: Vec<u8>,
    left: usize,
    is_failing: bool,
}

impl Write for Short {
    fn write(&mut self, buf: &[u8]) -> io::Result<usize> {
        let Some(byte) = buf.first() else {
            return Ok(0);
        };
        if self.left == 0 {
            if self.is_failing {
                return Err(io::Error::from(ErrorKind::Other));
            }
            return Ok(0);
        }
        self.left -= 1;
        self.taken.push(*byte)?;
        Ok(1)
    }

    fn flush(&mut self) -> io::Result<()> {
        Ok(())
    }
}

fn has_text(alloc: Global, plan: &Plan<'_>, text: &[u8]) -> bool {
    let mut out = Watched::new(Vec::new(alloc));
    plan.write(&mut out).is_ok() && out.into_inner().as_slice() == text
}

/// Whether a text is a plan's that is then written as another text.
fn is_written_as(alloc: Global, text: &[u8], other: &[u8]) -> bool {
    match Plan::read(alloc, text) {
        Ok(plan) => has_text(alloc, &plan, other),
        Err(_) => false,
    }
}

#[test]
fn first_version_is_written_as_the_second(rt: HostRuntime) {
    assert!(rt; is_written_as(rt.alloc(), FIRST_VERSION, FROM_FIRST_VERSION));
}

fn read(alloc: Global, text: &[u8]) -> Result<Plan<'static>, Fail> {
    match Plan::read(alloc, text) {
        Ok(plan) => Ok(plan),
        Err(_) => Err(Fail::from("no plan")),
    }
}

#[test]
fn writers_that_fail(rt: HostRuntime) -> Result<(), Fail> {
    let plan = read(rt.alloc(), MAPS_PLAN)?;
    for left in 0..=MAPS_PLAN.len() {
        for is_failing in [false, true] {
            let mut out = Watched::new(Short {
                taken: Vec::new(rt.alloc()),
                left,
                is_failing,
            });
            let is_written = plan.write(&mut out).is_ok();
            assert_eq!(rt; is_written, left == MAPS_PLAN.len());
            assert_eq!(rt; out.failed(), !is_written);
            assert_eq!(rt; out.into_inner().taken.as_slice(), &MAPS_PLAN[..left]);
        }
    }
    Ok(())
}
