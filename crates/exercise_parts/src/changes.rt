//! Files that are cut off, or changed in one byte.

use crate::counts::{Answer, Counts};
use load_plan::Order;
use std::alloc::Global;

/// The orders of the passes over types.
const ORDERS: [Order; 2] = [Order::RelocateFirst, Order::RewriteFirst];

/// What is run on a file.
pub(crate) trait Run {
    /// The answer to a run on a file, with the passes over types in an order.
    fn answer(&self, alloc: Global, file: &[u8], order: Order) -> Answer;
}

/// Runs on a file in both orders.
fn count_orders<R: Run>(alloc: Global, run: &R, file: &[u8], counts: &mut Counts) {
    for order in ORDERS {
        counts.count(run.answer(alloc, file, order));
    }
}

/// Runs on each proper prefix of a file, in both orders.
fn count_fronts<R: Run>(alloc: Global, run: &R, file: &[u8], counts: &mut Counts) {
    for len in 0..file.len() {
        count_orders(alloc, run, &file[..len], counts);
    }
}

/// Runs on a file with each of its bytes set to a value in turn, in both orders.
fn count_changes<R: Run>(alloc: Global, run: &R, file: &mut [u8], byte: u8, counts: &mut Counts) {
    for at in 0..file.len() {
        let before = file[at];
        file[at] = byte;
        count_orders(alloc, run, file, counts);
        file[at] = before;
    }
}

/// The answers to each proper prefix of a file, and to the file with each byte set to 0 and to 255
/// in turn: six runs for each byte.
pub(crate) fn counts_of<R: Run>(alloc: Global, run: &R, file: &mut [u8]) -> Counts {
    let mut counts = Counts::new();
    count_fronts(alloc, run, file, &mut counts);
    for byte in [0, 0xff] {
        count_changes(alloc, run, file, byte, &mut counts);
    }
    counts
}
