//! A set of bytes.

ghost use Rattle.std.specs.Prelude.{◌≡◌, ◌==◌, ◌||◌, ℕ, false};
ghost use Rattle.string_table.specs.FirstBytes.{is_marked};

use std::marker::Model;

/// A set of bytes as a table of 256 flags.
#[derive(Debug, Drop)]
pub struct MarkedBytes {
    marked: [bool; 256],
}

impl Model for MarkedBytes {
    ghost use Rattle.std.specs.Prelude.{Bool, List};

    ghost Value = { List Bool };

    ghost view = { λ b. b.marked };
}

impl MarkedBytes {
    /// No bytes.
    pub fn new() -> MarkedBytes
        ensures { (byte : ℕ) → is_marked result byte ≡ false }
    {
        MarkedBytes {
            marked: [false; 256],
        }
    }

    /// Adds a byte.
    #[tactic(auto, using(crate::proofs::Marks::one_marked))]
    pub fn mark(&mut self, byte: u8)
        ensures { (other : ℕ)
            → is_marked self.new other ≡ (other == byte || is_marked self.old other) }
    {
        self.marked[byte as usize] = true;
    }

    /// Whether the set has a byte.
    pub fn contains(&self, byte: u8) -> bool
        ensures { result ≡ is_marked self.now byte }
    {
        self.marked[byte as usize]
    }
}
