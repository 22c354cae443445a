//! Numbers that look random.
ghost use Rattle.std.specs.Prelude.{◌<◌};

use std::alloc::AllocError;

/// Numbers that look drawn by lot, each made from the one before.
#[derive(Drop)]
pub struct Numbers {
    last: u32,
}

impl Numbers {
    /// The numbers that look random behind this one.
    pub fn behind(seed: u32) -> Numbers {
        Numbers { last: seed }
    }

    /// The next number that looks random, below a bound.
    pub fn below(&mut self, bound: u32) -> u32
        requires { 0 < bound }
        ensures { result < bound }
    {
        self.last = self
            .last
            .wrapping_mul(1_664_525)
            .wrapping_add(1_013_904_223);
        (self.last >> 8) % bound
    }

    /// Puts a text that looks random of less than so many bytes behind this one: of its bytes one in eight is any byte,
    /// one ends a line, and the others are printable.
    pub fn text(&mut self, bound: u32, text: &mut Vec<u8>) -> Result<(), AllocError>
        requires { 0 < bound }
    {
        for _ in 0..self.below(bound) {
            let byte = match self.below(24) {
                0..=2 => self.below(256),
                3 => 10,
                4..=9 => 32,
                _ => 32 + self.below(95),
            };
            text.push(byte as u8)?;
        }
        Ok(())
    }
}
