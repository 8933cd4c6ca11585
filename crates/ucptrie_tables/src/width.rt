//! How many bits a value has in a file.
ghost use Rattle.std.specs.Prelude.{◌≡◌, ◌^◌, ◌<◌, nat_lt};
ghost use Rattle.ucptrie_tables.specs.ValueWidth.{bits_of, bytes_of, code_of, width_of};

use std::fmt;

/// How many bits a value has in a file (UCPTrieValueWidth).
#[derive(Clone, Copy, Debug, PartialEq, Eq)]
pub enum ValueWidth {
    Bits8,
    Bits16,
    Bits32,
}

impl ValueWidth {
    /// Returns the fewest bits that a value fits.
    pub fn of_value(value: u32) -> ValueWidth
        ensures fits { value < 2 ^ bits_of result }
        ensures fewest { result ≡ width_of value }
    {
        if value < 0x100 {
            ValueWidth::Bits8
        } else if value < 0x1_0000 {
            ValueWidth::Bits16
        } else {
            ValueWidth::Bits32
        }
    }

    /// Returns the number of bits: 8, 16 or 32.
    pub fn bits(self) -> u32
        ensures { result ≡ bits_of self }
    {
        match self {
            ValueWidth::Bits8 => 8,
            ValueWidth::Bits16 => 16,
            ValueWidth::Bits32 => 32,
        }
    }

    /// Returns the number of bytes: 1, 2 or 4.
    pub fn bytes(self) -> usize
        ensures { result ≡ bytes_of self }
    {
        match self {
            ValueWidth::Bits8 => 1,
            ValueWidth::Bits16 => 2,
            ValueWidth::Bits32 => 4,
        }
    }

    /// Returns ICU's number of the width (UCPTRIE_VALUE_BITS_16, _32 and _8): 2, 0 or 1.
    pub fn code(self) -> u32
        ensures { result ≡ code_of self }
    {
        match self {
            ValueWidth::Bits8 => 2,
            ValueWidth::Bits16 => 0,
            ValueWidth::Bits32 => 1,
        }
    }

    /// Returns whether a value has at most this many bits.
    pub fn fits(self, value: u32) -> bool
        ensures { result ≡ nat_lt value (2 ^ bits_of self) }
    {
        match self {
            ValueWidth::Bits8 => value < 0x100,
            ValueWidth::Bits16 => value < 0x1_0000,
            ValueWidth::Bits32 => true,
        }
    }
}

impl fmt::Display for ValueWidth {
    fn fmt<W: fmt::Write>(&self, f: &mut fmt::Formatter<W>) -> fmt::Result {
        let bits = self.bits();
        write!(f, "{bits} bits")
    }
}
