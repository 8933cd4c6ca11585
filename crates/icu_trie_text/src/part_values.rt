//! Values of the parts of bytes, and how they are read.
ghost use Rattle.std.specs.Prelude.{◌≡◌, ℕ, ◌+◌, ◌*◌, ◌<◌, ◌≤◌, length, Bool, true, Option, Some, None};
ghost use Rattle.std.specs.Option.{MatchOption};
ghost use Rattle.std.specs.Str.{IsUtf8};
ghost use Rattle.icu_trie_text.specs.CopiedParts.{HasFirstValue};

/// The values of characters and of ill-formed parts, for
/// [`copy_parts`](crate::copy_parts::copy_parts).
///
/// It is `Copy`, so that a loop can read a copy that no write to the buffer can change.
///
/// Public for the crates that build on this one.
pub trait PartValues<T>: Copy {
    /// The value of a character, or for `None` that of an ill-formed part.
    ghost gives: { Self → Option ℕ → Option T };

    /// The code points below it are ASCII, and take a single read.
    ghost end_of_ascii: { Self → ℕ };

    /// The first so many blocks of 64 code points take two reads.
    ghost fast_blocks: { Self → ℕ };

    /// Returns the number up to which [`ascii`](Self::ascii) has the values: 0x80 or 0.
    fn ascii_end(&self) -> u8
        ensures end { result ≡ end_of_ascii self.now }
        ensures bound { result ≤ 0x80 };

    /// Returns the number of blocks of 64 code points whose values
    /// [`value_in_fast_block`](Self::value_in_fast_block) has.
    fn blocks(&self) -> u32
        ensures { result ≡ fast_blocks self.now };

    /// Returns the value of an ASCII code point.
    fn ascii(&self, c: u8) -> T
        requires { c < end_of_ascii self.now }
        ensures { gives self.now (Some c) ≡ Some result };

    /// Returns the value of the code point at a position in a block of 64 code points.
    fn value_in_fast_block(&self, block: u32, place: u32) -> T
        requires block { block < fast_blocks self.now }
        requires place { place < 64 }
        ensures { gives self.now (Some (block * 64 + place)) ≡ Some result };

    /// Returns the value that [`value_in_fast_block`](Self::value_in_fast_block) returns, or `None` if the block is not one of
    /// [`blocks`](Self::blocks).
    #[inline(always)]
    fn value_in_block(&self, block: u32, place: u32) -> Option<T>
        requires { place < 64 }
        ensures { MatchOption result (fast_blocks self.now ≤ block)
            (λ x. gives self.now (Some (block * 64 + place)) ≡ Some x) }
    {
        if block >= self.blocks() {
            return None;
        }
        Some(self.value_in_fast_block(block, place))
    }

    /// Returns the value of any code point.
    fn value(&self, c: u32) -> T
        ensures { gives self.now (Some c) ≡ Some result };

    /// Returns the value of an ill-formed part.
    fn error(&self) -> T
        ensures { gives self.now None ≡ Some result };
}

/// The number of blocks of 64 code points of two bytes in UTF-8.
pub(crate) const TWO_BYTE_BLOCKS: u32 = 0x20;

/// The number of blocks of 64 code points below 0x10000, which take at most three bytes.
pub(crate) const THREE_BYTE_BLOCKS: u32 = 0x400;

/// How the value of the first part is read: from any bytes, or only from well-formed ones.
pub(crate) trait Reading<T, V: PartValues<T>> {
    /// Whether the bytes have to be well-formed.
    ghost trusts: { Bool };

    /// The first so many blocks have to be fast blocks.
    ghost least_blocks: { ℕ };

    /// Returns the value of the first part of the bytes, and its size in bytes. There are at least
    /// four bytes.
    fn first_value(trie: &V, bytes: &[u8]) -> (T, usize)
        requires text { trusts ≡ true → IsUtf8 bytes.now }
        requires bytes { 4 ≤ length bytes.now }
        requires ascii { V.end_of_ascii trie.now ≡ 0x80 }
        requires fast { least_blocks ≤ V.fast_blocks trie.now }
        requires two { 0x20 ≤ V.fast_blocks trie.now }
        ensures { HasFirstValue (V.gives trie.now) bytes.now result.0 result.1 };
}
