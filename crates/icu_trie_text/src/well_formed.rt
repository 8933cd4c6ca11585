//! The value of the first character of well-formed UTF-8. No trail byte is tested.
ghost use Rattle.std.specs.Prelude.{true};

use crate::part_values::{PartValues, Reading, THREE_BYTE_BLOCKS};
use icu_utf::places::{number_of_four, place_of_three, place_of_two};

/// Bytes that are well-formed UTF-8. The first `FAST` blocks are known to be fast blocks.
pub(crate) struct WellFormed<const FAST: u32>;

impl<T, V: PartValues<T>, const FAST: u32> Reading<T, V> for WellFormed<FAST> {
    ghost trusts = { true };

    ghost least_blocks = { FAST };

    #[inline(always)]
    fn first_value(trie: &V, text: &[u8]) -> (T, usize) {
        let lead = text[0];
        if lead < 0xE0 {
            if lead < 0x80 {
                return (trie.ascii(lead), 1);
            }
            let (block, place) = place_of_two(text);
            return (trie.value_in_fast_block(block, place), 2);
        }
        if lead < 0xF0 {
            let (block, place) = place_of_three(text);
            if FAST >= THREE_BYTE_BLOCKS || block < trie.blocks() {
                return (trie.value_in_fast_block(block, place), 3);
            }
            return (trie.value(block * 64 + place), 3);
        }
        (trie.value(number_of_four(text)), 4)
    }
}
