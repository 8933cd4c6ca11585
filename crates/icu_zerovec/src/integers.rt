//! Integers as packed values, lowest byte first, with negative numbers in two's complement. Any
//! bytes of the right width are a value.
ghost use Rattle.std.specs.Prelude.{◌^◌, ◌<◌, Some, refl, FitsSigned};
ghost use Rattle.std.specs.Int.{w8, w16, w32, cast_signed, cast_unsigned};
ghost use Rattle.std.proofs.Common.{ap, lit<, lit≤};
ghost use Rattle.icu_zerovec.specs.PackedBytes.{low_bytes, number_of};
ghost use Rattle.icu_zerovec.specs.PackedLaws.{number_of-1, number_of-2, number_of-4, signed-1, signed-2, signed-4, low_bytes-small};

use crate::ule::AsULE;

impl AsULE for u8 {
    const WIDTH: usize = 1;

    ghost WIDTH = { 1 };

    ghost is_value = { λ x. x < 2 ^ 8 };

    ghost pack = { low_bytes 1 };

    ghost unpack = { λ b. Some (number_of 1 b) };

    ghost some_width = { lit< tt };

    ghost width_fits = { lit≤ tt };

    ghost length_of_pack = { λ x h. refl };

    ghost gives_back = { λ x h. ap Some (number_of-1 x h) };

    ghost bytes_of_pack = { λ x h. low_bytes-small 1 x };

    fn to_unaligned(self) -> [u8; 4] {
        [self, 0, 0, 0]
    }

    fn from_unaligned(bytes: &[u8]) -> Option<u8> {
        Some(bytes[0])
    }

    fn shown(self) {}
}

impl AsULE for u16 {
    const WIDTH: usize = 2;

    ghost WIDTH = { 2 };

    ghost is_value = { λ x. x < 2 ^ 16 };

    ghost pack = { low_bytes 2 };

    ghost unpack = { λ b. Some (number_of 2 b) };

    ghost some_width = { lit< tt };

    ghost width_fits = { lit≤ tt };

    ghost length_of_pack = { λ x h. refl };

    ghost gives_back = { λ x h. ap Some (number_of-2 x h) };

    ghost bytes_of_pack = { λ x h. low_bytes-small 2 x };

    fn to_unaligned(self) -> [u8; 4] {
        let [a, b] = self.to_le_bytes();
        [a, b, 0, 0]
    }

    fn from_unaligned(bytes: &[u8]) -> Option<u16> {
        Some(u16::from_le_bytes([bytes[0], bytes[1]]))
    }

    fn shown(self) {}
}

impl AsULE for u32 {
    const WIDTH: usize = 4;

    ghost WIDTH = { 4 };

    ghost is_value = { λ x. x < 2 ^ 32 };

    ghost pack = { low_bytes 4 };

    ghost unpack = { λ b. Some (number_of 4 b) };

    ghost some_width = { lit< tt };

    ghost width_fits = { lit≤ tt };

    ghost length_of_pack = { λ x h. refl };

    ghost gives_back = { λ x h. ap Some (number_of-4 x h) };

    ghost bytes_of_pack = { λ x h. low_bytes-small 4 x };

    fn to_unaligned(self) -> [u8; 4] {
        self.to_le_bytes()
    }

    fn from_unaligned(bytes: &[u8]) -> Option<u32> {
        Some(u32::from_le_bytes([bytes[0], bytes[1], bytes[2], bytes[3]]))
    }

    fn shown(self) {}
}

impl AsULE for i8 {
    const WIDTH: usize = 1;

    ghost WIDTH = { 1 };

    ghost is_value = { FitsSigned w8 };

    ghost pack = { λ z. low_bytes 1 (cast_unsigned w8 z) };

    ghost unpack = { λ b. Some (cast_signed w8 (number_of 1 b)) };

    ghost some_width = { lit< tt };

    ghost width_fits = { lit≤ tt };

    ghost length_of_pack = { λ x h. refl };

    ghost gives_back = { λ z h. ap Some (signed-1 z h) };

    ghost bytes_of_pack = { λ x h. low_bytes-small 1 (cast_unsigned w8 x) };

    fn to_unaligned(self) -> [u8; 4] {
        let [a] = self.to_le_bytes();
        [a, 0, 0, 0]
    }

    fn from_unaligned(bytes: &[u8]) -> Option<i8> {
        Some(i8::from_le_bytes([bytes[0]]))
    }

    fn shown(self) {}
}

impl AsULE for i16 {
    const WIDTH: usize = 2;

    ghost WIDTH = { 2 };

    ghost is_value = { FitsSigned w16 };

    ghost pack = { λ z. low_bytes 2 (cast_unsigned w16 z) };

    ghost unpack = { λ b. Some (cast_signed w16 (number_of 2 b)) };

    ghost some_width = { lit< tt };

    ghost width_fits = { lit≤ tt };

    ghost length_of_pack = { λ x h. refl };

    ghost gives_back = { λ z h. ap Some (signed-2 z h) };

    ghost bytes_of_pack = { λ x h. low_bytes-small 2 (cast_unsigned w16 x) };

    fn to_unaligned(self) -> [u8; 4] {
        let [a, b] = self.to_le_bytes();
        [a, b, 0, 0]
    }

    fn from_unaligned(bytes: &[u8]) -> Option<i16> {
        Some(i16::from_le_bytes([bytes[0], bytes[1]]))
    }

    fn shown(self) {}
}

impl AsULE for i32 {
    const WIDTH: usize = 4;

    ghost WIDTH = { 4 };

    ghost is_value = { FitsSigned w32 };

    ghost pack = { λ z. low_bytes 4 (cast_unsigned w32 z) };

    ghost unpack = { λ b. Some (cast_signed w32 (number_of 4 b)) };

    ghost some_width = { lit< tt };

    ghost width_fits = { lit≤ tt };

    ghost length_of_pack = { λ x h. refl };

    ghost gives_back = { λ z h. ap Some (signed-4 z h) };

    ghost bytes_of_pack = { λ x h. low_bytes-small 4 (cast_unsigned w32 x) };

    fn to_unaligned(self) -> [u8; 4] {
        self.to_le_bytes()
    }

    fn from_unaligned(bytes: &[u8]) -> Option<i32> {
        Some(i32::from_le_bytes([bytes[0], bytes[1], bytes[2], bytes[3]]))
    }

    fn shown(self) {}
}
