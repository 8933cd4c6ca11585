//! Packing and unpacking of boundaries: three bytes each, lowest byte first. Four of them are three
//! words of 32 bits. They are read and written eight at a time, so that the length of a slice is
//! tested once for eight boundaries.
ghost use Rattle.std.specs.Prelude.{◌≡◌, ◌+◌, ◌-◌, ◌*◌, ◌/◌, ◌^◌, ◌<◌, ◌≤◌, ◌++◌, [], ◌∷◌, length, take, drop, map, min, IfOk, OnOk, OnErr};
ghost use Rattle.std.specs.Int.{w32, from_le_bytes};
ghost use Rattle.std.specs.List.{All, flat_map};
ghost use Rattle.icu_zerovec.specs.PackedBytes.{low_bytes, number_of};
ghost use Rattle.icu_invlist.specs.InversionList.{IsValid};
ghost use Rattle.icu_invlist.specs.Inside.PackedSets.{sum_of_sizes};
ghost use Rattle.icu_invlist.specs.Inside.StillGiven.{ends_in, ArePackedEnds};

use icu_zerovec::{MemoryError, PotentialCodePoint, ZeroVec};
use std::alloc::Global;

/// Copies packed boundaries into a vector.
pub(crate) fn unpacked(
    alloc: Global,
    ends: &ZeroVec<'_, PotentialCodePoint>,
) -> Result<Vec<PotentialCodePoint>, MemoryError>
    ensures { IfOk result (λ v. v.items ≡ ends.now) }
{
    let mut points = Vec::with_capacity(alloc, ends.len())?;
    for end in ends.iter() {
        points.push(end)?;
    }
    Ok(points)
}

/// Returns the number in the four bytes from index `at` on. It is a single read.
#[inline(always)]
fn word_at(bytes: &[u8], at: usize) -> u32
    requires { at + 4 ≤ length bytes.now }
    ensures { result ≡ from_le_bytes w32 (take 4 (drop at bytes.now)) }
{
    match bytes[at..].first_chunk::<4>() {
        Some(four) => u32::from_le_bytes(*four),
        None => unreachable!(),
    }
}

/// Returns the first four boundaries in these bytes, each by one read.
#[inline(always)]
fn four_of(bytes: &[u8]) -> [u32; 4]
    requires { 12 ≤ length bytes.now }
    ensures { result
        ≡ number_of 3 bytes.now ∷ number_of 3 (drop 3 bytes.now) ∷ number_of 3 (drop 6 bytes.now)
        ∷ number_of 3 (drop 9 bytes.now) ∷ [] }
{
    [
        word_at(bytes, 0) % 0x100_0000,
        word_at(bytes, 3) % 0x100_0000,
        word_at(bytes, 6) % 0x100_0000,
        word_at(bytes, 8) >> 8,
    ]
}

/// Returns the eight boundaries in these bytes, in two groups of four.
#[inline(always)]
fn eight_of(bytes: &[u8; 24]) -> [[u32; 4]; 2]
    ensures { flat_map (λ four. four) result ≡ ends_in bytes.now }
{
    [four_of(bytes), four_of(&bytes[12..])]
}

/// Writes the items to `out` from index `at` on.
#[inline(always)]
fn write<T: Copy>(out: &mut [T], at: usize, items: &[T])
    requires { at + length items.now ≤ length out.old }
    ensures written { take (at + length items.now) out.new ≡ take at out.old ++ items.now }
    ensures len { length out.new ≡ length out.old }
{
    out[at..at + items.len()].copy_from_slice(items);
}

/// Writes the boundaries in these bytes to `out`, which has an element for each. It reads eight at
/// a time, and the rest one by one.
#[inline(always)]
pub(crate) fn unpack_into(out: &mut [u32], bytes: &[u8])
    requires { length out.old ≡ length bytes.now / 3 }
    ensures { out.new ≡ ends_in bytes.now }
{
    let mut at = 0;
    let mut rest = bytes;
    while let Some((eight, next)) = rest.split_first_chunk::<24>() {
        write(out, at, eight_of(eight).as_flattened());
        at += 8;
        rest = next;
    }
    unpack_each(&mut out[at..], rest);
}

/// Writes the boundaries in these bytes to `out`, which has an element for each, one by one.
#[inline(always)]
fn unpack_each(out: &mut [u32], bytes: &[u8])
    requires { length out.old ≡ length bytes.now / 3 }
    ensures { out.new ≡ ends_in bytes.now }
{
    let mut at = 0;
    let mut rest = bytes;
    while let Some((three, next)) = rest.split_first_chunk::<3>() {
        let end = u32::from_le_bytes([three[0], three[1], three[2], 0]);
        write(out, at, &[end]);
        at += 1;
        rest = next;
    }
}

/// Appends the boundaries in these bytes to `ends`, which is unchanged if an allocation fails.
#[inline]
pub(crate) fn unpack(bytes: &[u8], ends: &mut Vec<u32>) -> Result<(), MemoryError>
    ensures ok { OnOk result (ends.new.items ≡ ends.old.items ++ ends_in bytes.now) }
    ensures err { OnErr result (ends.new.items ≡ ends.old.items) }
{
    let len = ends.len();
    ends.resize(len + bytes.len() / 3, 0)?;
    unpack_into(&mut ends[len..], bytes);
    Ok(())
}

/// Returns the sum of the sizes of the ranges between these boundaries.
#[inline(always)]
pub(crate) fn sum_of_sizes(bytes: &[u8]) -> usize
    requires { ArePackedEnds bytes.now }
    ensures { result ≡ sum_of_sizes (ends_in bytes.now) }
{
    let mut rest = bytes;
    let mut sum = 0;
    while let Some((four, next)) = rest.split_first_chunk::<12>() {
        let [a, b, c, d] = four_of(four);
        sum += (b - a) as usize + (d - c) as usize;
        rest = next;
    }
    if let Some(range) = rest.first_chunk::<6>() {
        let start = u32::from_le_bytes([range[0], range[1], range[2], 0]);
        let end = u32::from_le_bytes([range[3], range[4], range[5], 0]);
        sum += (end - start) as usize;
    }
    sum
}

/// Returns the bytes of four boundaries, which are below 2^24, as three words.
#[inline(always)]
fn words_of(four: &[u32; 4]) -> [[u8; 4]; 3]
    requires { All (λ x. x < 2 ^ 24) four.now }
    ensures { flat_map (λ b. b) result ≡ flat_map (low_bytes 3) four.now }
{
    let [a, b, c, d] = *four;
    [
        (a + (b << 24)).to_le_bytes(),
        ((b >> 8) + (c << 16)).to_le_bytes(),
        ((c >> 16) + (d << 8)).to_le_bytes(),
    ]
}

/// Returns the bytes of eight boundaries, which are below 2^24, as two groups of three words.
#[inline(always)]
fn words_of_eight(eight: &[u32; 8]) -> [[[u8; 4]; 3]; 2]
    requires { All (λ x. x < 2 ^ 24) eight.now }
    ensures { flat_map (λ b. b) (flat_map (λ words. words) result) ≡ flat_map (low_bytes 3) eight.now }
{
    let [a, b, c, d, e, f, g, h] = *eight;
    [words_of(&[a, b, c, d]), words_of(&[e, f, g, h])]
}

/// Writes the boundaries, which are below 2^24, to `out`, packed in three bytes each. It writes
/// eight at a time, and the rest one by one.
fn pack_into(out: &mut [u8], ends: &[u32])
    requires small { All (λ x. x < 2 ^ 24) ends.now }
    requires len { length out.old ≡ length ends.now * 3 }
    ensures { out.new ≡ flat_map (low_bytes 3) ends.now }
{
    let mut at = 0;
    let mut rest = ends;
    while let Some((eight, next)) = rest.split_first_chunk::<8>() {
        write(out, at, words_of_eight(eight).as_flattened().as_flattened());
        at += 24;
        rest = next;
    }
    pack_each(&mut out[at..], rest);
}

/// Writes the boundaries, which are below 2^24, to `out`, packed in three bytes each, one by one.
#[inline(always)]
fn pack_each(out: &mut [u8], ends: &[u32])
    requires small { All (λ x. x < 2 ^ 24) ends.now }
    requires len { length out.old ≡ length ends.now * 3 }
    ensures { out.new ≡ flat_map (low_bytes 3) ends.now }
{
    let mut at = 0;
    for end in ends {
        write(out, at, &end.to_le_bytes()[..3]);
        at += 3;
    }
}

/// Returns the boundaries packed in three bytes each, lowest byte first. For no boundaries it
/// allocates nothing.
#[inline(always)]
pub(crate) fn pack(alloc: Global, ends: &[u32]) -> Result<Vec<u8>, MemoryError>
    requires { IsValid ends.now }
    ensures { IfOk result (λ v. v.items ≡ flat_map (low_bytes 3) ends.now) }
{
    if ends.is_empty() {
        return Ok(Vec::new(alloc));
    }
    let mut bytes = Vec::from_elem(alloc, 0, ends.len() * 3)?;
    pack_into(&mut bytes, ends);
    Ok(bytes)
}

/// Copies the numbers, with 0xFFFFFF in place of any number that needs more than 24 bits. That is
/// not a valid boundary either.
pub(crate) fn cut_to_points(
    alloc: Global,
    ends: &[u32],
) -> Result<Vec<PotentialCodePoint>, MemoryError>
    ensures { IfOk result (λ v. v.items ≡ map (λ x. min x 0xFFFFFF) ends.now) }
{
    let mut points = Vec::with_capacity(alloc, ends.len())?;
    for end in ends {
        points.push(PotentialCodePoint::from_u24((*end).min(0xFF_FFFF)))?;
    }
    Ok(points)
}
