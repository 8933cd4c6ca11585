//! A set in ICU's serialized form, as bytes: units of 16 bits, low byte first.
ghost use Rattle.std.specs.Prelude.{◌≡◌, ℕ, ◌++◌, IfOk, IfErr, OnOk};
ghost use Rattle.icu_invlist_binary.specs.SerializedSet.{HasForm, IsSerialized, units_of};
ghost use Rattle.ucptrie_sets.specs.Sets.{IsWhyNoSetInUnits, IsWhyNotSerialized, bytes_of_unit, bytes_of_units, unit_of, units_in};

use crate::error::SetWriteError;
use icu_invlist::codepointinvlist::CodePointInversionList;
use icu_invlist_binary::serialized::{SerializedSetError, from_serialized, to_serialized};
use std::alloc::{AllocError, Global};

/// Appends the two bytes of a unit, the low one first.
fn push_unit(bytes: &mut Vec<u8>, unit: u16) -> Result<(), AllocError>
    ensures { IfOk result (λ _. bytes.new.items ≡ bytes.old.items ++ bytes_of_unit unit) }
{
    bytes.push((unit % 256) as u8)?;
    bytes.push((unit / 256) as u8)?;
    Ok(())
}

/// Returns the bytes of units, the low one of each first.
fn bytes_of_units(alloc: Global, units: &[u16]) -> Result<Vec<u8>, AllocError>
    ensures { IfOk result (λ bytes. bytes.items ≡ bytes_of_units units.now) }
{
    let mut bytes = Vec::new(alloc);
    for unit in units {
        push_unit(&mut bytes, *unit)?;
    }
    Ok(bytes)
}

/// Returns the set in ICU's serialized form, as bytes.
///
/// # Errors
/// - `SetWriteError::TooLong` if and only if the boundaries take more than 0x7FFF units.
/// - `SetWriteError::Memory` if an allocation fails.
pub(crate) fn serialized_bytes(
    alloc: Global,
    set: &CodePointInversionList<'_>,
) -> Result<Vec<u8>, SetWriteError>
    ensures ok { IfOk result (λ bytes. bytes.items ≡ bytes_of_units (units_of set.now)) }
    ensures room { OnOk result (HasForm set.now) }
    ensures err { IfErr result (IsWhyNotSerialized set.now) }
{
    let units = to_serialized(alloc, set)?;
    let bytes = bytes_of_units(alloc, &units)?;
    Ok(bytes)
}

/// Returns the unit of two bytes, the low one first.
fn unit_of(low: u8, high: u8) -> u16
    ensures { result ≡ unit_of low high }
{
    u16::from(low) + 256 * u16::from(high)
}

/// Returns the units of bytes, the low one of each first. A last byte without a partner is left
/// out.
fn units_of_bytes(alloc: Global, bytes: &[u8]) -> Result<Vec<u16>, AllocError>
    ensures { IfOk result (λ units. units.items ≡ units_in bytes.now) }
{
    let mut units = Vec::new(alloc);
    let mut rest = bytes;
    while let [low, high, after @ ..] = rest {
        units.push(unit_of(*low, *high))?;
        rest = after;
    }
    Ok(units)
}

/// Reads the set at the start of bytes in ICU's serialized form, with the low byte of each unit
/// first. What follows the set is not read.
///
/// # Errors
/// Returns the first fault of the units, as
/// [`from_serialized`](icu_invlist_binary::serialized::from_serialized) does, and
/// `SerializedSetError::Memory` if an allocation fails.
pub fn set_of_bytes(
    alloc: Global,
    bytes: &[u8],
) -> Result<CodePointInversionList<'static>, SerializedSetError>
    ensures ok { IfOk result (λ set. (len : ℕ) × IsSerialized (units_in bytes.now) set len) }
    ensures err { IfErr result (IsWhyNoSetInUnits (units_in bytes.now)) }
{
    let Ok(units) = units_of_bytes(alloc, bytes) else {
        return Err(SerializedSetError::Memory);
    };
    let read = from_serialized(alloc, &units)?;
    let (set, _) = read;
    Ok(set)
}
