//! Numbers, written in digits.
ghost use Rattle.std.specs.Prelude.{◌≡◌, ◌≤◌, ◌<◌, ◌^◌, IfSome};
ghost use Rattle.ucptab_table.specs.TableText.{number_of, hexadecimal, decimal_number};

/// Returns the number that 1 to `most` digits of the base write, or `None` for any other bytes.
#[tactic(auto, using(crate::proofs::Powers::one_digit_more, crate::proofs::Powers::digits_fit), unfolding(crate::specs::TableText::number_of))]
fn number_of(base: u32, most: usize, bytes: &[u8]) -> Option<u64>
    requires two { 2 ≤ base }
    requires sixteen { base ≤ 16 }
    requires ten { most ≤ 10 }
    ensures value { result ≡ number_of base most bytes.now }
    ensures bound { IfSome result (λ n. n < base ^ most) }
{
    if bytes.is_empty() || bytes.len() > most {
        return None;
    }
    let mut number = 0;
    for byte in bytes {
        let digit = char::from(*byte).to_digit(base)?;
        number = number * u64::from(base) + u64::from(digit);
    }
    Some(number)
}

/// Returns the number that 1 to 8 hexadecimal digits of either case write, or `None` for any other
/// bytes.
pub fn hexadecimal(bytes: &[u8]) -> Option<u32>
    ensures { result ≡ hexadecimal bytes.now }
{
    let number = number_of(16, 8, bytes)?;
    Some(number as u32)
}

/// Returns the number that 1 to 10 decimal digits write, or `None` for any other bytes.
pub fn decimal_number(bytes: &[u8]) -> Option<u64>
    ensures { result ≡ decimal_number bytes.now }
{
    number_of(10, 10, bytes)
}
