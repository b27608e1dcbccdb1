//! Numbers as the formats write them.
ghost use Rattle.std.specs.Prelude.{◌≡◌, ◌<◌, ◌≤◌, ◌^◌, IfSome};
ghost use Rattle.td_text.specs.Limits.{max_rebuild};
ghost use Rattle.td_text.specs.Numbers.{has_spare_front as has_spare_front_of, number_at};
ghost use Rattle.td_text.specs.Numbers.{signed_at, IsWithin, NumbersAreExact, SignedAreExact};

use crate::cutting::strip;

/// The largest rebuild number, the `9999` of `+b9999`.
pub const MAX_REBUILD: u16 = 9999;

fn has_spare_front(text: &str) -> bool
    ensures { result ≡ has_spare_front_of text.now }
{
    let bytes = text.as_bytes();
    !bytes.is_empty() && (bytes[0] == b'+' || (bytes[0] == b'0' && bytes.len() > 1))
}

/// A number from 0 to `max`: digits without a sign or a leading zero.
pub fn number(text: &str, max: u64) -> Option<u64>
    ensures value { result ≡ number_at max text.now }
    ensures bounded { IfSome result (λ n. n ≤ max) }
{
    if has_spare_front(text) {
        return None;
    }
    match text.parse::<u64>() {
        Ok(number) if number <= max => Some(number),
        _ => None,
    }
}

/// A rebuild number, the `N` of `+bN`.
pub fn rebuild_number(text: &str) -> Option<u16>
    ensures value { result ≡ number_at max_rebuild text.now }
    ensures bounded { IfSome result (λ n. n ≤ max_rebuild) }
{
    let number = number(text, MAX_REBUILD as u64)?;
    Some(number as u16)
}

/// A number from `-max` to `max`: `-` stands only before a number that isn't 0.
#[tactic(auto, unfolding(crate::specs::Numbers::signed_at))]
pub fn signed(text: &str, max: u16) -> Option<i16>
    requires { max < 2 ^ 15 }
    ensures value { result ≡ signed_at max text.now }
    ensures bounded { IfSome result (IsWithin max) }
{
    match strip(text, "-") {
        None => {
            let number = number(text, max as u64)?;
            Some(number as i16)
        }
        Some(digits) => {
            let number = number(digits, max as u64)?;
            if number == 0 {
                return None;
            }
            Some(-(number as i16))
        }
    }
}

/// Exactly the texts that `put_number` and `put_signed` write are such numbers.
pub fn numbers_are_exact()
    ensures numbers { NumbersAreExact }
    ensures signed { SignedAreExact }
{}
