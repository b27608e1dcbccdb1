//! The order of versions.
ghost use Rattle.std.specs.Prelude.{◌≡◌, ◌<◌, IfSome, IsTrue, drop, length, not, position};
ghost use Rattle.std.specs.Char.{is_ascii_digit};
ghost use Rattle.std.specs.Ordering.{nat_cmp};
ghost use Rattle.std.specs.Str.{all_ascii_digits};
ghost use Rattle.std.specs.Str.Parse.{digits_value};
ghost use Rattle.td_version.specs.Order.{mark_of as mark_of_symbol, part_cmp, same_version};
ghost use Rattle.td_version.specs.Order.{version_cmp};
ghost use Rattle.td_version.specs.Version.{parts_of};
ghost use Rattle.td_version.specs.Comparing.{
  after_digits,
  first_digits,
  first_mark as first_mark_of,
  without_zeros as without_zeros_of,
};

use crate::version::Version;
use std::cmp::Ordering;

/// The mark after the last symbol of a run.
const END_MARK: u16 = 1;

/// The order of two versions. Versions that are equal in order may be spelled differently.
pub fn cmp_version(a: &Version<'_>, b: &Version<'_>) -> Ordering
    ensures { result ≡ version_cmp (parts_of a.now) (parts_of b.now) }
{
    let order = a.epoch.cmp(&b.epoch);
    if order != Ordering::Equal {
        return order;
    }
    let order = cmp_text(a.upstream, b.upstream);
    if order != Ordering::Equal {
        return order;
    }
    cmp_text(a.revision.unwrap_or("0"), b.revision.unwrap_or("0"))
}

/// Whether two versions are equal in order, as `1.0` and `1.0-0` are.
pub fn is_same_version(a: &Version<'_>, b: &Version<'_>) -> bool
    ensures { result ≡ same_version (parts_of a.now) (parts_of b.now) }
{
    cmp_version(a, b) == Ordering::Equal
}

/// The order of two upstream parts, or of two revisions. Most that are equal are spelled alike.
fn cmp_text(a: &str, b: &str) -> Ordering
    ensures { result ≡ part_cmp a.now b.now }
{
    if a == b {
        return Ordering::Equal;
    }
    cmp_part(a, b)
}

/// The order of two upstream parts, or of two revisions, symbol by symbol and number by number.
fn cmp_part(a: &str, b: &str) -> Ordering
    ensures { result ≡ part_cmp a.now b.now }
{
    let mut left = a.as_bytes();
    let mut right = b.as_bytes();
    while !left.is_empty() || !right.is_empty() {
        let mark = first_mark(left);
        let order = mark.cmp(&first_mark(right));
        if order != Ordering::Equal {
            return order;
        }
        if mark == END_MARK {
            let (left_digits, left_rest) = split_digits(left);
            let (right_digits, right_rest) = split_digits(right);
            let order = cmp_digits(left_digits, right_digits);
            if order != Ordering::Equal {
                return order;
            }
            left = left_rest;
            right = right_rest;
        } else {
            left = after_first(left);
            right = after_first(right);
        }
    }
    Ordering::Equal
}

fn after_first(part: &[u8]) -> &[u8]
    requires { 0 < length part.now }
    ensures { result.now ≡ drop 1 part.now }
{
    &part[1..]
}

/// The mark of the symbol that a part begins with; a digit and the end have the end mark.
fn first_mark(part: &[u8]) -> u16
    ensures { result ≡ first_mark_of part.now }
{
    match part {
        [symbol, ..] if !symbol.is_ascii_digit() => mark_of(*symbol),
        _ => END_MARK,
    }
}

/// Where a symbol comes: a tilde before the end, letters after it, all others after these.
fn mark_of(symbol: u8) -> u16
    ensures { result ≡ mark_of_symbol symbol }
{
    match symbol {
        b'~' => 0,
        b'a'..=b'z' | b'A'..=b'Z' => symbol as u16 + 2,
        _ => symbol as u16 + 258,
    }
}

/// The digits that a part begins with, and what follows them.
fn split_digits(part: &[u8]) -> (&[u8], &[u8])
    ensures first { result.0.now ≡ first_digits part.now }
    ensures after { result.1.now ≡ after_digits part.now }
    ensures digits { IsTrue (all_ascii_digits result.0.now) }
{
    part.split_at(first_symbol(part).unwrap_or(part.len()))
}

/// The place of the first byte that is no digit.
fn first_symbol(part: &[u8]) -> Option<usize>
    ensures place { result ≡ position (λ b. not (is_ascii_digit b)) part.now }
    ensures within { IfSome result (λ i. i < length part.now) }
{
    part.iter().position(|b| !b.is_ascii_digit())
}

/// Two runs of digits as numbers of any length: the longer without its zeros is the greater, and
/// among equally long ones the first digit that differs decides.
fn cmp_digits(a: &[u8], b: &[u8]) -> Ordering
    requires a { IsTrue (all_ascii_digits a.now) }
    requires b { IsTrue (all_ascii_digits b.now) }
    ensures { result ≡ nat_cmp (digits_value 10 a.now) (digits_value 10 b.now) }
{
    let a = without_zeros(a);
    let b = without_zeros(b);
    match a.len().cmp(&b.len()) {
        Ordering::Equal => a.cmp(b),
        order => order,
    }
}

/// The digits without the zeros in front.
fn without_zeros(digits: &[u8]) -> &[u8]
    ensures { result.now ≡ without_zeros_of digits.now }
{
    let mut rest = digits;
    while let [b'0', after @ ..] = rest {
        rest = after;
    }
    rest
}
