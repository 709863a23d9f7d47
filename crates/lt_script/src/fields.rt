//! The parts of a line, read from its front.
ghost use Rattle.std.specs.Prelude.{◌≡◌, ◌≤◌, length, option_map, IfSome};
ghost use Rattle.std.specs.Option.{option_copied};
ghost use Rattle.lt_script.specs.Fields.{after, digits_len, leads_zero, numeral_of, number_at, name_at, address_at, octet_at, end_at};

use crate::limits::NAME_LIMIT;
use crate::script::Name;
use lt_bytes::{Number, read_decimal};
use lt_world::Address;

/// Why a line isn't read.
#[derive(Clone, Copy, Debug, PartialEq, Eq)]
pub enum LineError {
    Bad,
    NoMemory,
}

/// What follows these bytes, where they stand at the front.
pub fn after<'a>(front: &[u8], bytes: &'a [u8]) -> Option<&'a [u8]>
    ensures { option_copied result ≡ after front.now bytes.now }
{
    bytes.strip_prefix(front)
}

/// The number at the front, between these bounds, and what follows it.
#[tactic(auto, unfolding(crate::specs::Fields::number_at))]
pub fn number_at(least: u64, most: u64, bytes: &[u8]) -> Option<(u64, &[u8])>
    ensures value { option_map (λ x. (x.0, x.1.now)) result ≡ number_at least most bytes.now }
    ensures within { IfSome result (λ x. (least ≤ x.0) × (x.0 ≤ most)) }
{
    let n = digits_len(bytes);
    match numeral(least, most, &bytes[..n]) {
        None => None,
        Some(value) => Some((value, &bytes[n..])),
    }
}

// How many digits stand at the front.
fn digits_len(bytes: &[u8]) -> usize
    ensures count { result ≡ digits_len bytes.now }
    ensures within { result ≤ length bytes.now }
{
    for (i, b) in bytes.iter().enumerate() {
        if !b.is_ascii_digit() {
            return i;
        }
    }
    bytes.len()
}

// The number that digits write without a leading zero, between these bounds.
fn numeral(least: u64, most: u64, digits: &[u8]) -> Option<u64>
    ensures value { result ≡ numeral_of least most digits.now }
    ensures within { IfSome result (λ n. (least ≤ n) × (n ≤ most)) }
{
    if leads_zero(digits) {
        return None;
    }
    match read_decimal(digits) {
        Number::Value(value) if least <= value && value <= most => Some(value),
        _ => None,
    }
}

fn leads_zero(digits: &[u8]) -> bool
    ensures { result ≡ leads_zero digits.now }
{
    digits.len() > 1 && digits[0] == b'0'
}

/// The name of a link at the front, and what follows it.
#[tactic(auto, unfolding(crate::specs::Fields::name_at))]
pub fn name_at(bytes: &[u8]) -> Option<(Name, &[u8])>
    ensures { option_map (λ x. (x.0, x.1.now)) result ≡ name_at bytes.now }
{
    let rest = after(b"c", bytes)?;
    let (number, rest) = number_at(0, NAME_LIMIT, rest)?;
    let name = Name {
        gate: false,
        number: number as u32,
    };
    Some((name, rest))
}

#[tactic(auto, unfolding(crate::specs::Fields::octet_at))]
fn octet_at(bytes: &[u8]) -> Option<(u64, &[u8])>
    ensures value { option_map (λ x. (x.0, x.1.now)) result ≡ octet_at bytes.now }
    ensures small { IfSome result (λ x. x.0 ≤ 255) }
{
    let (a, rest) = number_at(0, 255, bytes)?;
    let rest = after(b".", rest)?;
    Some((a, rest))
}

#[tactic(auto, unfolding(crate::specs::Fields::end_at))]
fn end_at(bytes: &[u8]) -> Option<((u64, u64), &[u8])>
    ensures value { option_map (λ x. (x.0, x.1.now)) result ≡ end_at bytes.now }
    ensures small { IfSome result (λ x. (x.0.0 ≤ 255) × (x.0.1 ≤ 65535)) }
{
    let (d, rest) = number_at(0, 255, bytes)?;
    let rest = after(b":", rest)?;
    let (port, rest) = number_at(0, 65535, rest)?;
    Some(((d, port), rest))
}

/// The address at the front, and what follows it.
#[tactic(auto, unfolding(crate::specs::Fields::address_at))]
pub fn address_at(bytes: &[u8]) -> Option<(Address, &[u8])>
    ensures { option_map (λ x. (x.0, x.1.now)) result ≡ address_at bytes.now }
{
    let (a, rest) = octet_at(bytes)?;
    let (b, rest) = octet_at(rest)?;
    let (c, rest) = octet_at(rest)?;
    let ((d, port), rest) = end_at(rest)?;
    let address = Address {
        ip: [a as u8, b as u8, c as u8, d as u8],
        port: port as u16,
    };
    Some((address, rest))
}
