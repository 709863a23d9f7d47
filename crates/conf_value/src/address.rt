//! Addresses and networks as a configuration writes them.
ghost use Rattle.std.specs.Prelude.{◌≡◌, ◌==◌, ◌≤◌, ◌<◌, IfSome, length, option_map, position};
ghost use Rattle.conf_value.specs.Addresses as spec;

use lt_bytes::{Number, read_decimal};

/// The addresses whose first bits are those of this one.
#[derive(Clone, Copy, Debug, PartialEq, Eq)]
pub struct Network {
    pub address: [u8; 4],
    /// How many bits count, 0 to 32.
    pub bits: u32,
}

/// The address that a text writes with four numbers and dots, `10.0.0.1`.
#[tactic(auto, unfolding(crate::specs::Addresses::address_of))]
pub fn read_address(text: &[u8]) -> Option<[u8; 4]>
    ensures { result ≡ spec.address_of text.now }
{
    let (a, rest) = cut_at(b'.', text)?;
    let (b, rest) = cut_at(b'.', rest)?;
    let (c, d) = cut_at(b'.', rest)?;
    Some([octet(a)?, octet(b)?, octet(c)?, octet(d)?])
}

/// The network that a text writes: an address, or an address, a slash and bits from 0 to 32, `10.0.0.0/8`.
#[tactic(auto, unfolding(crate::specs::Addresses::network_with))]
pub fn read_network(text: &[u8]) -> Option<Network>
    ensures value { result ≡ spec.network_of text.now }
    ensures bits { IfSome result (λ network. network.bits ≤ 32) }
{
    match cut_at(b'/', text) {
        Some((address, bits)) => {
            let address = read_address(address)?;
            let bits = number_up_to(32, bits)?;
            Some(Network {
                address,
                bits: bits as u32,
            })
        }
        None => match read_address(text) {
            Some(address) => Some(Network { address, bits: 32 }),
            None => None,
        },
    }
}

fn octet(digits: &[u8]) -> Option<u8>
    ensures { result ≡ spec.number_up_to 255 digits.now }
{
    match number_up_to(255, digits) {
        Some(number) => Some(number as u8),
        None => None,
    }
}

/// The number that digits write without a leading zero, up to this one.
fn number_up_to(most: u64, digits: &[u8]) -> Option<u64>
    ensures value { result ≡ spec.number_up_to most digits.now }
    ensures within { IfSome result (λ n. n ≤ most) }
{
    if has_leading_zero(digits) {
        return None;
    }
    match read_decimal(digits) {
        Number::Value(number) if number <= most => Some(number),
        _ => None,
    }
}

fn has_leading_zero(digits: &[u8]) -> bool
    ensures { result ≡ spec.has_leading_zero digits.now }
{
    digits.len() > 1 && digits[0] == b'0'
}

/// The text before the first such sign, and the text behind it.
#[tactic(auto, unfolding(crate::specs::Addresses::cut_at))]
fn cut_at(sign: u8, text: &[u8]) -> Option<(&[u8], &[u8])>
    ensures { option_map (λ x. (x.0.now, x.1.now)) result ≡ spec.cut_at sign text.now }
{
    match sign_in(sign, text) {
        Some(at) => Some((&text[..at], &text[at + 1..])),
        None => None,
    }
}

fn sign_in(sign: u8, text: &[u8]) -> Option<usize>
    ensures value { result ≡ position (λ b. b == sign) text.now }
    ensures within { IfSome result (λ at. at < length text.now) }
{
    text.iter().position(|b| *b == sign)
}
