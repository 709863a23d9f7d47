//! Whether an address lies in a network.
ghost use Rattle.std.specs.Prelude.{◌≡◌, ◌≤◌, is_some};
ghost use Rattle.conf_value.specs.Addresses.{network_of};
ghost use Rattle.conditions.specs.Networks.{ip_number, is_in_network, prefix_of};

use conf_value::read_network;

/// The number of bits of an address.
const BITS: u32 = 32;

/// Whether the text is a dotted address, or one with a number of bits behind a slash, as `==` and `!=` want it of a
/// client's address.
pub fn is_network(text: &[u8]) -> bool
    ensures { result ≡ is_some (network_of text.now) }
{
    read_network(text).is_some()
}

/// An address as one number.
fn ip_number(ip: [u8; 4]) -> u64
    ensures { result ≡ ip_number ip }
{
    ((u64::from(ip[0]) * 256 + u64::from(ip[1])) * 256 + u64::from(ip[2])) * 256 + u64::from(ip[3])
}

/// The first so many bits of an address.
fn prefix_of(number: u64, bits: u32) -> u64
    requires { bits ≤ 32 }
    ensures { result ≡ prefix_of number bits }
{
    number >> (BITS - bits)
}

/// Whether the address lies in the network that the text names. Another text names none.
pub(crate) fn is_in_network(text: &[u8], ip: [u8; 4]) -> bool
    ensures { result ≡ is_in_network text.now ip }
{
    match read_network(text) {
        Some(network) => {
            prefix_of(ip_number(ip), network.bits)
                == prefix_of(ip_number(network.address), network.bits)
        }
        None => false,
    }
}
