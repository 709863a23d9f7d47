//! Name-value pairs, as they are written (FastCGI Specification 1.0, section 3.4).
ghost use Rattle.std.specs.Prelude.{◌≡◌, ◌≤◌, ◌++◌, map, length, decimal, OnOk};
ghost use Rattle.cgi_text.specs.Pairs.{length_bytes, pair_bytes};
ghost use Rattle.cgi_text.specs.Params.{variable_byte, variable_name};

use lt_bytes::{NoMemory, Text, decimal};

/// The greatest length that one byte writes.
const SHORT: usize = 127;

/// What stands before the name of a field in the name of its parameter.
const FIELD_PREFIX: &[u8] = b"HTTP_";

#[tactic(auto, unfolding(crate::specs::Pairs::length_bytes))]
fn push_length(text: &mut Text, size: usize) -> Result<(), NoMemory>
    ensures { OnOk result (text.new ≡ text.old ++ length_bytes size) }
{
    if size <= SHORT {
        return text.push(size as u8);
    }
    text.push_all(&[
        128 + (size / 0x100_0000 % 128) as u8,
        (size / 0x1_0000 % 256) as u8,
        (size / 256 % 256) as u8,
        (size % 256) as u8,
    ])
}

/// Adds a pair.
#[tactic(auto, unfolding(crate::specs::Pairs::pair_bytes))]
pub(crate) fn push_pair(text: &mut Text, name: &[u8], value: &[u8]) -> Result<(), NoMemory>
    ensures { OnOk result (text.new ≡ text.old ++ pair_bytes (name.now, value.now)) }
{
    push_length(text, name.len())?;
    push_length(text, value.len())?;
    text.push_all(name)?;
    text.push_all(value)
}

/// Adds a pair whose value is a number.
pub(crate) fn push_number_pair(text: &mut Text, name: &[u8], number: u64) -> Result<(), NoMemory>
    ensures { OnOk result (text.new ≡ text.old ++ pair_bytes (name.now, decimal number)) }
{
    push_pair(text, name, decimal(number).bytes())
}

/// Adds a pair whose value is a port.
pub(crate) fn push_port_pair(text: &mut Text, name: &[u8], port: u16) -> Result<(), NoMemory>
    ensures { OnOk result (text.new ≡ text.old ++ pair_bytes (name.now, decimal port)) }
{
    push_number_pair(text, name, u64::from(port))
}

/// Adds the pair of a field, whose name is in lower case.
#[tactic(auto, unfolding(crate::specs::Pairs::pair_bytes))]
pub(crate) fn push_field_pair(text: &mut Text, name: &[u8], value: &[u8]) -> Result<(), NoMemory>
    requires { length name.now ≤ 65535 }
    ensures { OnOk result (text.new ≡ text.old ++ pair_bytes (variable_name name.now, value.now)) }
{
    push_length(text, FIELD_PREFIX.len() + name.len())?;
    push_length(text, value.len())?;
    push_variable_name(text, name)?;
    text.push_all(value)
}

fn push_variable_name(text: &mut Text, name: &[u8]) -> Result<(), NoMemory>
    ensures { OnOk result (text.new ≡ text.old ++ variable_name name.now) }
{
    text.push_all(FIELD_PREFIX)?;
    push_variable_bytes(text, name)
}

fn push_variable_bytes(text: &mut Text, name: &[u8]) -> Result<(), NoMemory>
    ensures { OnOk result (text.new ≡ text.old ++ map variable_byte name.now) }
{
    for byte in name {
        text.push(variable_byte(*byte))?;
    }
    Ok(())
}

fn variable_byte(byte: u8) -> u8
    ensures { result ≡ variable_byte byte }
{
    if byte.is_ascii_alphanumeric() {
        byte.to_ascii_uppercase()
    } else {
        b'_'
    }
}
