//! An IPv4 address as text.
ghost use Rattle.std.specs.Prelude.{◌≡◌, ◌++◌, [], ◌∷◌, decimal, OnOk};
ghost use Rattle.cgi_text.specs.Request.{ip_text};

use lt_bytes::{NoMemory, Text, decimal};

/// Adds the address in dotted decimal form.
pub fn push_ip(text: &mut Text, ip: [u8; 4]) -> Result<(), NoMemory>
    ensures { OnOk result (text.new ≡ text.old ++ ip_text ip) }
{
    push_octet(text, ip[0])?;
    push_octet(text, ip[1])?;
    push_octet(text, ip[2])?;
    text.push_all(decimal(u64::from(ip[3])).bytes())
}

/// Adds a part of an address and the dot after it.
fn push_octet(text: &mut Text, octet: u8) -> Result<(), NoMemory>
    ensures { OnOk result (text.new ≡ text.old ++ (decimal octet ++ 46 ∷ [])) }
{
    text.push_all(decimal(u64::from(octet)).bytes())?;
    text.push(b'.')
}
