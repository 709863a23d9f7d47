//! Where a server listens, and the line that says it.
ghost use Rattle.std.specs.Prelude.{◌≡◌, ◌<◌, ◌^◌, ◌++◌, IfOk, OnOk};
ghost use Rattle.std.specs.Fmt.{decimal as number_text};
ghost use Rattle.settings.specs.Indexed.{lists_of_all};
ghost use Rattle.lt_serve.specs.Listening.{address_of, address_text, listening_line};

use conf_value::Config;
use lt_bytes::{NoMemory, Text, decimal};
use lt_world::Address;
use settings::global_settings;
use std::alloc::Global;

/// The address of `server.bind` and `server.port`. Both count in the global block alone.
pub fn address_of(config: &Config) -> Address
    requires lists { lists_of_all config.now.blocks < 2 ^ 32 }
    ensures { result ≡ address_of config.now.blocks }
{
    let settings = global_settings(config);
    Address {
        ip: settings.server_bind,
        port: settings.server_port as u16,
    }
}

/// `listening on IP:PORT` and a line feed.
pub fn listening_line(alloc: Global, at: Address) -> Result<Text, NoMemory>
    ensures { IfOk result (λ text. text ≡ listening_line at) }
{
    let mut text = Text::new(alloc);
    text.push_all(b"listening on ")?;
    push_address(&mut text, at)?;
    text.push(b'\n')?;
    Ok(text)
}

fn push_address(text: &mut Text, at: Address) -> Result<(), NoMemory>
    ensures { OnOk result (text.new ≡ text.old ++ address_text at) }
{
    push_number(text, at.ip[0] as u64, b".")?;
    push_number(text, at.ip[1] as u64, b".")?;
    push_number(text, at.ip[2] as u64, b".")?;
    push_number(text, at.ip[3] as u64, b":")?;
    text.push_all(decimal(at.port as u64).bytes())
}

// A number, and the sign behind it.
fn push_number(text: &mut Text, number: u64, sign: &[u8]) -> Result<(), NoMemory>
    ensures { OnOk result (text.new ≡ text.old ++ (number_text number ++ sign.now)) }
{
    text.push_all(decimal(number).bytes())?;
    text.push_all(sign)
}
