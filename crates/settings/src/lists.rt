//! How many lists of hosts a configuration has.
ghost use Rattle.std.specs.Prelude.{◌≡◌, ◌<◌, ◌^◌, nat_lt};
ghost use Rattle.settings.specs.Indexed as spec;
ghost use Rattle.settings.specs.Keys.{is_gateway};

use crate::value::pairs_in;
use conf_value::{Block, Config, Setting};

/// No configuration in form has more lists of hosts.
const MOST: usize = u32::MAX as usize;

fn is_gateway(key: &[u8]) -> bool
    ensures { result ≡ is_gateway key.now }
{
    key == b"fastcgi.server".as_slice() || key == b"proxy.server".as_slice()
}

fn lists_in(setting: &Setting) -> usize
    ensures { result ≡ spec.lists_in setting.now }
{
    if is_gateway(setting.key.bytes()) {
        pairs_in(&setting.value).len()
    } else {
        0
    }
}

/// How many lists of hosts these settings have.
pub(crate) fn lists_of(settings: &[Setting]) -> u32
    requires { spec.lists_of settings.now < 2 ^ 32 }
    ensures { result ≡ spec.lists_of settings.now }
{
    let mut lists = 0;
    for setting in settings {
        lists += lists_in(setting) as u32;
    }
    lists
}

/// Whether a configuration has fewer than 2^32 lists of hosts.
pub fn has_few_lists(config: &Config) -> bool
    ensures { result ≡ nat_lt (spec.lists_of_all config.now.blocks) (2 ^ 32) }
{
    left_by_all(config.blocks.as_slice(), MOST).is_some()
}

/// How many lists may come more behind these settings, where so many may come with them.
fn left_by(settings: &[Setting], most: usize) -> Option<usize>
    ensures { result ≡ spec.less most (spec.lists_of settings.now) }
{
    let mut left = most;
    for setting in settings {
        let lists = lists_in(setting);
        if left < lists {
            return None;
        }
        left -= lists;
    }
    Some(left)
}

fn left_by_all(blocks: &[Block], most: usize) -> Option<usize>
    ensures { result ≡ spec.less most (spec.lists_of_all blocks.now) }
{
    let mut left = most;
    for block in blocks {
        let Some(less) = left_by(block.settings.as_slice(), left) else {
            return None;
        };
        left = less;
    }
    Some(left)
}
