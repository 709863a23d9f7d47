//! The settings of a request, lent from the configuration.
ghost use Rattle.std.specs.Prelude.{◌≡◌, ◌<◌, ◌≤◌, ◌^◌, option_map};
ghost use Rattle.settings.specs.Indexed.{IsIndexOf, global_alone, lists_of_all, place_in};
ghost use Rattle.settings.specs.Kinds.{bytes_of as spec_bytes_of};
ghost use Rattle.settings.specs.Used as spec;
ghost use Rattle.settings.specs.Used.{seen, values_at, values_of, values_where};

use crate::counting::Counting;
use crate::counts::{counting_by, global_counting};
use crate::gateway::Gateways;
use crate::key::Key;
use crate::placed::{
    Placed, gateways_or_none, number_or, of_module, pairs_or_none, policy_of, rules_or_none,
    setting_at, text_or,
};
use crate::places::{Index, Place};
use crate::value::{bound_to, bytes_of, one_or_more, port_of, without_last_slash};
use conf_value::{Config, Pair, Truth};
use gate_hosts::Policy;

/// A value for each typed key, after its rule. Texts and arrays are lent from the configuration.
#[derive(Clone, Copy)]
pub struct Settings<'a> {
    /// Without a final `/`; empty where no block that counts sets it.
    pub server_document_root: &'a [u8],
    /// 1 to 65,535.
    pub server_port: u64,
    pub server_bind: [u8; 4],
    /// Texts without keys.
    pub server_modules: &'a [Pair],
    pub server_tag: &'a [u8],
    /// How long the body of a request may be, in bytes: 1,024 to 4,194,304.
    pub server_max_request_size: u64,
    /// 1 or more.
    pub server_max_keep_alive_requests: u64,
    /// Texts without keys.
    pub index_file_names: &'a [Pair],
    /// Texts with keys: a suffix and its media type.
    pub mimetype_assign: &'a [Pair],
    /// Texts without keys.
    pub static_file_exclude_extensions: &'a [Pair],
    pub url_rewrite_once: Rules<'a>,
    pub url_rewrite_repeat: Rules<'a>,
    pub fastcgi_server: Gateways<'a>,
    pub fastcgi_balance: Policy,
    pub proxy_server: Gateways<'a>,
    pub proxy_balance: Policy,
}

/// The list of rules that counts.
#[derive(Clone, Copy)]
pub struct Rules<'a> {
    /// The block that sets it; 0 where none does.
    pub block: u32,
    /// The number of the pattern of its first rule; those of the others follow.
    pub first_pattern: u32,
    /// Texts with keys: a pattern and what stands in place of a target in which it is found.
    pub rules: &'a [Pair],
}

/// The settings where these places count.
pub fn settings_from<'a>(config: &'a Config, counting: &Counting) -> Settings<'a>
    ensures values { seen result ≡ values_at config.now.blocks (place_in counting.now) }
    ensures port { result.server_port ≤ 65535 }
    ensures size { result.server_max_request_size ≤ 4194304 }
{
    let modules = pairs_or_none(found(config, counting, Key::Modules));
    settings_with(config, counting, modules)
}

fn found<'a>(config: &'a Config, counting: &Counting, key: Key) -> Option<Placed<'a>>
    ensures { option_map spec.lent_placed result ≡ spec.setting_at config.now.blocks (place_in counting.now key) }
{
    setting_at(config.blocks.as_slice(), counting.place(key))
}

/// The setting of a key of a module, where the module is named.
fn found_in<'a>(
    config: &'a Config,
    counting: &Counting,
    modules: &[Pair],
    module: &'static [u8],
    key: Key,
) -> Option<Placed<'a>>
    ensures { option_map spec.lent_placed result ≡ spec.of_module module.now modules.now (spec.setting_at config.now.blocks (place_in counting.now key)) }
{
    of_module(module, modules, found(config, counting, key))
}

/// One row a key: its default and its rule.
fn settings_with<'a>(config: &'a Config, counting: &Counting, modules: &'a [Pair]) -> Settings<'a>
    ensures values { seen result ≡ spec.values_with modules.now (λ key. spec.setting_at config.now.blocks (place_in counting.now key)) }
    ensures port { result.server_port ≤ 65535 }
    ensures size { result.server_max_request_size ≤ 4194304 }
{
    let root = found(config, counting, Key::DocumentRoot);
    let port = found(config, counting, Key::Port);
    let bind = found(config, counting, Key::Bind);
    let tag = found(config, counting, Key::Tag);
    let request_size = found(config, counting, Key::MaxRequestSize);
    let requests = found(config, counting, Key::MaxKeepAliveRequests);
    let index_names = found(config, counting, Key::IndexFileNames);
    let types = found(config, counting, Key::MimetypeAssign);
    let excluded = found(config, counting, Key::ExcludeExtensions);
    let once = found_in(config, counting, modules, b"mod_rewrite", Key::RewriteOnce);
    let repeat = found_in(
        config,
        counting,
        modules,
        b"mod_rewrite",
        Key::RewriteRepeat,
    );
    let fastcgi = found_in(
        config,
        counting,
        modules,
        b"mod_fastcgi",
        Key::FastcgiServer,
    );
    let fastcgi_balance = found_in(
        config,
        counting,
        modules,
        b"mod_fastcgi",
        Key::FastcgiBalance,
    );
    let proxy = found_in(config, counting, modules, b"mod_proxy", Key::ProxyServer);
    let proxy_balance = found_in(config, counting, modules, b"mod_proxy", Key::ProxyBalance);
    Settings {
        server_document_root: without_last_slash(text_or(b"", root)),
        server_port: port_of(number_or(80, port)),
        server_bind: bound_to(text_or(b"0.0.0.0", bind)),
        server_modules: modules,
        server_tag: text_or(b"lighttpd", tag),
        server_max_request_size: bytes_of(number_or(1024, request_size)),
        server_max_keep_alive_requests: one_or_more(number_or(100, requests)),
        index_file_names: pairs_or_none(index_names),
        mimetype_assign: pairs_or_none(types),
        static_file_exclude_extensions: pairs_or_none(excluded),
        url_rewrite_once: rules_or_none(once),
        url_rewrite_repeat: rules_or_none(repeat),
        fastcgi_server: gateways_or_none(fastcgi),
        fastcgi_balance: policy_of(text_or(b"fair", fastcgi_balance)),
        proxy_server: gateways_or_none(proxy),
        proxy_balance: policy_of(text_or(b"fair", proxy_balance)),
    }
}

/// How long the body of a request may be, in bytes, where `server.max-request-size` is set at this place or nowhere.
pub fn request_size_at(config: &Config, place: Option<Place>) -> u64
    ensures value { result ≡ spec_bytes_of (spec.number_or 1024 (spec.setting_at config.now.blocks place)) }
    ensures size { result ≤ 4194304 }
{
    bytes_of(number_or(1024, setting_at(config.blocks.as_slice(), place)))
}

/// The settings that count where the blocks have these truths, one a block.
pub fn used_by<'a>(config: &'a Config, index: &Index, truths: &[Truth]) -> Settings<'a>
    requires index { IsIndexOf config.now.blocks index.now }
    ensures values { seen result ≡ values_of config.now.blocks truths.now }
    ensures port { result.server_port ≤ 65535 }
    ensures size { result.server_max_request_size ≤ 4194304 }
{
    let counting = counting_by(index, truths);
    settings_from(config, &counting)
}

/// The settings that count where the global block alone is True.
pub fn global_settings(config: &Config) -> Settings<'_>
    requires lists { lists_of_all config.now.blocks < 2 ^ 32 }
    ensures values { seen result ≡ values_where config.now.blocks global_alone }
    ensures port { result.server_port ≤ 65535 }
    ensures size { result.server_max_request_size ≤ 4194304 }
{
    let counting = global_counting(config.blocks.as_slice());
    settings_from(config, &counting)
}
