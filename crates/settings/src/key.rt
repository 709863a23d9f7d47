//! The keys that have a type.
ghost use Rattle.std.specs.Prelude.{◌≡◌, ◌<◌};
ghost use Rattle.settings.specs.Keys as spec;

/// A key that has a kind, a default and a rule (lighttpd documentation, "Configuration: all options").
#[derive(Clone, Copy, Debug, PartialEq, Eq)]
pub enum Key {
    /// `server.document-root`
    DocumentRoot,
    /// `server.port`, which counts in the global block alone.
    Port,
    /// `server.bind`, which counts in the global block alone.
    Bind,
    /// `server.modules`, which counts in the global block alone.
    Modules,
    /// `server.tag`
    Tag,
    /// `server.max-request-size`
    MaxRequestSize,
    /// `server.max-keep-alive-requests`
    MaxKeepAliveRequests,
    /// `index-file.names`
    IndexFileNames,
    /// `mimetype.assign`
    MimetypeAssign,
    /// `static-file.exclude-extensions`
    ExcludeExtensions,
    /// `url.rewrite-once`
    RewriteOnce,
    /// `url.rewrite-repeat`
    RewriteRepeat,
    /// `fastcgi.server`
    FastcgiServer,
    /// `fastcgi.balance`
    FastcgiBalance,
    /// `proxy.server`
    ProxyServer,
    /// `proxy.balance`
    ProxyBalance,
}

/// Every typed key.
pub const KEYS: [Key; 16] = [
    Key::DocumentRoot,
    Key::Port,
    Key::Bind,
    Key::Modules,
    Key::Tag,
    Key::MaxRequestSize,
    Key::MaxKeepAliveRequests,
    Key::IndexFileNames,
    Key::MimetypeAssign,
    Key::ExcludeExtensions,
    Key::RewriteOnce,
    Key::RewriteRepeat,
    Key::FastcgiServer,
    Key::FastcgiBalance,
    Key::ProxyServer,
    Key::ProxyBalance,
];

impl Key {
    /// As it stands in a configuration.
    #[tactic(auto, unfolding(crate::specs::Keys::name))]
    pub fn name(self) -> &'static [u8]
        ensures { result.now ≡ spec.name self }
    {
        match self {
            Key::DocumentRoot => b"server.document-root",
            Key::Port => b"server.port",
            Key::Bind => b"server.bind",
            Key::Modules => b"server.modules",
            Key::Tag => b"server.tag",
            Key::MaxRequestSize => b"server.max-request-size",
            Key::MaxKeepAliveRequests => b"server.max-keep-alive-requests",
            Key::IndexFileNames => b"index-file.names",
            Key::MimetypeAssign => b"mimetype.assign",
            Key::ExcludeExtensions => b"static-file.exclude-extensions",
            Key::RewriteOnce => b"url.rewrite-once",
            Key::RewriteRepeat => b"url.rewrite-repeat",
            Key::FastcgiServer => b"fastcgi.server",
            Key::FastcgiBalance => b"fastcgi.balance",
            Key::ProxyServer => b"proxy.server",
            Key::ProxyBalance => b"proxy.balance",
        }
    }

    /// Its number among `KEYS`.
    pub(crate) fn row(self) -> usize
        ensures row { result ≡ spec.row self }
        ensures within { result < 16 }
    {
        match self {
            Key::DocumentRoot => 0,
            Key::Port => 1,
            Key::Bind => 2,
            Key::Modules => 3,
            Key::Tag => 4,
            Key::MaxRequestSize => 5,
            Key::MaxKeepAliveRequests => 6,
            Key::IndexFileNames => 7,
            Key::MimetypeAssign => 8,
            Key::ExcludeExtensions => 9,
            Key::RewriteOnce => 10,
            Key::RewriteRepeat => 11,
            Key::FastcgiServer => 12,
            Key::FastcgiBalance => 13,
            Key::ProxyServer => 14,
            Key::ProxyBalance => 15,
        }
    }

    /// Whether it counts in the global block alone.
    pub fn is_global(self) -> bool
        ensures { result ≡ spec.is_global self }
    {
        matches!(self, Key::Port | Key::Bind | Key::Modules)
    }
}

/// The key of this name.
#[tactic(auto, unfolding(crate::specs::Keys::key_of))]
pub fn key_of(name: &[u8]) -> Option<Key>
    ensures { result ≡ spec.key_of name.now }
{
    key_among(KEYS.as_slice(), name)
}

fn key_among(keys: &[Key], name: &[u8]) -> Option<Key>
    ensures { result ≡ spec.key_among keys.now name.now }
{
    for key in keys {
        if key.name() == name {
            return Some(*key);
        }
    }
    None
}

/// Whether the key's value is a list of rules, each with a pattern.
pub fn is_rule_list(key: &[u8]) -> bool
    ensures { result ≡ spec.is_rule_list key.now }
{
    key == b"url.rewrite-once".as_slice() || key == b"url.rewrite-repeat".as_slice()
}
