//! Conditions.

use lt_bytes::Text;

/// The attribute of a request that a condition looks at.
#[derive(Drop)]
pub enum Field {
    /// `$HTTP["host"]`
    Host,
    /// `$HTTP["url"]`
    Url,
    /// `$HTTP["query-string"]`
    Query,
    /// `$HTTP["request-method"]`
    Method,
    /// `$HTTP["scheme"]`
    Scheme,
    /// `$HTTP["user-agent"]`
    UserAgent,
    /// `$HTTP["referer"]`
    Referer,
    /// `$HTTP["cookie"]`
    Cookie,
    /// `$HTTP["remote-ip"]`
    RemoteIp,
    /// `$REQUEST_HEADER["NAME"]`
    Header(Text),
    /// `$SERVER["socket"]`
    Socket,
    /// `$PHYSICAL["path"]`
    Physical,
}

/// How a condition compares.
#[derive(Clone, Copy, Debug, PartialEq, Eq)]
pub enum Op {
    /// `==`
    Equal,
    /// `!=`
    NotEqual,
    /// `=~`
    Match,
    /// `!~`
    NoMatch,
    /// `=^`
    Prefix,
    /// `=$`
    Suffix,
}

/// A condition of a block.
#[derive(Drop)]
pub struct Condition {
    pub field: Field,
    pub op: Op,
    pub text: Text,
    /// The number of the pattern that `text` was made into, for `=~` and `!~` alone.
    pub pattern: Option<u32>,
}
