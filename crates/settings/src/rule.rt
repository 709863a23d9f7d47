//! What a key wants of its value.

/// The kind of a value, and its rule.
#[derive(Clone, Copy, Debug, PartialEq, Eq)]
pub enum Rule {
    Text(TextRule),
    /// A number between these, both included.
    Number(u64, u64),
    /// An array of texts without keys.
    Texts(TextRule),
    /// An array text to text; the rule is that of its values.
    Table(TextRule),
    /// An array of entries, each with its hosts.
    Gateways(PortRule),
    /// How hosts share requests.
    Balance,
}

/// What a text has to be, beside being short.
#[derive(Clone, Copy, Debug, PartialEq, Eq)]
pub enum TextRule {
    Any,
    /// It begins with `/`.
    Absolute,
    /// A dotted IPv4 address.
    Address,
    /// Bytes 32 to 126.
    Visible,
    /// No `/` in it.
    Name,
    /// No `${` and no `%{` in it: other servers read names of variables there.
    Template,
}

/// Whether each host has to say its port.
#[derive(Clone, Copy, Debug, PartialEq, Eq)]
pub enum PortRule {
    Needed,
    Optional,
}
