//! A branch of a chain of blocks, and what it asks of a request.

/// What a branch asks.
#[derive(Clone, Copy, Debug, PartialEq, Eq)]
pub enum Test {
    HostIsA,
    HostIsNotA,
    UrlIsA,
    UrlBeginsWithA,
    QueryIsQ,
    PathIsA,
    PathEndsInB,
    /// Nothing, as a bare `else`.
    Nothing,
}

/// A branch. Those of a configuration stand in the order in which they open.
#[derive(Clone, Copy)]
pub struct Branch {
    /// In how many blocks it stands, the global one counted.
    pub depth: u64,
    /// It is the first of its chain.
    pub begins: bool,
    pub test: Test,
    /// It sets `server.tag`, to a value of its own.
    pub sets: bool,
}

impl Test {
    /// One of those that ask something, by a number.
    pub fn numbered(number: u64) -> Test {
        match number {
            0 => Test::HostIsA,
            1 => Test::HostIsNotA,
            2 => Test::UrlIsA,
            3 => Test::UrlBeginsWithA,
            4 => Test::QueryIsQ,
            5 => Test::PathIsA,
            _ => Test::PathEndsInB,
        }
    }

    /// The condition as a configuration spells it, with a space after it.
    pub fn text(self) -> &'static [u8] {
        match self {
            Test::HostIsA => b"$HTTP[\"host\"] == \"a\" ",
            Test::HostIsNotA => b"$HTTP[\"host\"] != \"a\" ",
            Test::UrlIsA => b"$HTTP[\"url\"] == \"/a\" ",
            Test::UrlBeginsWithA => b"$HTTP[\"url\"] =~ \"^/a\" ",
            Test::QueryIsQ => b"$HTTP[\"query-string\"] == \"q\" ",
            Test::PathIsA => b"$PHYSICAL[\"path\"] == \"/srv/a\" ",
            Test::PathEndsInB => b"$PHYSICAL[\"path\"] =$ \"b\" ",
            Test::Nothing => b"",
        }
    }
}
