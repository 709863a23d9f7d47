//! A client of the table.
ghost use Rattle.std.specs.Prelude.{◌≡◌, ◌<◌, ◌^◌, length, IfOk, IfErr};
ghost use Rattle.std.specs.Borrow.{sem};

use connection::Conn;
use lt_world::Link;
use std::alloc::Global;
use std::marker::Model;

/// A connection in memory of its own: where a client is taken out, only pointers move in the table.
pub(crate) struct Client {
    conn: Box<Conn>,
}

impl Model for Client {
    ghost use Rattle.connection.specs.Connection.{Connected};

    ghost Value = { Connected };

    ghost view = { λ c. c.conn.value };
}

impl Client {
    ghost use Rattle.server_core.specs.Client.{LendsConn};

    /// Without memory the connection is given back.
    pub(crate) fn new(alloc: Global, conn: Conn) -> Result<Client, Conn>
        ensures ok { IfOk result (λ client. client ≡ conn) }
        ensures err { IfErr result (λ back. back ≡ conn) }
    {
        match Box::new(alloc, conn) {
            Ok(conn) => Ok(Client { conn }),
            Err(failed) => Err(failed.value),
        }
    }

    pub(crate) fn link(&self) -> Link
        ensures link { result.0 ≡ self.now.held.link }
    {
        self.conn.link()
    }

    /// How many buffers it holds.
    pub(crate) fn nodes(&self) -> u64
        requires countable { length self.now.numbers < 2 ^ 64 }
        ensures nodes { result ≡ length self.now.numbers }
    {
        self.conn.nodes()
    }

    pub(crate) fn conn_mut(&mut self) -> &mut Conn
        ensures* writes_back { sem 𝓛 (LendsConn self.entry result) }
        ensures value { result.now ≡ self.old }
    {
        &mut self.conn
    }

    /// Puts a connection in the place of the one that is there, and answers that one.
    pub(crate) fn put(&mut self, conn: Conn) -> Conn
        ensures new { self.new ≡ conn }
        ensures old { result ≡ self.old }
    {
        Box::replace(&mut self.conn, conn)
    }

    pub(crate) fn into_conn(self) -> Conn
        ensures { result ≡ self }
    {
        let Client { conn } = self;
        Box::into_inner(conn)
    }
}
