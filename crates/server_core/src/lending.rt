//! What is asked for a client: where it came from.
ghost use Rattle.std.specs.Prelude.{◌≡◌};
ghost use Rattle.request_plan.specs.Lent.{came};
ghost use Rattle.server_model.specs.Held.{arrival_of};

use connection::Conn;
use request_plan::Arrival;

/// Where the client came from.
pub(crate) fn arrival(conn: &Conn) -> Arrival
    ensures arrival { came result ≡ arrival_of conn.now.held }
{
    Arrival {
        peer: conn.peer(),
        local: conn.local(),
    }
}
