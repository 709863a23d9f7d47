//! What a server owes each of its clients: definitions, and the laws on them. No code that serves.
//! From the acts on a client's own link, what is served, the tree of files and the calls on files
//! for that client follow its requests, its replies, its stream, what is owed and wanted, and what is
//! due after each event. A server that keeps `Serves` served every client right.
//! Stands on the traces of `lt_world`, the heads of `http_head`, the bodies of `lt_http_body` and the
//! spelling of `http_reply`.
#![tactic(auto)]

mod laws;

pub use laws::{
    bodies_end, client_alone, clients_continue, clients_limited, connections_end, replies_in_order,
    requests_stay, runs_grow, served_right, settings_are_values, starts, stream_stays, worlds_stay,
};
