//! Serves a client over a socket of the system, out of files of the system, and holds the bytes that it got against
//! the replies that it must get. All is one thread: the server takes turns, and where nothing is ready the client,
//! whose socket does not block, sends and takes what it can.
//! The files lie in a folder of the run's own, which is removed at the end; the port is one that the system chooses. So
//! runs beside each other do not meet.
#![tactic(auto)]

mod client;
mod exchange;
mod folder;
mod replies;
mod turns;

use crate::exchange::exchange;
use crate::folder::Folder;
use crate::replies::{first_difference, replies};
use anyhow::{Result, bail};
use lt_bytes::Text;
use lt_world::{Address, Waits};
use mio_net::MioNet;
use std::fs;

/// Where it listens: at a port that the system chooses.
const HERE: Address = Address {
    ip: [127, 0, 0, 1],
    port: 0,
};

/// Serves the files of the folder, and answers what the client got.
fn serve_folder(
    rt: &HostRuntime,
    folder: &Folder,
    net: &mut MioNet<&HostRuntime>,
    port: u16,
) -> Result<Text> {
    folder.fill(rt)?;
    exchange(rt, folder, net, port)
}

fn main(rt: HostRuntime) -> Result<()> {
    let Ok(mut net) = MioNet::new(&rt) else {
        bail!("out of memory");
    };
    if net.listen(HERE).is_err() {
        bail!("cannot listen");
    }
    let Some(port) = net.port() else {
        bail!("no port");
    };
    let folder = Folder::make(&rt, port)?;
    let got = serve_folder(&rt, &folder, &mut net, port);
    fs::remove_dir_all(&rt, folder.path())?;
    let got = got?;
    let wanted = replies(rt.alloc())?;
    if let Some(place) = first_difference(got.bytes(), wanted.bytes()) {
        let len = got.bytes().len();
        let all = wanted.bytes().len();
        bail!("of {all} bytes that the client must get it got {len}, and byte {place} is another");
    }
    println!(rt; "a client over a real socket got its replies, byte for byte")?;
    Ok(())
}
