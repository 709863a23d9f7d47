//! A server of a folder, and a client of it.
ghost use Rattle.std.specs.Prelude.{◌≡◌, IfOk};
ghost use Rattle.settings.specs.InForm.{IsInForm};
ghost use Rattle.conf_eval.specs.Patterns.{ArePatterns};
ghost use Rattle.server_model.specs.Files.{IsTable, Backs};

use crate::client::{Bell, Client};
use crate::folder::Folder;
use crate::replies::REQUESTS;
use crate::turns::{Finish, serve};
use anyhow::{Result, bail};
use conditions::RegexMaker;
use conf_eval::{Loaded, load};
use files_disk::DiskFiles;
use lt_bytes::Text;
use lt_commands::server_of;
use lt_world::{Files, MemTexts, Waits};
use mio_net::MioNet;
use server_core::Server;
use std::marker::Brand;
use std::sync::ledger::Blank;
use std::time::Clock;

/// The name under which the configuration is loaded.
const CONF: &[u8] = b"loopback.conf";

// A configuration whose document root is the folder.
fn configuration(rt: &HostRuntime, folder: &Folder) -> Result<Loaded>
    ensures form { IfOk result (λ loaded. IsInForm loaded.config) }
    ensures patterns { IfOk result (λ loaded. ArePatterns loaded.config.blocks loaded.patterns) }
{
    let alloc = rt.alloc();
    let path = folder.path();
    let text = format!(in alloc; "server.document-root = \"{path}\"\n")?;
    let mut texts = MemTexts::new(alloc);
    texts.add(CONF, text.as_bytes())?;
    match load(alloc, CONF, &mut texts, &mut RegexMaker::new(alloc)) {
        Ok(loaded) => Ok(loaded),
        Err(_) => bail!("the configuration is none"),
    }
}

// Takes turns, until the server has ended the client's connection. Nobody asks how many conditions were compared.
fn serve_to_the_end<R: Clock, N: Waits, F: Files>(
    rt: &R,
    server: &mut Server<'_>,
    net: &mut N,
    files: &mut F,
    client: &mut Client<'_>,
    bell: &mut Bell,
) -> Finish
    requires table { IsTable (N.links net.old) server.old.table }
    requires backs { F.tells → Backs (F.disk files.old).table server.old.table }
    ensures backs { F.tells → Backs (F.disk files.new).table server.new.table }
{
    serve::<R, N, F, Brand>(Blank::new(1), rt, server, net, files, client, bell)
}

/// Serves a client that sends the two requests, until its connection ends. All that it got.
pub fn exchange(
    rt: &HostRuntime,
    folder: &Folder,
    net: &mut MioNet<&HostRuntime>,
    port: u16,
) -> Result<Text> {
    let loaded = configuration(rt, folder)?;
    let Some(mut client) = Client::connect(rt, rt.alloc(), port, REQUESTS) else {
        bail!("cannot connect");
    };
    let Some(mut bell) = Bell::connect(rt, port) else {
        bail!("cannot connect");
    };
    let mut files = DiskFiles::new(rt);
    let mut server = server_of(rt.alloc(), &loaded)?;
    let finish = serve_to_the_end(rt, &mut server, net, &mut files, &mut client, &mut bell);
    server.close(&mut files);
    match finish {
        Finish::Ended => Ok(client.into_got()),
        Finish::NoMemory => bail!("out of memory"),
        Finish::WaitFault => bail!("cannot wait"),
        Finish::Stuck => bail!("the connection did not end"),
    }
}
