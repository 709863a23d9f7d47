//! The server of a configuration that was loaded.
ghost use Rattle.std.specs.Prelude.{◌≡◌, ℕ, [], None, IfOk};
ghost use Rattle.lt_world.specs.Disk.{Disk};
ghost use Rattle.settings.specs.InForm.{IsInForm};
ghost use Rattle.conf_eval.specs.Patterns.{ArePatterns};
ghost use Rattle.server_model.specs.Files.{IsTable, Backs};
ghost use Rattle.server_model.specs.Serves.{Serves};
ghost use Rattle.server_model.specs.Site.{site_at};
ghost use Rattle.server_core.specs.Within.{serving_at};

use conf_eval::{Loaded, matchers};
use lt_bytes::NoMemory;
use server_core::Server;
use std::alloc::Global;

/// A server by a configuration that was loaded and its patterns, with no client.
pub fn server_of(alloc: Global, loaded: &Loaded) -> Result<Server<'_>, NoMemory>
    requires form { IsInForm loaded.now.config }
    requires patterns { ArePatterns loaded.now.config.blocks loaded.now.patterns }
    ensures site { IfOk result (λ server. server.site ≡ site_at loaded.now.config.blocks) }
    ensures table { IfOk result (λ server. (links : ℕ) → IsTable links server.table) }
    ensures backs { IfOk result (λ server. (disk : Disk) → Backs disk.table server.table) }
    ensures serves { IfOk result (λ server. (disk : Disk) → disk.calls ≡ [] → ((file : ℕ) → disk.table file ≡ None) → Serves disk (serving_at server) []) }
{
    let matchers = matchers(alloc, &loaded.patterns)?;
    Server::new(alloc, &loaded.config, matchers)
}
