//! The requests that each configuration is asked for.

use crate::expected::Asked;
use anyhow::Result;
use std::alloc::Global;

const HOSTS: [&[u8]; 2] = [b"a", b"b"];

const URLS: [&[u8]; 3] = [b"/a", b"/ab", b"/c"];

const QUERIES: [&[u8]; 2] = [b"", b"q"];

const PATHS: [Option<&[u8]>; 3] = [None, Some(b"/srv/a"), Some(b"/srv/ab")];

/// All that can be asked with these hosts, targets and paths: 36 requests.
pub fn all_asked(alloc: Global) -> Result<Vec<Asked>> {
    let mut all = Vec::new(alloc);
    for host in HOSTS {
        for url in URLS {
            for query in QUERIES {
                for path in PATHS {
                    all.push(Asked {
                        host,
                        url,
                        query,
                        path,
                    })?;
                }
            }
        }
    }
    Ok(all)
}
