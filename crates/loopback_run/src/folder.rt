//! The folder of a run, and the files in it.
use crate::replies::{LARGE, SMALL, content};
use anyhow::Result;
use std::fs::OpenOptions;
use std::time::UNIX_EPOCH;
use std::{env, fs, process};

/// A folder under the system's folder for temporary files. No other run has it: its name has the number of the process
/// and the port.
#[derive(Drop)]
pub struct Folder {
    path: String,
}

impl Folder {
    /// Makes the folder, with nothing in it.
    pub fn make(rt: &HostRuntime, port: u16) -> Result<Folder> {
        let base = env::temp_dir(rt)?;
        let base = base.as_path().as_str();
        let id = process::id(rt.process());
        let path = format!(in rt.alloc(); "{base}/loopback_run.{id}.{port}")?;
        fs::create_dir(rt, path.as_str())?;
        Ok(Folder { path })
    }

    pub fn path(&self) -> &str {
        self.path.as_str()
    }

    /// Writes the two files that the client asks for, as of the first second of 1970, which their replies tell.
    pub fn fill(&self, rt: &HostRuntime) -> Result<()> {
        let folder = self.path.as_str();
        for (name, size) in [("small", SMALL), ("large", LARGE)] {
            let path = format!(in rt.alloc(); "{folder}/{name}")?;
            let bytes = content(rt.alloc(), size)?;
            fs::write(rt, path.as_str(), bytes.bytes())?;
            let file = OpenOptions::new().write(true).open(rt, path.as_str())?;
            file.set_modified(UNIX_EPOCH)?;
        }
        Ok(())
    }
}
