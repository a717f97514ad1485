//! A script of one list, which is carried out alone.

use crate::judge::{Done, Runtime, refused, room};
use crate::lists::Watch;
use anyhow::Result;
use std::alloc::AllocError;
use topo_io::RunFault;
use topo_io::reading::CountedReader;
use topo_run::run_io;

/// Two growths, an insertion that crosses an edge, one that is refused, and a deletion.
const SCRIPT: &str = concat!(
    "{\"version\":1,\"workers\":[[[\"grow\",0,0,0],[\"grow\",1,0,0],[\"insert\",2,3,0],",
    "[\"planned\",0,0,1],[\"delete\",0]]]}"
);

/// Carries a script out.
fn run_script<R: Runtime>(rt: &R, watch: &Watch, told: &mut String) -> Done {
    told.push_str("run_io")?;
    watch.begin();
    let mut written = Vec::new(rt.alloc());
    let mut reader = CountedReader::new(SCRIPT.as_bytes());
    match run_io(rt, rt.alloc(), &mut reader, &mut written, watch) {
        Ok(()) => write!(told, ": {} bytes", written.len()),
        Err(RunFault::Memory | RunFault::WriteFault) => Err(AllocError),
        Err(fault) => write!(told, ": {fault}"),
    }
}

/// Judges the script as a call: each command that was seen to begin has to be seen to end.
pub(crate) fn judge_script<R: Runtime>(rt: &R) -> Result<()> {
    let (watch, mut told) = (Watch::new(), room(rt)?);
    if run_script(rt, &watch, &mut told).is_err() {
        let after = if watch.ended().is_some() {
            "ended"
        } else {
            "not ended"
        };
        refused(rt, &mut told, "ended", after)?;
        run_script(rt, &watch, &mut told)?;
    }
    Ok(println!(rt; "{told}")?)
}
