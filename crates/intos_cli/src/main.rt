//! The program `intos`: runs a program of the kernel on a simulated memory, and writes the report.
#![tactic(auto)]

ghost use Rattle.std.specs.Prelude.{◌≡◌, ◌<◌};

use intos_run::{Ended, run};
use nv_memory::{NoMemory, SimNv};
use outer_world::{DiskFiles, OutSink, Sink};
use std::env::{self, Env};
use std::io::ErrorKind;
use std::marker::Brand;
use std::process::ExitCode;
use std::rt::Files;
use std::sync::ledger::{Blank, Ledger};
use step_counter::Steps;

/// The status where no memory was left before the run began.
const NO_MEMORY: u8 = 7;

/// The words behind the program's name. Arguments that aren't text count as no words.
fn words_of<R: Env + AllocGlobal>(rt: &R) -> Result<Vec<String>, NoMemory> {
    let args = match env::args(rt) {
        Ok(args) => args,
        Err(error) if error.kind() == ErrorKind::InvalidData => return Ok(Vec::new(rt.alloc())),
        Err(_) => return Err(NoMemory),
    };
    match args.skip(1).collect(rt.alloc()) {
        Ok(words) => Ok(words),
        Err(_) => Err(NoMemory),
    }
}

/// Does what the words ask for, and gives the status of that run.
fn status_of<R: Env + Files + Print + AllocGlobal, L: Ledger>(
    rt: &R,
    blank: Blank,
) -> Result<u8, NoMemory>
    requires name { blank.name ≡ L.name }
    requires parts { blank.parts ≡ L.parts }
    requires some { 0 < L.parts }
{
    let words = words_of(rt)?;
    let nv = SimNv::blank(rt.alloc())?;
    let mut files = DiskFiles::new(rt);
    let mut sink = OutSink::new(rt);
    let mut steps = Steps::<L>::of(blank);
    let Ended { status, nv: _ } = run(rt.alloc(), &words, &mut files, &mut sink, nv, &mut steps);
    Ok(status)
}

fn main(rt: HostRuntime) -> ExitCode {
    match status_of::<HostRuntime, Brand>(&rt, Blank::new(1)) {
        Ok(status) => ExitCode::from(status),
        Err(NoMemory) => {
            let _ = OutSink::new(&rt).put(b"no memory\n");
            ExitCode::from(NO_MEMORY)
        }
    }
}
