// The world of a run, and what a run leaves.
ghost use Rattle.std.specs.Prelude.{◌≡◌, ◌<◌};

use crate::words::words_of;
use intos_run::{Ended, run};
use nv_memory::SimNv;
use outer_world::{MemFile, MemFiles, MemSink};
use std::alloc::{AllocError, Global};
use std::marker::Brand;
use std::process::Abort;
use std::sync::ledger::{Blank, Ledger};
use step_counter::Steps;

/// The program of the two prints `a` and `b`.
pub const TWO_PRINTS: &[u8] =
    b"thread t() priority 1 {\nprint \"a\";\nprint \"b\";\n}\nstart t();\n";

/// The bytes that the sink has room for, more than any report here has.
const ROOM: u32 = 65_536;

/// The world of a run: its words, its only file, and the calls that fail, counted from 1.
#[derive(Clone, Copy)]
pub struct World<'a> {
    /// The words, with a space between each two.
    pub line: &'a str,
    /// The bytes of the file `p`.
    pub program: &'a [u8],
    /// The readings that fail.
    pub failing_readings: &'a [u32],
    /// The puts that fail.
    pub failing_puts: &'a [u32],
}

impl<'a> World<'a> {
    /// A world in which nothing fails.
    pub fn of(line: &'a str, program: &'a [u8]) -> World<'a> {
        World {
            line,
            program,
            failing_readings: &[],
            failing_puts: &[],
        }
    }
}

/// The file `p` of a world.
fn files_of(alloc: Global, world: &World) -> Result<MemFiles, AllocError> {
    let name = String::from_str(alloc, "p")?;
    let mut files = Vec::new(alloc);
    files.push(MemFile::new(name, world.program.to_vec(alloc)?))?;
    Ok(MemFiles::new(files, world.failing_readings.to_vec(alloc)?))
}

/// Runs words on a blank device, with a counter on this ledger.
fn run_counted<L: Ledger>(
    rt: &impl Abort,
    alloc: Global,
    words: &Vec<String>,
    files: &mut MemFiles,
    sink: &mut MemSink,
    blank: Blank,
) -> Ended<SimNv>
    requires name { blank.name ≡ L.name }
    requires parts { blank.parts ≡ L.parts }
    requires some { 0 < L.parts }
{
    let nv = SimNv::blank(alloc).expect(rt, "no memory");
    let mut steps = Steps::<L>::of(blank);
    run(alloc, words, files, sink, nv, &mut steps)
}

/// Runs in a world, and compares the status with which the run ends and all that it writes. What it leaves is the device.
pub fn device_left_by(
    rt: &impl Abort,
    alloc: Global,
    world: &World,
    status: u8,
    told: &str,
) -> SimNv {
    let words = words_of(alloc, world.line).expect(rt, "no memory");
    let mut files = files_of(alloc, world).expect(rt, "no memory");
    let failing = world.failing_puts.to_vec(alloc).expect(rt, "no memory");
    let mut sink = MemSink::new(alloc, ROOM, failing).expect(rt, "no memory");
    let blank = Blank::new(1);
    let Ended { status, nv } = run_counted::<Brand>(
        rt, alloc, &words, &mut files, &mut sink, blank,
    );
    let found = (status, sink.bytes());
    assert_eq!(rt; found, (status, told.as_bytes()), "at {}", world.line);
    nv
}
