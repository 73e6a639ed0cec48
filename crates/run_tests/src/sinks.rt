// Runs whose sink fails.
use crate::worlds::{TWO_PRINTS, World, device_left_by};

/// The number that word 0 of a formatted device has.
const MAGIC: u32 = 1_229_870_129;

#[test]
fn a_second_put_fails(rt: HostRuntime) {
    let world = World {
        failing_puts: &[2],
        ..World::of("run p 2", TWO_PRINTS)
    };
    let told = "boot 1 start at 0 undone 0 replayed 0\n";
    let nv = device_left_by(&rt, rt.alloc(), &world, 6, told);
    let words = nv.words();
    assert_eq!(rt; words.len(), 16_384);
    assert_eq!(rt; (words[0], words[1]), (MAGIC, 0));
}

/// A run of five boots: the first is cut as it formats, the second and the fourth in an event, the third as it undoes.
const FIVE_BOOTS: &str = "run p 2 16383 16387 1 2";

/// The lines of its report, each of which is a put.
const LINES: [&str; 18] = [
    "boot 1 cut in format\n",
    "boot 2 start at 0 undone 0 replayed 0\n",
    "boot 2 thread 0 t:\n",
    "boot 2 cut at 0\n",
    "boot 3 cut in undo\n",
    "boot 4 start at 0 undone 1 replayed 0\n",
    "boot 4 thread 0 t:\n",
    "boot 4 cut at 0\n",
    "boot 5 start at 0 undone 0 replayed 0\n",
    "boot 5 thread 0 t:\n",
    "boot 5 end at 2\n",
    "events 2\n",
    "ticks 0\n",
    "thread 0 t priority 1 ready\n",
    "list ready 1: 0\n",
    "console 4\n",
    "| a\n",
    "| b\n",
];

/// Where a put fails, the run has written the lines before it, and nothing else; where none does, all of them.
#[test]
fn a_failing_sink_at_each_put(rt: HostRuntime) {
    let mut told = String::new(rt.alloc());
    for (put, line) in (1..).zip(LINES) {
        let world = World {
            failing_puts: &[put],
            ..World::of(FIVE_BOOTS, TWO_PRINTS)
        };
        let _nv = device_left_by(&rt, rt.alloc(), &world, 6, &told);
        told.push_str(line).expect(&rt, "no memory");
    }
    let world = World::of(FIVE_BOOTS, TWO_PRINTS);
    let _nv = device_left_by(&rt, rt.alloc(), &world, 0, &told);
}
