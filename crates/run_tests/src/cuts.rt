// Runs whose boots are cut while they format.
use crate::worlds::{TWO_PRINTS, World, device_left_by};
use std::alloc::Global;
use std::process::Abort;

/// How the report of the two prints ends, behind the number of events of the last boot's end.
const END: &str = "ticks 0\nthread 0 t priority 1 ready\nlist ready 1: 0\nconsole 4\n| a\n| b\n";

/// The report of the two prints where each boot before the last is cut while it formats.
fn report_of(rt: &impl Abort, alloc: Global, last: u32) -> String {
    let mut report = String::new(alloc);
    for boot in 1..last {
        let line = format!(in alloc; "boot {boot} cut in format\n").expect(rt, "no memory");
        report.push_str(&line).expect(rt, "no memory");
    }
    let end = format!(in alloc;
        "boot {last} start at 0 undone 0 replayed 0\nboot {last} thread 0 t:\nboot {last} end at 2\nevents 2\n{END}"
    ).expect(rt, "no memory");
    report.push_str(&end).expect(rt, "no memory");
    report
}

/// The two prints, where so many boots are cut while they format. Each of these left all its words, the first two of
/// them still 0.
fn check_formatting(rt: &impl Abort, alloc: Global, cut: &str, count: usize, last: u32) {
    let cuts = cut.repeat(alloc, count).expect(rt, "no memory");
    let line = format!(in alloc; "run p 2{cuts}").expect(rt, "no memory");
    let report = report_of(rt, alloc, last);
    let world = World::of(&line, TWO_PRINTS);
    let nv = device_left_by(rt, alloc, &world, 0, &report);
    assert_eq!(rt; nv.ends().len(), count);
    for end in nv.ends() {
        assert!(rt; end.len() == 16_384 && end.starts_with(&[0, 0]));
    }
}

#[test]
fn cuts_in_formatting(rt: HostRuntime) {
    let cases = [
        (" 0", 1, 2),
        (" 1", 100, 101),
        (" 16383", 1, 2),
        (" 1", 1_000, 1_001),
    ];
    for (cut, count, last) in cases {
        check_formatting(&rt, rt.alloc(), cut, count, last);
    }
}

#[test]
fn cut_before_the_last_write_of_formatting(rt: HostRuntime) {
    let world = World::of("run p 2 16383", TWO_PRINTS);
    let report = report_of(&rt, rt.alloc(), 2);
    let nv = device_left_by(&rt, rt.alloc(), &world, 0, &report);
    assert_eq!(rt; nv.ends().len(), 1);
    for end in nv.ends() {
        assert_eq!(rt; end.len(), 16_384);
        assert_eq!(rt; (end[0], end[1_152], end[7_810]), (0, 1, 4_094));
    }
}
