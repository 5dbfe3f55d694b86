//! Scripts whose lines run in one thread for each CPU.

use crate::gates::GateCall::{After, Before, Inside};
use crate::gates::{GateCall, HeldVisit, LineTurns, NotedCalls};
use crate::systems::{TWO_CPUS, add, events_text, expect_answers, expect_true, run_script};
use mem_system::Audit;

// CPU 1 is inside the visit of its line while CPU 2 is answered all of its lines.
const BESIDE_A_VISIT: &str = "\
1 mkdir /a
2 alloc /a 0
2 settle
go
1 settle
2 get 0
2 put 0
2 fast 1
";

#[test]
fn a_cpu_goes_on_while_another_is_inside(rt: HostRuntime) {
    let gate = HeldVisit::until(3);
    let told = run_script(&rt, TWO_CPUS, BESIDE_A_VISIT, "1 release 0\n", &gate);
    let told = told.expect(&rt, "a run");
    expect_true(&rt, !gate.thread_was_late());
    let answers = "group 1\nframe 0\nsettled\ncpu 1\nsettled\ncpu 2\nheld\nleft 1\nframe 1\n";
    expect_answers(&rt, &told, answers, "returned\n");
    let audit = Audit {
        frames: 16,
        free: 15,
        charged: 1,
        last_puts: 1,
        freezes: 0,
        drops: 0,
        returns: 1,
    };
    expect_true(&rt, told.audit == audit);
}

// CPU 1 is inside the visit of its release, which isn't served yet, while CPU 2 is answered its line.
const BESIDE_A_RELEASE: &str = "\
1 mkdir /a
1 alloc /a 0
1 settle
go
1 release 0
2 get 0
";

#[test]
fn a_command_is_served_after_the_gate_was_inside(rt: HostRuntime) {
    let gate = HeldVisit::until(1);
    let last = "2 put 0\n2 settle\n1 owner 0\n";
    let told = run_script(&rt, TWO_CPUS, BESIDE_A_RELEASE, last, &gate);
    let told = told.expect(&rt, "a run");
    expect_true(&rt, !gate.thread_was_late());
    let answers = "group 1\nframe 0\nsettled\ncpu 1\nleft 1\ncpu 2\nheld\n";
    expect_answers(&rt, &told, answers, "last\nsettled\nfree\n");
}

// Lines 5 to 8 of CPU 1 and 9 to 17 of CPU 2, some of which need no visit.
const VISITED_AND_NOT: &str = "\
1 mkdir /a
2 alloc /a 0
2 settle
go
1 mkdir /a/b
1 alloc /a 0
1 alloc /a 0
1 alloc /a 1
2 release 0
2 get 15
2 fast 63
2 write /a memory.max max
2 read /a memory.max
2 touch 15
2 owner 15
2 settle
2 put 15
";

const CALLS_BY_FIRST: [GateCall; 11] = [
    Before { line: 5 },
    Inside,
    After { line: 5 },
    Before { line: 6 },
    Inside,
    After { line: 6 },
    Before { line: 7 },
    After { line: 7 },
    Before { line: 8 },
    Inside,
    After { line: 8 },
];

const CALLS_BY_SECOND: [GateCall; 24] = [
    Before { line: 9 },
    Inside,
    After { line: 9 },
    Before { line: 10 },
    After { line: 10 },
    Before { line: 11 },
    After { line: 11 },
    Before { line: 12 },
    Inside,
    After { line: 12 },
    Before { line: 13 },
    Inside,
    After { line: 13 },
    Before { line: 14 },
    Inside,
    After { line: 14 },
    Before { line: 15 },
    Inside,
    After { line: 15 },
    Before { line: 16 },
    Inside,
    After { line: 16 },
    Before { line: 17 },
    After { line: 17 },
];

#[test]
fn a_gate_is_called_around_each_line_and_inside_each_visit(rt: HostRuntime) {
    let gate = NotedCalls::new(rt.alloc()).expect(&rt, "memory");
    let told = run_script(&rt, TWO_CPUS, VISITED_AND_NOT, "", &gate);
    expect_true(&rt, told.is_some());
    expect_true(&rt, gate.are(&CALLS_BY_FIRST, &CALLS_BY_SECOND));
}

// CPU 1 kills the group of a frame while CPU 2 has a reference on the frame.
const KILL_BESIDE_A_PIN: &str = "\
1 mkdir /a
1 mkdir /a/b
1 write /a memory.max 4096
1 alloc /a/b 0
1 settle
# lines 8 to 14
go
1 alloc /a/b 0
1 read /a memory.current
1 read /a memory.events
1 read /a memory.current
2 get 0
2 put 0
2 settle
";

#[test]
fn a_pin_of_another_thread_outlives_a_kill(rt: HostRuntime) {
    let gate = LineTurns::of([12, 8, 13, 9, 10, 14, 11]);
    let told = run_script(&rt, TWO_CPUS, KILL_BESIDE_A_PIN, "1 blocks\n", &gate);
    let told = told.expect(&rt, "a run");
    expect_true(&rt, !gate.thread_was_late());
    let first = "group 1\ngroup 2\nok\nframe 0\nsettled\ncpu 1\nrefused 18 Killed\n4096\n";
    let events = events_text(&rt, [1, 1, 1, 0]);
    let last = "0\ncpu 2\nheld\nlast\nsettled\n";
    let mut answers = String::new(rt.alloc());
    add(&rt, &mut answers, &[first, events.as_str(), last]);
    expect_answers(&rt, &told, answers.as_str(), "0:0 2:4 3:8\n");
}
