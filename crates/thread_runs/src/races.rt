//! Races of two CPUs, each in a thread. In two of them CPU 1 asks 500 times for more than the limit of `/a`, so that
//! all stocks are drained and the units of `/a` are tried. Meanwhile CPU 2 makes 500 rounds of its own. In the third
//! both refer to one unit.

use crate::gates::BothThreads;
use crate::systems::{TWO_CPUS, ThreadAnswers, add, events_text, expect_true, run_script};
use std::process::Abort;
use std::str;
use std::sync::Wait;
use std::thread::Threads;

// Four rounds of both CPUs: CPU 2 takes a frame and releases it, to the end of its list of four.
const FOUR_TAKES: &str = "\
1 alloc /a 4
2 alloc /a 0
2 release 0
1 alloc /a 4
2 alloc /a 0
2 release 1
1 alloc /a 4
2 alloc /a 0
2 release 2
1 alloc /a 4
2 alloc /a 0
2 release 3
";

// Four rounds of both CPUs: CPU 2 takes a reference on frame 0 if it can, and puts it.
const FOUR_REFERENCES: &str = "\
1 alloc /a 4
2 get 0
2 put 0
1 alloc /a 4
2 get 0
2 put 0
1 alloc /a 4
2 get 0
2 put 0
1 alloc /a 4
2 get 0
2 put 0
";

// Four rounds of both CPUs: each takes a reference on frame 0 if it can, and puts it.
const FOUR_BY_BOTH: &str = "\
1 get 0
1 put 0
1 get 0
1 put 0
1 get 0
1 put 0
1 get 0
1 put 0
2 get 0
2 put 0
2 get 0
2 put 0
2 get 0
2 put 0
2 get 0
2 put 0
";

// The script whose threads make 500 rounds after these first lines.
fn race_script(rt: &(impl Abort + AllocGlobal), first: &str, four_rounds: &str) -> String {
    let mut script = String::new(rt.alloc());
    add(rt, &mut script, &[first, "go\n"]);
    for _ in 0..125 {
        add(rt, &mut script, &[four_rounds]);
    }
    script
}

// The answers of both threads to their rounds, which begin together, and those to the lines after them.
fn race<R: AllocGlobal + Threads + Wait + Abort + Sync>(
    rt: &R,
    first: &str,
    four_rounds: &str,
    last: &str,
) -> ThreadAnswers {
    let gate = BothThreads::new();
    let script = race_script(rt, first, four_rounds);
    let raced = run_script(rt, TWO_CPUS, script.as_str(), last, &gate);
    expect_true(rt, !gate.thread_was_late());
    raced.expect(rt, "a race")
}

// How many answers of the threads begin with this text.
fn answers_with(rt: &impl Abort, raced: &ThreadAnswers, begin: &str) -> usize {
    let mut count = 0usize;
    for answer in str::from_utf8(&raced.by_threads)
        .expect(rt, "a text")
        .split('\n')
    {
        if answer.starts_with(begin) {
            count = count.wrapping_add(1);
        }
    }
    count
}

// All allocations of CPU 1 were refused, the last lines were answered like this, and all frames are free again.
fn is_refused_and_free(rt: &impl Abort, raced: &ThreadAnswers, last: &str) {
    expect_true(
        rt,
        answers_with(rt, raced, "refused 15 OverLimit /a") == 500,
    );
    expect_true(rt, raced.after_threads.as_slice() == last.as_bytes());
    expect_true(rt, raced.audit.free == 16 && raced.audit.charged == 0);
}

#[test]
fn a_stock_is_consumed_while_it_is_drained(rt: HostRuntime) {
    let first = "1 mkdir /a\n1 write /a memory.max 32K\n";
    let raced = race(&rt, first, FOUR_TAKES, "1 read /a memory.events\n");
    let events = events_text(&rt, [500, 0, 0, 0]);
    is_refused_and_free(&rt, &raced, events.as_str());
    expect_true(&rt, answers_with(&rt, &raced, "refused") == 500);
    expect_true(&rt, answers_with(&rt, &raced, "frame ") == 500);
    expect_true(&rt, raced.audit.freezes == 0 && raced.audit.returns == 500);
    expect_true(
        &rt,
        raced.audit.last_puts.saturating_add(raced.audit.drops) == 500,
    );
}

// No put of CPU 2 is the last, because the zone's own reference is frozen only while it is the only one. If the
// freeze comes between a get's load and its exchange, the get takes no reference and reports that.
#[test]
fn a_unit_is_referred_to_while_it_is_reclaimed(rt: HostRuntime) {
    let first = "1 mkdir /a\n1 write /a memory.max 32K\n1 alloc /a 0\n1 settle\n";
    let last = "1 alloc /a 4\n1 owner 0\n1 read /a memory.events\n";
    let raced = race(&rt, first, FOUR_REFERENCES, last);
    let mut answers = String::new(rt.alloc());
    let events = events_text(&rt, [501, 0, 0, 0]);
    let place = "refused 15 OverLimit /a\nfree\n";
    add(&rt, &mut answers, &[place, events.as_str()]);
    is_refused_and_free(&rt, &raced, answers.as_str());
    let held = answers_with(&rt, &raced, "held");
    expect_true(&rt, answers_with(&rt, &raced, "left 1") == held);
    let unheld = answers_with(&rt, &raced, "refused 21 NotPinned");
    expect_true(&rt, held.wrapping_add(unheld) == 500);
    expect_true(&rt, raced.audit.freezes == 1 && raced.audit.returns == 1);
    expect_true(&rt, raced.audit.last_puts == 0 && raced.audit.drops == 0);
}

// No put is the last, because the zone has a reference too. Once all are put, its freeze succeeds and returns the
// unit.
#[test]
fn two_cpus_refer_to_one_unit(rt: HostRuntime) {
    let first = "1 mkdir /a\n1 alloc /a 0\n1 settle\n";
    let raced = race(&rt, first, FOUR_BY_BOTH, "1 write /a memory.max 0\n");
    expect_true(&rt, raced.after_threads.as_slice() == b"ok\n".as_slice());
    let held = answers_with(&rt, &raced, "held");
    expect_true(&rt, answers_with(&rt, &raced, "left ") == held);
    let unheld = answers_with(&rt, &raced, "refused 21 NotPinned");
    expect_true(&rt, held.wrapping_add(unheld) == 1_000);
    expect_true(&rt, raced.audit.freezes == 1 && raced.audit.returns == 1);
}
