//! Words of the command line that `options` accepts. `tests/gate/compare-help` has others.

use crate::streams::{expect_row, words_of};
use load_run::{Options, Task, options};
use zone_blocks::choices::Choices;
use zone_blocks::config::Config;

// Good words, separated by single spaces, and what they ask for: the task; frames, CPUs, `batch`, `high` and `stock`;
// and whether the end is audited, lines are numbered, and refusals count.
const GOOD_WORDS: [(&str, Task, [u32; 5], [bool; 3]); 20] = [
    ("replay", PLAIN_REPLAY, [16, 2, 4, 8, 4], PLAIN),
    ("replay --frames=9", PLAIN_REPLAY, [9, 2, 4, 8, 4], PLAIN),
    ("replay --cpus=9", PLAIN_REPLAY, [16, 9, 4, 8, 4], PLAIN),
    ("replay --batch=9", PLAIN_REPLAY, [16, 2, 9, 8, 4], PLAIN),
    ("replay --high=9", PLAIN_REPLAY, [16, 2, 4, 9, 4], PLAIN),
    ("replay --stock=9", PLAIN_REPLAY, [16, 2, 4, 8, 9], PLAIN),
    (
        "replay --frames=1048576 --cpus 64 --batch 64 --high 256 --stock 64 --audit --explain",
        Task::Replay {
            is_explained: true,
            is_checked: false,
        },
        [1_048_576, 64, 64, 256, 64],
        AUDITED,
    ),
    (
        "replay --check",
        Task::Replay {
            is_explained: false,
            is_checked: true,
        },
        [16, 2, 4, 8, 4],
        PLAIN,
    ),
    (
        "replay --frames=40 --cpus=3 --batch=5 --high=12 --stock=7 --audit",
        PLAIN_REPLAY,
        [40, 3, 5, 12, 7],
        AUDITED,
    ),
    (
        "replay --audit --stock +7 --high 012 --batch 5 --cpus 3 --frames 40 --",
        PLAIN_REPLAY,
        [40, 3, 5, 12, 7],
        AUDITED,
    ),
    ("run", Task::Run, [16, 2, 4, 8, 4], PLAIN),
    ("run --audit", Task::Run, [16, 2, 4, 8, 4], AUDITED),
    (
        "run --stock 7 --frames=40 --audit --cpus=3 --high=12 --batch=5",
        Task::Run,
        [40, 3, 5, 12, 7],
        AUDITED,
    ),
    (
        "lint --stock 7 --frames=40 --cpus=3 --high=12 --batch=5",
        Task::Lint,
        [40, 3, 5, 12, 7],
        PLAIN,
    ),
    (
        "replay --strict --numbered --check",
        Task::Replay {
            is_explained: false,
            is_checked: true,
        },
        [16, 2, 4, 8, 4],
        [false, true, true],
    ),
    (
        "run --numbered",
        Task::Run,
        [16, 2, 4, 8, 4],
        [false, true, false],
    ),
    (
        "run --audit --strict",
        Task::Run,
        [16, 2, 4, 8, 4],
        [true, false, true],
    ),
    (
        "replay --steps --cpus=9",
        Task::Steps,
        [16, 9, 4, 8, 4],
        PLAIN,
    ),
    ("--version", Task::Version, [16, 2, 4, 8, 4], PLAIN),
    ("-V", Task::Version, [16, 2, 4, 8, 4], PLAIN),
];

const PLAIN: [bool; 3] = [false, false, false];

const AUDITED: [bool; 3] = [true, false, false];

const PLAIN_REPLAY: Task = Task::Replay {
    is_explained: false,
    is_checked: false,
};

#[test]
fn asks_for_what_the_words_say(rt: HostRuntime) {
    for (words, task, [frames, cpus, batch, high, stock], flags) in GOOD_WORDS {
        let [is_audited, is_numbered, is_strict] = flags;
        let wanted = Options {
            task,
            sizes: Config {
                frames,
                cpus,
                batch,
                high,
                stock,
                choices: Choices::NONE,
            },
            is_audited,
            is_numbered,
            is_strict,
        };
        let asked = options(rt.alloc(), &words_of(&rt, words)).expect(&rt, words);
        expect_row(&rt, asked == wanted, words);
    }
}

#[test]
fn asks_for_the_choices(rt: HostRuntime) {
    let words = "lint --proportional --reclaim-batch 64 --groups 8 --no-kill";
    let wanted = Choices {
        is_proportional: true,
        is_no_kill: true,
        reclaim_batch: 64,
        groups: 8,
    };
    let asked = options(rt.alloc(), &words_of(&rt, words)).expect(&rt, words);
    expect_row(&rt, asked.sizes.choices == wanted, words);
}
