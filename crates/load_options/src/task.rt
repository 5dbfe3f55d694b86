//! What the words of the command line ask for, read from clap's matches.

ghost use Rattle.std.specs.Prelude.{◌≡◌, ◌≤◌, IfSome, codes, option_and_then};
ghost use Rattle.clap.specs.Words.{found_of, rows_of, subcommand_rows_of};
ghost use Rattle.load_options.specs.Sizes.{HasSizesInRange};
ghost use Rattle.zone_blocks.specs.Config.{AreValidChoices};
ghost use Rattle.load_options.specs.Words.{answering_task, bare_options, choices_in, has_other_flag, has_task_flag};
ghost use Rattle.load_options.specs.Words.{is_given, number_kept};
ghost use Rattle.load_options.specs.Words.{options_under, replay_task_in, script_options_under, size_in, sizes_in};
ghost use Rattle.load_options.specs.Words.{serve_task_in, task_in};
ghost use Rattle.load_options.specs.declared.task.Task.TheVariants.{Check};

use clap::ArgMatches;
use zone_blocks::choices::Choices;
use zone_blocks::config::Config;

/// What the program does with its input, with the options of this task alone.
#[derive(Clone, Copy, PartialEq, Eq)]
pub enum Task {
    /// The lines run one after another.
    Replay {
        /// Whether a refusal, and what a command drained, reclaimed and killed, is explained after its answer.
        is_explained: bool,
        /// Whether each step is checked against the rules.
        is_checked: bool,
    },
    /// The lines run one after another, and a log is written in place of the answers: each line with its steps, and
    /// with its answer as a comment.
    Steps,
    /// The lines from `go` on run in one thread for each CPU.
    Run,
    /// The input is a log, which is checked.
    Check {
        /// Whether each step that isn't legal is named, and not the first alone.
        is_all: bool,
    },
    /// The bad lines of the script are reported.
    Lint,
    /// Each line is answered before the next one is read.
    Serve {
        /// Whether a refusal, and what a command drained, reclaimed and killed, is explained after its answer.
        is_explained: bool,
    },
    /// For each line its part of a log is written before the next one is read.
    ServeSteps,
    /// The input isn't read, and the program's version is written.
    Version,
}

/// What the words of the command line ask for.
#[derive(Clone, Copy, PartialEq, Eq)]
pub struct Options {
    /// What to do with the input.
    pub task: Task,
    /// The sizes of the boot. `Check` and `Version` boot nothing, and have the default sizes of the other tasks.
    pub sizes: Config,
    /// Whether to report the end: the pins that are still held, and the counts.
    pub is_audited: bool,
    /// Whether each line of an answer begins with the number of its script line.
    pub is_numbered: bool,
    /// Whether a refusal among the answers shows in the status.
    pub is_strict: bool,
}

const DEFAULT_SIZES: Config = Config {
    frames: 16,
    cpus: 2,
    batch: 4,
    high: 8,
    stock: 4,
    choices: Choices::NONE,
};

// `--version` takes no options.
pub(crate) const VERSION_OPTIONS: Options = Options {
    task: Task::Version,
    sizes: DEFAULT_SIZES,
    is_audited: false,
    is_numbered: false,
    is_strict: false,
};

// The options, if there is a subcommand of the program, each size has a value in its range, and the flags go together.
pub(crate) fn read_options(found: &ArgMatches<'_>) -> Option<Options>
    ensures asked { result ≡ option_and_then (λ p. options_under p.0 p.1) (subcommand_rows_of found.now) }
    ensures in_range { IfSome result (λ o. HasSizesInRange o.sizes) }
{
    let (name, given) = found.subcommand()?;
    if name == "check" {
        Some(check_options(given))
    } else {
        script_options(name, given)
    }
}

// The options of `check`, which takes no sizes.
fn check_options(given: &ArgMatches<'_>) -> Options
    ensures { result ≡ bare_options (Check (is_given (codes "all") (rows_of (found_of given.now)))) }
{
    Options {
        task: Task::Check {
            is_all: is_set(given, "all"),
        },
        ..VERSION_OPTIONS
    }
}

// The options of a task on a script.
fn script_options(name: &str, given: &ArgMatches<'_>) -> Option<Options>
    ensures asked { result ≡ script_options_under name.now (rows_of (found_of given.now)) }
    ensures in_range { IfSome result (λ o. HasSizesInRange o.sizes) }
{
    let task = named_task(name, given)?;
    let sizes = sizes(given)?;
    let is_audited = is_set(given, "audit");
    let is_numbered = is_set(given, "numbered");
    let is_strict = is_set(given, "strict");
    Some(Options {
        task,
        sizes,
        is_audited,
        is_numbered,
        is_strict,
    })
}

// The task on a script that has this name, with its own options.
fn named_task(name: &str, given: &ArgMatches<'_>) -> Option<Task>
    ensures { result ≡ task_in name.now (rows_of (found_of given.now)) }
{
    if name == "replay" {
        replay_task(given)
    } else if name == "run" {
        Some(Task::Run)
    } else if name == "lint" {
        Some(Task::Lint)
    } else if name == "serve" {
        serve_task(given)
    } else {
        None
    }
}

// The task of `replay`. `--steps` goes with no other flag.
fn replay_task(given: &ArgMatches<'_>) -> Option<Task>
    ensures { result ≡ replay_task_in (rows_of (found_of given.now)) }
{
    if !is_set(given, "steps") {
        Some(answering_task(given))
    } else if has_other_flag(given) {
        None
    } else {
        Some(Task::Steps)
    }
}

// The task of `serve`. `--steps` goes with no other flag.
fn serve_task(given: &ArgMatches<'_>) -> Option<Task>
    ensures { result ≡ serve_task_in (rows_of (found_of given.now)) }
{
    let is_explained = is_set(given, "explain");
    if !is_set(given, "steps") {
        Some(Task::Serve { is_explained })
    } else if is_explained || is_set(given, "audit") {
        None
    } else {
        Some(Task::ServeSteps)
    }
}

// The task of `replay` that writes the answers.
fn answering_task(given: &ArgMatches<'_>) -> Task
    ensures { result ≡ answering_task (rows_of (found_of given.now)) }
{
    let is_explained = is_set(given, "explain");
    let is_checked = is_set(given, "check");
    Task::Replay {
        is_explained,
        is_checked,
    }
}

// Whether a flag of `replay` is given besides `--steps`.
fn has_other_flag(given: &ArgMatches<'_>) -> bool
    ensures { result ≡ has_other_flag (rows_of (found_of given.now)) }
{
    is_set(given, "explain") || is_set(given, "check") || has_task_flag(given)
}

// Whether a flag is given that both `replay` and `run` have.
fn has_task_flag(given: &ArgMatches<'_>) -> bool
    ensures { result ≡ has_task_flag (rows_of (found_of given.now)) }
{
    is_set(given, "audit") || is_set(given, "numbered") || is_set(given, "strict")
}

fn sizes(given: &ArgMatches<'_>) -> Option<Config>
    ensures asked { result ≡ sizes_in (rows_of (found_of given.now)) }
    ensures in_range { IfSome result HasSizesInRange }
{
    Some(Config {
        frames: size(given, "frames", Config::MAX_FRAMES)?,
        cpus: size(given, "cpus", Config::MAX_CPUS)?,
        batch: size(given, "batch", Config::MAX_BATCH)?,
        high: size(given, "high", Config::MAX_HIGH)?,
        stock: size(given, "stock", Config::MAX_STOCK)?,
        choices: choices(given)?,
    })
}

// How the zone reclaims, whether it kills, and its room for groups.
fn choices(given: &ArgMatches<'_>) -> Option<Choices>
    ensures asked { result ≡ choices_in (rows_of (found_of given.now)) }
    ensures in_range { IfSome result AreValidChoices }
{
    Some(Choices {
        is_proportional: is_set(given, "proportional"),
        is_no_kill: is_set(given, "no-kill"),
        reclaim_batch: size(given, "reclaim-batch", Choices::MAX_RECLAIM_BATCH)?,
        groups: size(given, "groups", Choices::MAX_GROUPS)?,
    })
}

fn is_set(given: &ArgMatches<'_>, name: &str) -> bool
    ensures { result ≡ is_given name.now (rows_of (found_of given.now)) }
{
    given.get_one::<bool>(name).unwrap_or(false)
}

// The value of this option, if it is from 1 to `most`.
fn size(given: &ArgMatches<'_>, name: &str, most: u32) -> Option<u32>
    ensures asked { result ≡ size_in name.now most (rows_of (found_of given.now)) }
    ensures in_range { IfSome result (λ size. (1 ≤ size) × (size ≤ most)) }
{
    let size = given.get_one::<u32>(name)?;
    in_range(size, most)
}

fn in_range(number: u32, most: u32) -> Option<u32>
    ensures kept { result ≡ number_kept most number }
    ensures in_range { IfSome result (λ number. (1 ≤ number) × (number ≤ most)) }
{
    if number < 1 || most < number {
        None
    } else {
        Some(number)
    }
}
