//! Parses the words of the command line.

ghost use Rattle.std.specs.Prelude.{◌≡◌, IfOk, codes, false, map, option_and_then, pos};
ghost use Rattle.clap.specs.Simple.{Shape, with_subcommand};
ghost use Rattle.clap.specs.Words.{app_of, kind_of, new_app, subcommand_rows_of};
ghost use Rattle.clap.specs.declared.builder.command.Command.TheViews.{out-Command as fields_of};
ghost use Rattle.clap.specs.declared.builder.value_parser.ValueParser.TheVariants.{Signed};
ghost use Rattle.load_options.specs.Fault.{IsNoMemory};
ghost use Rattle.load_options.specs.Sizes.{HasSizesInRange};
ghost use Rattle.load_options.specs.Words.{GivesOptions, asks_version, bare_program, check_shape, command_shape};
ghost use Rattle.load_options.specs.Words.{flag_rule, options_of, options_under, parsed_options, program, replay_shape};
ghost use Rattle.load_options.specs.Words.{serve_shape, size_rule, sized_shape, with_option, with_options};

use crate::fault::WordsFault;
use crate::task::{Options, VERSION_OPTIONS, read_options};
use clap::builder::ValueParser;
use clap::error::ErrorKind;
use clap::{Arg, ArgAction, ArgMatches, Command, Error, value_parser};
use std::alloc::{AllocError, Global};
use std::convert::AsStr;
use std::rt::Env;
use std::{env, io};
use zone_blocks::choices::Choices;
use zone_blocks::config::Config;

/// The program's version.
pub const VERSION: &str = "0.2.0";

// The help texts of the program, its subcommands and their options.
const MEMCG_HELP: &str = "Charges page frames to the groups of a tree";

const REPLAY_HELP: &str = "Runs the lines of a script, one after the other";

const RUN_HELP: &str =
    "Runs the lines before `go` in the same way, and the later ones in one thread for each CPU";

const CHECK_HELP: &str = "Checks a log of steps: whether each step keeps the rules";

const ALL_HELP: &str =
    "Names each step that isn't legal, up to 1000, and goes on as if it hadn't been made";

const LINT_HELP: &str =
    "Reports each bad line of a script, from which byte on and why, and each line that is refused";

const SERVE_HELP: &str = "Answers each line of its input before it reads the next one";

const FRAMES_HELP: &str = "Frames of the zone, 1 to 1048576";

const CPUS_HELP: &str = "CPUs, 1 to 64";

const BATCH_HELP: &str = "Frames by which a CPU's list is refilled, 1 to 64";

const HIGH_HELP: &str = "Frames at which a CPU's list returns some to the zone, batch to 256";

const STOCK_HELP: &str = "Pages that a CPU charges ahead, 1 to 64";

const RECLAIM_BATCH_HELP: &str =
    "Pages that a round of reclaim wants at least for a charge, 1 to 64";

const GROUPS_HELP: &str = "Groups that may exist at once, the root included, 1 to 1024";

const NO_KILL_HELP: &str = "Kills nobody: a charge without room is refused";

const PROPORTIONAL_HELP: &str =
    "Reclaims from each group in proportion to its clean pages, before all else";

const AUDIT_HELP: &str = "Reports at the end which pins were held, and the counts";

const NUMBERED_HELP: &str = "Begins each line of an answer with the number of its script line";

const STRICT_HELP: &str = "Ends with status 3 if some answer is a refusal";

const EXPLAIN_HELP: &str =
    "Explains after an answer why it is a refusal, and what was drained, reclaimed and killed";

const CHECKED_HELP: &str =
    "Checks each step against the rules, and reports how many steps there were";

const STEPS_HELP: &str =
    "Writes the steps of the lines as a log, with the answers as comments, in place of the answers";

// The options of the sizes: name, help, greatest value and default.
const SIZES: [(&str, &str, u32, &str); 7] = [
    ("frames", FRAMES_HELP, Config::MAX_FRAMES, "16"),
    ("cpus", CPUS_HELP, Config::MAX_CPUS, "2"),
    ("batch", BATCH_HELP, Config::MAX_BATCH, "4"),
    ("high", HIGH_HELP, Config::MAX_HIGH, "8"),
    ("stock", STOCK_HELP, Config::MAX_STOCK, "4"),
    (
        "reclaim-batch",
        RECLAIM_BATCH_HELP,
        Choices::MAX_RECLAIM_BATCH,
        "1",
    ),
    ("groups", GROUPS_HELP, Choices::MAX_GROUPS, "64"),
];

// The options of the choices that have no value, with their help.
const CHOICE_FLAGS: [(&str, &str); 2] = [
    ("no-kill", NO_KILL_HELP),
    ("proportional", PROPORTIONAL_HELP),
];

// The options without a value that both subcommands that answer scripts have, with their help.
const TASK_FLAGS: [(&str, &str); 3] = [
    ("audit", AUDIT_HELP),
    ("numbered", NUMBERED_HELP),
    ("strict", STRICT_HELP),
];

const REPLAY_FLAGS: [(&str, &str); 3] = [
    ("explain", EXPLAIN_HELP),
    ("check", CHECKED_HELP),
    ("steps", STEPS_HELP),
];

const SERVE_FLAGS: [(&str, &str); 3] = [
    ("audit", AUDIT_HELP),
    ("explain", EXPLAIN_HELP),
    ("steps", STEPS_HELP),
];

// Why the words are refused though clap takes each of them.
const STEPS_ALONE: &str =
    "the argument '--steps' cannot be used with '--audit', '--numbered', '--strict', '--explain' \
    or '--check'";

const SERVE_STEPS_ALONE: &str =
    "the argument '--steps' cannot be used with '--audit' or '--explain'";

/// The words of the command line after the program's name. A word that isn't UTF-8 is a fault of the words. It has no
/// contract: no clause can name the words with which a process was started.
pub fn words<R: Env + AllocGlobal>(rt: &R) -> Result<Vec<String>, WordsFault> {
    match env::args(rt) {
        Ok(words) => Ok(words.skip(1).collect(rt.alloc())?),
        Err(error) if error.kind() == io::ErrorKind::OutOfMemory => {
            Err(WordsFault::NoMemory(AllocError))
        }
        Err(_) => {
            let text = "error: a word of the command line is not valid UTF-8\n";
            Err(WordsFault::BadWords(String::from_str(rt.alloc(), text)?))
        }
    }
}

/// Parses the words after the program's name. They are `replay`, `run`, `lint` or `serve`, then any of `--frames`,
/// `--cpus`, `--batch`, `--high`, `--stock`, `--reclaim-batch`, `--groups`, `--no-kill` and `--proportional`. After
/// `replay` and `run` there may also be `--audit`, `--numbered` and `--strict`, and after `replay` `--explain` and
/// `--check`. After `replay` there may be `--steps` instead of these five. After `serve` there may be `--audit` and
/// `--explain`, or `--steps` instead. Each is given at most once. Or the words are `check`, alone or with `--all`, or
/// `--version` or `-V` alone. Anything else is a fault of the words, even a request for help.
///
/// A size is a whole number in its own range: 1 to 1,048,576 frames, 1 to 64 CPUs, batch 1 to 64, high 1 to 256,
/// stock 1 to 64, reclaim-batch 1 to 64, groups 1 to 1,024. `Config::is_valid` requires more: high is at least batch.
/// The defaults are 16, 2, 4, 8, 4, 1 and 64.
pub fn options<S: AsStr>(alloc: Global, words: &[S]) -> Result<Options, WordsFault>
    ensures asked { GivesOptions (options_of (map S.text words.now)) result }
    ensures in_range { IfOk result (λ o. HasSizesInRange o.sizes) }
{
    if is_version(words) {
        return Ok(VERSION_OPTIONS);
    }
    let mut command = memcg(alloc).map_err(WordsFault::NoMemory)?;
    let asked = parse(alloc, &mut command, words);
    drop(command); // A call, because the drop of so large a value is long to check in each place.
    asked
}

// The options that clap reads from the words.
fn parse<'a, S: AsStr>(
    alloc: Global,
    command: &mut Command<'a>,
    words: &'a [S],
) -> Result<Options, WordsFault>
    requires { app_of command.old ≡ program }
    ensures asked { GivesOptions (parsed_options (map S.text words.entry.now)) result }
    ensures in_range { IfOk result (λ o. HasSizesInRange o.sizes) }
{
    match command.try_get_matches_from_mut(words) {
        Ok(found) => {
            let asked = options_found(alloc, command, &found);
            drop(found);
            asked
        }
        Err(error) => Err(words_fault(alloc, &error, command, words)),
    }
}

// The fault for an error of clap at these words. For an option that other subcommands take, clap knows only the options
// of this one, and would name one that looks alike.
fn words_fault<S: AsStr>(
    alloc: Global,
    error: &Error,
    program: &Command<'_>,
    words: &[S],
) -> WordsFault
    ensures { kind_of error.now ≡ ErrorKind.OutOfMemory → IsNoMemory result }
{
    if error.kind() != ErrorKind::UnknownArgument {
        return fault_of(alloc, error);
    }
    match words {
        [name, rest @ ..] => match misplaced(program, name.as_str(), rest) {
            Some(option) => bad_words(misplaced_text(alloc, program, name.as_str(), option)),
            None => fault_of(alloc, error),
        },
        [] => fault_of(alloc, error),
    }
}

// The first of the words that is an option of other subcommands than this one.
fn misplaced<'a, S: AsStr>(program: &Command<'_>, name: &str, words: &'a [S]) -> Option<&'a str> {
    for word in words {
        let option = word.as_str();
        let is_own = program
            .find_subcommand(name)
            .is_some_and(|own| takes(own, option));
        if !is_own
            && program
                .get_subcommands()
                .iter()
                .any(|other| takes(other, option))
        {
            return Some(option);
        }
    }
    None
}

// Whether the subcommand takes the option, which begins with `--`.
fn takes(command: &Command<'_>, option: &str) -> bool {
    match option.strip_prefix("--") {
        Some(long) => command
            .get_arguments()
            .iter()
            .any(|arg| arg.get_long() == Some(long)),
        None => false,
    }
}

// What is said of an option that only other subcommands take, laid out as by clap.
fn misplaced_text(
    alloc: Global,
    program: &Command<'_>,
    name: &str,
    option: &str,
) -> Result<String, AllocError> {
    let takers = takers(alloc, program, option)?;
    format!(in alloc;
        "error: unexpected argument '{option}' found\n\n  tip: only these take it: {takers}\n\n\
        Usage: memcg {name} [OPTIONS]\n\nFor more information, try '--help'.\n"
    )
}

// The names of the subcommands that take the option, with commas between.
fn takers(alloc: Global, program: &Command<'_>, option: &str) -> Result<String, AllocError> {
    let mut names = String::new(alloc);
    for command in program.get_subcommands() {
        if takes(command, option) {
            if !names.is_empty() {
                names.push_str(", ")?;
            }
            names.push_str(command.get_name())?;
        }
    }
    Ok(names)
}

// The fault with this text, if memory was there for it.
fn bad_words(text: Result<String, AllocError>) -> WordsFault {
    match text {
        Ok(text) => WordsFault::BadWords(text),
        Err(error) => WordsFault::NoMemory(error),
    }
}

// The options that clap's matches ask for.
fn options_found(
    alloc: Global,
    command: &mut Command<'_>,
    found: &ArgMatches<'_>,
) -> Result<Options, WordsFault>
    ensures asked { GivesOptions
        (option_and_then (λ p. options_under p.0 p.1) (subcommand_rows_of found.now)) result }
    ensures in_range { IfOk result (λ o. HasSizesInRange o.sizes) }
{
    match read_options(found) {
        Some(options) => Ok(options),
        // Clap takes `--steps` with any other option. Nothing else leads here: clap refuses words without a subcommand
        // and values out of range, and every size has a default. But its contract says none of that.
        None => match command.error(ErrorKind::ArgumentConflict, steps_alone(found)) {
            Ok(error) => Err(fault_of(alloc, &error)),
            Err(error) => Err(WordsFault::NoMemory(error)),
        },
    }
}

// Why `--steps` goes with no other flag of its subcommand.
fn steps_alone(found: &ArgMatches<'_>) -> &'static str {
    match found.subcommand() {
        Some(("serve", _)) => SERVE_STEPS_ALONE,
        _ => STEPS_ALONE,
    }
}

// Whether the words ask for the version. They are judged before clap, for which that is an error.
fn is_version<S: AsStr>(words: &[S]) -> bool
    ensures { result ≡ asks_version (map S.text words.now) }
{
    match words {
        [word] => word.as_str() == "--version" || word.as_str() == "-V",
        _ => false,
    }
}

// The fault for an error of clap: its text, or that memory ran out.
fn fault_of(alloc: Global, error: &Error) -> WordsFault
    ensures { kind_of error.now ≡ ErrorKind.OutOfMemory → IsNoMemory result }
{
    match error.kind() {
        ErrorKind::OutOfMemory => WordsFault::NoMemory(AllocError),
        _ => bad_words(format!(in alloc; "{error}")),
    }
}

fn memcg<'a>(alloc: Global) -> Result<Command<'a>, AllocError>
    ensures app { IfOk result (λ command. app_of command ≡ program) }
{
    let program = bare_command(alloc)?;
    let program = with_command(program, replay_command(alloc))?;
    let program = with_command(program, subcommand(alloc, "run", RUN_HELP))?;
    let program = with_command(program, check_command(alloc))?;
    let program = with_command(program, sized(alloc, "lint", LINT_HELP))?;
    with_command(program, serve_command(alloc))
}

// The program with one more subcommand, if that was made.
fn with_command<'a>(
    program: Command<'a>,
    made: Result<Command<'a>, AllocError>,
) -> Result<Command<'a>, AllocError>
    requires local { IfOk made (λ command. (fields_of command).has_globals ≡ false) }
    ensures { (shape : Shape) → IfOk made.entry (λ command. (app_of command).top ≡ shape)
        → IfOk result (λ more. app_of more ≡ with_subcommand (app_of program.entry) shape) }
{
    match made {
        Ok(command) => program.subcommand(command),
        Err(error) => {
            drop(program); // As in `options`.
            Err(error)
        }
    }
}

// The program without its subcommands.
fn bare_command<'a>(alloc: Global) -> Result<Command<'a>, AllocError>
    ensures app { IfOk result (λ command. app_of command ≡ bare_program) }
{
    let command = Command::new(alloc, "memcg").bin_name("memcg")?;
    Ok(as_program(command))
}

// The command with the texts and settings of the program. A longer chain would make the check dearer.
fn as_program(command: Command<'_>) -> Command<'_>
    requires { app_of command ≡ new_app (codes "memcg") }
    ensures { app_of result ≡ bare_program }
{
    command
        .no_binary_name(true)
        .about(MEMCG_HELP)
        .version(VERSION)
        .subcommand_required(true)
}

// `replay`, which has three more options.
fn replay_command<'a>(alloc: Global) -> Result<Command<'a>, AllocError>
    ensures shape { IfOk result (λ command. (app_of command).top ≡ replay_shape) }
    ensures local { IfOk result (λ command. (fields_of command).has_globals ≡ false) }
{
    let command = subcommand(alloc, "replay", REPLAY_HELP)?;
    with_flags(alloc, command, &REPLAY_FLAGS)
}

// `serve`, which has three more options than the sizes and choices.
fn serve_command<'a>(alloc: Global) -> Result<Command<'a>, AllocError>
    ensures shape { IfOk result (λ command. (app_of command).top ≡ serve_shape) }
    ensures local { IfOk result (λ command. (fields_of command).has_globals ≡ false) }
{
    let command = sized(alloc, "serve", SERVE_HELP)?;
    with_flags(alloc, command, &SERVE_FLAGS)
}

// `check`, which has one option.
fn check_command<'a>(alloc: Global) -> Result<Command<'a>, AllocError>
    ensures shape { IfOk result (λ command. (app_of command).top ≡ check_shape) }
    ensures local { IfOk result (λ command. (fields_of command).has_globals ≡ false) }
{
    let command = Command::new(alloc, "check").about(CHECK_HELP);
    with_flag(alloc, command, "all", ALL_HELP)
}

// A subcommand that answers scripts, with its options.
fn subcommand<'a>(alloc: Global, name: &'a str, about: &'a str) -> Result<Command<'a>, AllocError>
    ensures shape { IfOk result (λ command. (app_of command).top ≡ command_shape name.entry.now) }
    ensures local { IfOk result (λ command. (fields_of command).has_globals ≡ false) }
{
    let command = sized(alloc, name, about)?;
    with_flags(alloc, command, &TASK_FLAGS)
}

// A subcommand on scripts, with the options of the sizes and choices.
fn sized<'a>(alloc: Global, name: &'a str, about: &'a str) -> Result<Command<'a>, AllocError>
    ensures shape { IfOk result (λ command. (app_of command).top ≡ sized_shape name.entry.now) }
    ensures local { IfOk result (λ command. (fields_of command).has_globals ≡ false) }
{
    let command = Command::new(alloc, name).about(about);
    let command = with_sizes(alloc, command, &SIZES)?;
    with_flags(alloc, command, &CHOICE_FLAGS)
}

// The command with these options, each with its help, which have no values.
fn with_flags<'a>(
    alloc: Global,
    mut command: Command<'a>,
    flags: &[(&'a str, &'a str)],
) -> Result<Command<'a>, AllocError>
    requires local { (fields_of command).has_globals ≡ false }
    ensures shape { IfOk result (λ more. (app_of more).top
        ≡ with_options (app_of command.entry).top (map (λ flag. flag_rule flag.0.now) flags.now)) }
    ensures local { IfOk result (λ more. (fields_of more).has_globals ≡ false) }
{
    for (name, help) in flags {
        command = with_flag(alloc, command, name, help)?;
    }
    Ok(command)
}

// The command with these options: each with its help, its greatest value and its default.
fn with_sizes<'a>(
    alloc: Global,
    mut command: Command<'a>,
    sizes: &[(&'a str, &'a str, u32, &'a str)],
) -> Result<Command<'a>, AllocError>
    requires local { (fields_of command).has_globals ≡ false }
    ensures shape { IfOk result (λ more. (app_of more).top ≡ with_options (app_of command.entry).top
        (map (λ size. size_rule size.0.now size.2 size.3.now) sizes.now)) }
    ensures local { IfOk result (λ more. (fields_of more).has_globals ≡ false) }
{
    for (name, help, most, default) in sizes {
        command = with_size(alloc, command, name, help, *most, default)?;
    }
    Ok(command)
}

// The command with one more option, which has no value.
fn with_flag<'a>(
    alloc: Global,
    command: Command<'a>,
    name: &'a str,
    help: &'a str,
) -> Result<Command<'a>, AllocError>
    requires local { (fields_of command).has_globals ≡ false }
    ensures shape { IfOk result (λ more. (app_of more).top
        ≡ with_option (app_of command.entry).top (flag_rule name.entry.now)) }
    ensures local { IfOk result (λ more. (fields_of more).has_globals ≡ false) }
{
    command.arg(
        Arg::new(alloc, name)
            .long(name)
            .help(help)
            .action(ArgAction::SetTrue),
    )
}

// A parser of whole numbers from 1 to `most`.
fn whole_number<'a>(most: u32) -> ValueParser<'a>
    ensures { result ≡ Signed (pos 1) (pos most) }
{
    value_parser!(u32).range(1..=i64::from(most))
}

// The command with one more option, whose value is a whole number from 1 to `most`.
fn with_size<'a>(
    alloc: Global,
    command: Command<'a>,
    name: &'a str,
    help: &'a str,
    most: u32,
    default: &'a str,
) -> Result<Command<'a>, AllocError>
    requires local { (fields_of command).has_globals ≡ false }
    ensures shape { IfOk result (λ more. (app_of more).top
        ≡ with_option (app_of command.entry).top (size_rule name.entry.now most default.entry.now)) }
    ensures local { IfOk result (λ more. (fields_of more).has_globals ≡ false) }
{
    command.arg(
        Arg::new(alloc, name)
            .long(name)
            .value_name("N")
            .help(help)
            .value_parser(whole_number(most))
            .default_value(default),
    )
}
