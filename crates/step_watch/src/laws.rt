//! Laws of every watch: each function ensures one.

ghost use Rattle.step_watch.specs.Watched.{NoStepIsWatched, WatchedRunsAreLegal, WatchedRunsCompose};

/// If a watch that was new took these steps and each was legal, they are a legal run of its zone. The watch saw the
/// state that the run leads to, and counted its steps. So the promise holds after each beginning of the run that
/// leaves the lock free.
pub fn watched_runs_are_legal()
    ensures { WatchedRunsAreLegal }
{}

/// A watch that took these steps and then those, took both lists, one after the other.
pub fn watched_runs_compose()
    ensures { WatchedRunsCompose }
{}

/// A watch that stays as it is took no step.
pub fn no_step_is_watched()
    ensures { NoStepIsWatched }
{}
