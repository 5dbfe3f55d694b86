//! Laws: each function's `ensures` clause is a statement about all calls on a handle.

ghost use Rattle.tempolemon_c.specs.Lives.{LivesAreLegalRuns, TypedCallsAreCalls};

/// The steps of all calls on a handle, from its boot to its end, are one legal run.
pub fn lives_are_legal_runs()
    ensures { LivesAreLegalRuns }
{}

/// A typed call is one of the calls of such a life.
pub fn typed_calls_are_calls()
    ensures { TypedCallsAreCalls }
{}
