//! A law: its `ensures` clause is a statement about all turns of a session.

ghost use Rattle.line_server.specs.Histories.{LegalTurnsKeepIt};

/// If a run shows the state before turns and goes on legally with their steps, it shows the state after them. If it has
/// the ledger's peaks and event counts, the promise holds after each line that was served.
pub fn legal_turns_keep_it()
    ensures { LegalTurnsKeepIt }
{}
