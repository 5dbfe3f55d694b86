//! How a step changes the accounts of the groups: to the peaks and event counts that the rules give.

ghost use Rattle.std.specs.Prelude.{◌≡◌, ◌^◌, ◌<◌, ◌==◌, IfOk, vec_len, replicate};
ghost use Rattle.step_rules.specs.{peak_follows, makes_group, event_of};
ghost use Rattle.mem_core.specs.Rows.{state_in};
ghost use Rattle.mem_core.specs.Rooms.{FitsZone, IsBelowBounds};
ghost use Rattle.mem_core.specs.Accounts.{new_account, account_after, events_after, AccountsFollow, HaveSmallPeaks};
ghost use Rattle.mem_core.specs.Accounts.{granted_to};
ghost use Rattle.group_tree.specs.{most_groups, in_subtree};

use crate::account::Account;
use crate::rows::Rows;
use group_tree::event::{EventCounts, EventKey};
use group_tree::group::GroupId;
use std::alloc::{AllocError, Global};
use step_rules::step::{Action, Answer};

// The account of a new group.
fn new_account() -> Account
    ensures { result ≡ new_account }
{
    let none = EventCounts::none();
    Account {
        peak: 0,
        events: none,
        events_local: none,
    }
}

/// This many accounts, each that of a new group.
pub(crate) fn new_accounts(alloc: Global, groups: usize) -> Result<Vec<Account>, AllocError>
    ensures items { IfOk result (λ accounts. accounts.items ≡ replicate groups new_account) }
    ensures number { IfOk result (λ accounts. vec_len accounts ≡ groups) }
{
    vec![in alloc; new_account(); groups]
}

// The event that a step counts, and the group at which it counts it.
fn note_of(action: &Action, answer: &Answer) -> Option<(EventKey, GroupId)>
    ensures { result ≡ event_of action.now answer.now }
{
    match answer {
        Answer::Done => match action {
            Action::Note { key, group } => Some((key.event(), *group)),
            Action::Kill { group } => Some((EventKey::OomKill, *group)),
            Action::NoteGroupKill { group } => Some((EventKey::OomGroupKill, *group)),
            _ => None,
        },
        _ => None,
    }
}

fn makes_group(group: GroupId, action: &Action, answer: &Answer) -> bool
    ensures { result ≡ makes_group group action.now answer.now }
{
    match action {
        Action::Make { path: _ } => match answer {
            Answer::Number(number) => group.number() == number.number(),
            _ => false,
        },
        _ => false,
    }
}

// The events of a group and of all groups below it after a step.
fn subtree_events(
    rows: &Rows,
    action: &Action,
    answer: &Answer,
    group: GroupId,
    events: EventCounts,
) -> EventCounts
    ensures { result ≡ events_after (in_subtree rows.now.tree group) group action.now answer.now events }
{
    if makes_group(group, action, answer) {
        return EventCounts::none();
    }
    match note_of(action, answer) {
        None => events,
        Some((key, at)) => {
            if rows.in_subtree(group, at) {
                events.with_one_more(key)
            } else {
                events
            }
        }
    }
}

// The events of a group itself after a step.
fn local_events(
    action: &Action,
    answer: &Answer,
    group: GroupId,
    events: EventCounts,
) -> EventCounts
    ensures { result ≡ events_after (λ h. h == group) group action.now answer.now events }
{
    if makes_group(group, action, answer) {
        return EventCounts::none();
    }
    match note_of(action, answer) {
        None => events,
        Some((key, at)) => {
            if at.number() == group.number() {
                events.with_one_more(key)
            } else {
                events
            }
        }
    }
}

fn granted_to(action: &Action, answer: &Answer) -> Option<GroupId>
    ensures { result ≡ granted_to action.now answer.now }
{
    match answer {
        Answer::Granted => match action {
            Action::Grant { group, pages: _ } => Some(*group),
            _ => None,
        },
        _ => None,
    }
}

fn peak_after(rows: &Rows, action: &Action, answer: &Answer, group: GroupId, peak: u128) -> u128
    requires fits { FitsZone rows.now }
    requires bounded { IsBelowBounds (state_in rows.now) }
    requires small { peak < 2 ^ 108 }
    ensures peak { result ≡ peak_follows (state_in rows.now) action.now answer.now group peak }
    ensures small { result < 2 ^ 108 }
{
    if makes_group(group, action, answer) {
        return 0;
    }
    if rows.is_in_subtree(group, granted_to(action, answer)) {
        return peak.max(rows.usage(group));
    }
    peak
}

fn account_after(
    rows: &Rows,
    action: &Action,
    answer: &Answer,
    group: GroupId,
    account: Account,
) -> Account
    requires fits { FitsZone rows.now }
    requires bounded { IsBelowBounds (state_in rows.now) }
    requires small { account.peak < 2 ^ 108 }
    ensures account { result ≡ account_after (state_in rows.now) action.now answer.now group account }
    ensures small { result.peak < 2 ^ 108 }
{
    Account {
        peak: peak_after(rows, action, answer, group, account.peak),
        events: subtree_events(rows, action, answer, group, account.events),
        events_local: local_events(action, answer, group, account.events_local),
    }
}

/// Updates the account of each existing group for the step that led to these rows.
pub(crate) fn update_accounts(
    rows: &Rows,
    action: &Action,
    answer: &Answer,
    accounts: &mut Vec<Account>,
)
    requires fits { FitsZone rows.now }
    requires bounded { IsBelowBounds (state_in rows.now) }
    requires length { vec_len accounts.old ≡ most_groups }
    requires small { HaveSmallPeaks accounts.old.items }
    ensures length { vec_len accounts.new ≡ most_groups }
    ensures small { HaveSmallPeaks accounts.new.items }
    ensures follow { AccountsFollow (state_in rows.now) action.now answer.now accounts.old.items accounts.new.items }
{
    for row in rows.tree.groups() {
        let place = row.number.number() as usize;
        accounts[place] = account_after(rows, action, answer, row.number, accounts[place]);
    }
}
