//! The names of actions and answers, and the arguments after each name.

ghost use Rattle.std.specs.Prelude.{◌≡◌, bytes_eq, map};
ghost use Rattle.std.specs.Map.{lookup};
ghost use Rattle.log_lines.specs.Names.{action_named, action_of_group, action_of_number, action_of_two_numbers};
ghost use Rattle.log_lines.specs.Names.{action_of_pages, answer_named};

use group_tree::group::GroupId;
use step_rules::step::{Action, Answer, NoteKey};

/// An action with one number: a frame, a CPU or a number of pages.
#[derive(Clone, Copy)]
pub(crate) enum NumberAction {
    Open,
    Shut,
    Get,
    Put,
    TakeIn,
    PassBack,
    Credit,
    Report,
    Absorb,
    Drain,
    Publish,
    Return,
}

/// An action with two numbers: a frame, and a count or a CPU.
#[derive(Clone, Copy)]
pub(crate) enum TwoNumberAction {
    Freeze,
    Unfreeze,
    PassOut,
    Collect,
}

/// An action with a group.
#[derive(Clone, Copy)]
pub(crate) enum GroupAction {
    Consume,
    Note(NoteKey),
    GroupKill,
    Remove,
    Kill,
}

/// An action with a group and a number of pages.
#[derive(Clone, Copy)]
pub(crate) enum PagesAction {
    Grant,
    Ungrant,
}

/// The name of an action, with the kind of its arguments.
#[derive(Clone, Copy)]
pub(crate) enum ActionName {
    Lock,
    Unlock,
    Number(NumberAction),
    TwoNumbers(TwoNumberAction),
    Group(GroupAction),
    Pages(PagesAction),
    Fill,
    Place,
    Limit,
    Flag,
    Make,
}

/// The name of an answer, with the kind of its arguments.
#[derive(Clone, Copy)]
pub(crate) enum AnswerName {
    Alone(Answer),
    Left,
    Pages,
    Over,
    Placed,
    Number,
}

const ACTION_NAMES: [(&[u8], ActionName); 33] = [
    (b"lock", ActionName::Lock),
    (b"unlock", ActionName::Unlock),
    (b"open", ActionName::Number(NumberAction::Open)),
    (b"shut", ActionName::Number(NumberAction::Shut)),
    (b"get", ActionName::Number(NumberAction::Get)),
    (b"put", ActionName::Number(NumberAction::Put)),
    (b"take-in", ActionName::Number(NumberAction::TakeIn)),
    (b"pass-back", ActionName::Number(NumberAction::PassBack)),
    (b"credit", ActionName::Number(NumberAction::Credit)),
    (b"report", ActionName::Number(NumberAction::Report)),
    (b"absorb", ActionName::Number(NumberAction::Absorb)),
    (b"drain", ActionName::Number(NumberAction::Drain)),
    (b"publish", ActionName::Number(NumberAction::Publish)),
    (b"return", ActionName::Number(NumberAction::Return)),
    (b"freeze", ActionName::TwoNumbers(TwoNumberAction::Freeze)),
    (
        b"unfreeze",
        ActionName::TwoNumbers(TwoNumberAction::Unfreeze),
    ),
    (
        b"pass-out",
        ActionName::TwoNumbers(TwoNumberAction::PassOut),
    ),
    (b"collect", ActionName::TwoNumbers(TwoNumberAction::Collect)),
    (b"consume", ActionName::Group(GroupAction::Consume)),
    (
        b"note-low",
        ActionName::Group(GroupAction::Note(NoteKey::Low)),
    ),
    (
        b"note-high",
        ActionName::Group(GroupAction::Note(NoteKey::High)),
    ),
    (
        b"note-max",
        ActionName::Group(GroupAction::Note(NoteKey::Max)),
    ),
    (
        b"note-oom",
        ActionName::Group(GroupAction::Note(NoteKey::Oom)),
    ),
    (b"group-kill", ActionName::Group(GroupAction::GroupKill)),
    (b"remove", ActionName::Group(GroupAction::Remove)),
    (b"kill", ActionName::Group(GroupAction::Kill)),
    (b"grant", ActionName::Pages(PagesAction::Grant)),
    (b"ungrant", ActionName::Pages(PagesAction::Ungrant)),
    (b"fill", ActionName::Fill),
    (b"place", ActionName::Place),
    (b"limit", ActionName::Limit),
    (b"flag", ActionName::Flag),
    (b"make", ActionName::Make),
];

const ANSWER_NAMES: [(&[u8], AnswerName); 19] = [
    (b"illegal", AnswerName::Alone(Answer::Illegal)),
    (b"done", AnswerName::Alone(Answer::Done)),
    (b"held", AnswerName::Alone(Answer::Held)),
    (b"zero", AnswerName::Alone(Answer::Zero)),
    (b"full", AnswerName::Alone(Answer::Full)),
    (b"last", AnswerName::Alone(Answer::Last)),
    (b"missed", AnswerName::Alone(Answer::Missed)),
    (b"took", AnswerName::Alone(Answer::Took)),
    (b"empty", AnswerName::Alone(Answer::Empty)),
    (b"other-group", AnswerName::Alone(Answer::OtherGroup)),
    (b"drained", AnswerName::Alone(Answer::Drained)),
    (b"back", AnswerName::Alone(Answer::Stocked)),
    (b"granted", AnswerName::Alone(Answer::Granted)),
    (b"no-block", AnswerName::Alone(Answer::NoFreeBlock)),
    (b"left", AnswerName::Left),
    (b"pages", AnswerName::Pages),
    (b"over", AnswerName::Over),
    (b"placed", AnswerName::Placed),
    (b"number", AnswerName::Number),
];

/// The action of this name.
pub(crate) fn action_named(word: &[u8]) -> Option<ActionName>
    ensures { result ≡ action_named word.now }
{
    named(&ACTION_NAMES, word)
}

/// The answer of this name.
pub(crate) fn answer_named(word: &[u8]) -> Option<AnswerName>
    ensures { result ≡ answer_named word.now }
{
    named(&ANSWER_NAMES, word)
}

fn named<T: Copy>(names: &[(&[u8], T)], word: &[u8]) -> Option<T>
    ensures { result ≡ lookup (λ name. bytes_eq name word.now) (map (λ row. (row.0.now, row.1)) names.now) }
{
    for row in names {
        if row.0 == word {
            return Some(row.1);
        }
    }
    None
}

impl NumberAction {
    /// The action with this number.
    pub(crate) fn with(self, number: u32) -> Action
        ensures { result ≡ action_of_number self number }
    {
        match self {
            NumberAction::Open => Action::OpenVisit { cpu: number },
            NumberAction::Shut => Action::ShutVisit { cpu: number },
            NumberAction::Get => Action::Get { frame: number },
            NumberAction::Put => Action::Put { frame: number },
            NumberAction::TakeIn => Action::TakeIn { frame: number },
            NumberAction::PassBack => Action::PassBack { frame: number },
            NumberAction::Credit => Action::Credit { frame: number },
            NumberAction::Report => Action::Report { pages: number },
            NumberAction::Absorb => Action::Absorb { cpu: number },
            NumberAction::Drain => Action::DrainStock { cpu: number },
            NumberAction::Publish => Action::Publish { frame: number },
            NumberAction::Return => Action::Return { frame: number },
        }
    }
}

impl TwoNumberAction {
    /// The action with this frame and this number.
    pub(crate) fn with(self, frame: u32, number: u32) -> Action
        ensures { result ≡ action_of_two_numbers self frame number }
    {
        match self {
            TwoNumberAction::Freeze => Action::Freeze {
                frame,
                count: number,
            },
            TwoNumberAction::Unfreeze => Action::Unfreeze {
                frame,
                count: number,
            },
            TwoNumberAction::PassOut => Action::PassOut { frame, cpu: number },
            TwoNumberAction::Collect => Action::Collect { frame, cpu: number },
        }
    }
}

impl GroupAction {
    /// The action with this group.
    pub(crate) fn with(self, group: GroupId) -> Action
        ensures { result ≡ action_of_group self group }
    {
        match self {
            GroupAction::Consume => Action::Consume { group },
            GroupAction::Note(key) => Action::Note { key, group },
            GroupAction::GroupKill => Action::NoteGroupKill { group },
            GroupAction::Remove => Action::Remove { group },
            GroupAction::Kill => Action::Kill { group },
        }
    }
}

impl PagesAction {
    /// The action with this group and these pages.
    pub(crate) fn with(self, group: GroupId, pages: u32) -> Action
        ensures { result ≡ action_of_pages self group pages }
    {
        match self {
            PagesAction::Grant => Action::Grant { group, pages },
            PagesAction::Ungrant => Action::Ungrant { group, pages },
        }
    }
}
