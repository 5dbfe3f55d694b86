//! Laws: each function's `ensures` clause is a statement about all legal runs.

ghost use Rattle.boot_words.specs.Locks.{ZoneRests};
ghost use Rattle.boot_words.specs.Own.{OwnPartFollows};
ghost use Rattle.boot_words.specs.Sight.{AwayStays, FastIsHidden, FastLegalityLasts, FrontsPassBack, HolderGoesOn};
ghost use Rattle.boot_words.specs.Sight.{HolderSeesBoth, ListsAreOwn, NoneBooked, StocksAreOwn};
ghost use Rattle.boot_words.specs.Steps.{ABootHasWords, PlainStepsKeepWords, WordsFollow};

/// A CPU's list, fresh frames, back frames and references are those at its own last step, whatever others did since.
pub fn lists_are_own()
    ensures { ListsAreOwn }
{}

/// A CPU's stock, unreported and reported pages are those at its own last step, whatever others did since, except that
/// the stock may have been drained, if it wasn't filled and nothing of the CPU was absorbed.
pub fn stocks_are_own()
    ensures { StocksAreOwn }
{}

/// A CPU that doesn't hold the lock doesn't come to hold it by others' steps. So nothing is filled or absorbed for it
/// meanwhile: its stock, unreported and reported pages are the same, except that the stock may have been drained.
pub fn away_stays()
    ensures { AwayStays }
{}

/// A get, put, consume or credit of a CPU changes nothing that another CPU or the zone sees, whether or not the lock is
/// held.
pub fn fast_is_hidden()
    ensures { FastIsHidden }
{}

/// What the lock's holder sees is what nobody's step hides, with the holder's own part and references.
pub fn holder_sees_both()
    ensures { HolderSeesBoth }
{}

/// A step that is legal in what the lock's holder saw at its last step is legal after all that other CPUs did since.
pub fn holder_goes_on()
    ensures { HolderGoesOn }
{}

/// A get, put, consume or credit that was legal at the CPU's own last step is legal after all that others did since.
pub fn fast_legality_lasts()
    ensures { FastLegalityLasts }
{}

/// A step that changes a frame's word, a visit word, a stock word or a report word leaves the words those of the run,
/// if its answer is the one that the word decides.
pub fn words_follow()
    ensures { WordsFollow }
{}

/// A step that changes no word leaves the words those of the run.
pub fn plain_steps_keep_words()
    ensures { PlainStepsKeepWords }
{}

/// Words of 0 are those of a run without steps.
pub fn a_boot_has_words()
    ensures { ABootHasWords }
{}

/// A CPU whose visit is open may pass back the front of its list, and each of its fresh and back frames.
pub fn fronts_pass_back()
    ensures { FrontsPassBack }
{}

/// Nothing is booked for a CPU without fresh, unreported and reported pages whose stock was drained or never filled.
pub fn none_booked()
    ensures { NoneBooked }
{}

/// A CPU's step without the lock changes its own lists and references as if it were made right after its last step.
pub fn own_part_follows()
    ensures { OwnPartFollows }
{}

/// While nobody holds the lock, nothing changes but each CPU's own lists, fresh and back frames, and references.
pub fn the_zone_rests()
    ensures { ZoneRests }
{}
