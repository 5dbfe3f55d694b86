//! Laws of the rule of the words, between any two atomic steps, and of what a CPU knows by its past.
ghost use Rattle.boot_words.specs.Laws.{NeverZero, NoGroupNothingFresh, SeatsKnowTheirOwn, WordsBookPages};
ghost use Rattle.boot_words.specs.Laws.{WordsCountReferences};

/// A frame's word counts its references, those of the zone and of all CPUs. It is 0 exactly while the frame is in the hand
/// of one seat, and a mark only while a visit is open.
pub fn words_count_references()
    ensures { WordsCountReferences }
{}

/// All pages prepaid for a CPU are in its stock word, in its fresh frames, and in its report word or not reported yet.
pub fn words_book_pages()
    ensures { WordsBookPages }
{}

/// By its past each seat knows its references and which frames are in its hand. The zone knows all apart from each CPU's
/// own part, and a CPU its part, except that its stock may have been drained.
pub fn seats_know_their_own()
    ensures { SeatsKnowTheirOwn }
{}

/// A CPU that has a reference on the frame never gets Zero.
pub fn never_zero()
    ensures { NeverZero }
{}

/// A CPU that saw a stock of no group last has no fresh frame.
pub fn no_group_nothing_fresh()
    ensures { NoGroupNothingFresh }
{}
