//! The laws on the machine. A law takes nothing and does nothing: its clause is the law.

ghost use Rattle.cut_core.specs.Laws.{StatesAreSound, PutsAreTheWords, PublicationsAreOnce};

/// The state after any list of events is sound.
pub fn states_are_sound()
    ensures { StatesAreSound }
{}

/// What events put of a node are the first words of its cut list, in order, and all of them once it is published.
pub fn puts_are_the_words()
    ensures { PutsAreTheWords }
{}

/// Each published node that isn't an input was published once, and no other node was.
pub fn publications_are_once()
    ensures { PublicationsAreOnce }
{}
