//! What is said of netlist texts beside the reading and writing of one. A law takes nothing and does nothing: its clause is the
//! law.

ghost use Rattle.netlist_text.specs.Laws.{FirstFaultsAreParsed, LinesEndWithLineFeeds, SpellingsAreParsed, SpellingsDiffer, SpellingsHaveNoFault};

/// Two netlists with their flows never share a text: where the spelling of one, with anything behind it, is the spelling of
/// another with anything behind it, both are the same, and so is what follows.
pub fn spellings_differ()
    ensures { SpellingsDiffer }
{}

/// No spelling has a fault: not at its front, whatever follows, and not as a whole.
pub fn spellings_have_no_fault()
    ensures { SpellingsHaveNoFault }
{}

/// Bytes are read as a netlist and a flow exactly where they are their spelling.
pub fn spellings_are_parsed()
    ensures { SpellingsAreParsed }
{}

/// The fault that is read of bytes is their first one, and each text that has a fault is read so.
pub fn first_faults_are_parsed()
    ensures { FirstFaultsAreParsed }
{}

/// A spelling has one line feed for each of its lines: four of the header, one for each input, element, output and pin of the
/// flow, and the end.
pub fn lines_end_with_line_feeds()
    ensures { LinesEndWithLineFeeds }
{}
