//! What is said of designs that are read, whatever the text. A law takes nothing and does nothing: its clause is the law.

ghost use Rattle.blif_read.specs.Laws.{DesignsAreRegular};
ghost use Rattle.blif_read.specs.Spelling.{SpelledDesignsAreRead};

/// The design of a text is regular: every signal has a name, no input and no output is listed twice, rows fit their pins,
/// and the limits are kept.
pub fn designs_are_regular()
    ensures { DesignsAreRegular }
{}

/// The text that spells a design, line by line, is read as that design: `.model`, `.inputs` and `.outputs` with the names,
/// for each table `.names` and its rows, and `.end`. A design has such a text where its names are plain and numbered in order
/// of first appearance, and each table stands in the line where the text puts it (`specs/Spelling.antt`).
pub fn spelled_designs_are_read()
    ensures { SpelledDesignsAreRead }
{}
