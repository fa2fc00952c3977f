//! What is said of tokens beside the way they are read. A law takes nothing and does nothing: its clause is the law.

ghost use Rattle.blif_lex.specs.Separators.{TokensStandBetweenSeparators};

/// Each token of a line of a text isn't empty, has no blank and no line feed in it, and stands in the text between bytes that
/// may separate tokens, or ends of the text.
pub fn tokens_stand_between_separators()
    ensures { TokensStandBetweenSeparators }
{}
