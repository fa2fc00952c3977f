//! What a line says, by its first token.

ghost use Rattle.std.specs.Prelude.{◌≡◌};
ghost use Rattle.blif_read.specs.Words as spec;

/// What a line says.
#[derive(Clone, Copy, Debug, PartialEq, Eq)]
pub(crate) enum Word {
    /// The model's name.
    Model,
    /// Inputs.
    Inputs,
    /// Outputs.
    Outputs,
    /// A table.
    Names,
    /// The end of the model.
    End,
    /// Something that a network of tables doesn't say.
    Unsupported,
    /// Something unknown.
    Unknown,
    /// A row of the current table.
    Row,
}

// A word of BLIF that says more than a network of tables.
#[tactic(auto, unfolding(crate::specs::Words::is_unsupported_word))]
fn is_unsupported_word(token: &[u8]) -> bool
    ensures { result ≡ spec.is_unsupported_word token.now }
{
    token == b".latch".as_slice()
        || token == b".mlatch".as_slice()
        || token == b".subckt".as_slice()
        || token == b".gate".as_slice()
        || token == b".search".as_slice()
        || token == b".exdc".as_slice()
        || token == b".clock".as_slice()
        || token == b".start_kiss".as_slice()
}

// Any other word, or none.
fn other_word(token: &[u8]) -> Word
    ensures { result ≡ spec.other_word token.now }
{
    match token {
        [b'.', ..] => Word::Unknown,
        _ => Word::Row,
    }
}

/// What a line says that begins with this token.
#[tactic(auto, unfolding(crate::specs::Words::word_of))]
pub(crate) fn word_of(token: &[u8]) -> Word
    ensures { result ≡ spec.word_of token.now }
{
    if token == b".model".as_slice() {
        Word::Model
    } else if token == b".inputs".as_slice() {
        Word::Inputs
    } else if token == b".outputs".as_slice() {
        Word::Outputs
    } else if token == b".names".as_slice() {
        Word::Names
    } else if token == b".end".as_slice() {
        Word::End
    } else if is_unsupported_word(token) {
        Word::Unsupported
    } else {
        other_word(token)
    }
}
