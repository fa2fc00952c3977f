//! The keys of a command line, `KEY=NUMBER` each.

ghost use Rattle.std.specs.Prelude.{◌≡◌, ◌≢◌, ◌≤◌, ◌<◌, ◌^◌, ℕ, IfSome, IfNone, decimal, map, string_bytes};
ghost use Rattle.rsfq_main.specs.Words as spec;

use gen_blif::{MAX_BITS, MAX_TABLES};
use itoa::Buffer;
use pulse_net::MAX_PHASES;

/// What a word may give a number.
#[derive(Clone, Copy, Debug, PartialEq, Eq)]
pub enum Key {
    /// The number of clock phases, 1 to `MAX_PHASES`.
    Phases,
    /// The seed of a generated design, any number of 64 bits.
    Seed,
    /// The tables of a generated design, 1 to `MAX_TABLES`.
    Tables,
    /// The bits of a generated adder, 1 to `MAX_BITS`.
    Adder,
}

// The number of 64 bits that bytes are in decimal, without a sign or a leading zero.
fn decimal_in(digits: &[u8]) -> Option<u64>
    ensures spelled { IfSome result (λ n. (n < 2 ^ 64) × (digits.now ≡ decimal n)) }
    ensures none { IfNone result ((n : ℕ) → n < 2 ^ 64 → digits.now ≢ decimal n) }
{
    let Ok(text) = str::from_utf8(digits) else {
        return None;
    };
    let Ok(n) = text.parse::<u64>() else {
        return None;
    };
    if Buffer::new().format(n).as_bytes() == digits {
        Some(n)
    } else {
        None
    }
}

// The same where it lies between two others.
fn number_in(digits: &[u8], least: u64, most: u64) -> Option<u64>
    ensures value { result ≡ spec.number_in least most digits.now }
    ensures in_range { IfSome result (λ n. (least ≤ n) × (n ≤ most)) }
{
    let n = decimal_in(digits)?;
    if least <= n && n <= most {
        Some(n)
    } else {
        None
    }
}

impl Key {
    // How a word begins that gives the key a number.
    fn front(self) -> &'static [u8]
        ensures { result.now ≡ spec.key_front self }
    {
        match self {
            Key::Phases => b"phases=",
            Key::Seed => b"seed=",
            Key::Tables => b"tables=",
            Key::Adder => b"adder=",
        }
    }

    fn least(self) -> u64
        ensures { result ≡ spec.least_of self }
    {
        match self {
            Key::Seed => 0,
            Key::Phases | Key::Tables | Key::Adder => 1,
        }
    }

    fn most(self) -> u64
        ensures { result ≡ spec.most_of self }
    {
        match self {
            Key::Phases => u64::from(MAX_PHASES),
            Key::Seed => u64::MAX,
            Key::Tables => u64::from(MAX_TABLES),
            Key::Adder => u64::from(MAX_BITS),
        }
    }

    // The number that a word gives the key.
    #[tactic(auto, unfolding(crate::specs::Words::number_for))]
    fn number(self, word: &[u8]) -> Option<u64>
        ensures value { result ≡ spec.number_for self word.now }
        ensures in_range { IfSome result (λ n. (spec.least_of self ≤ n) × (n ≤ spec.most_of self)) }
    {
        let digits = word.strip_prefix(self.front())?;
        number_in(digits, self.least(), self.most())
    }

    /// The number that the first of the words which gives the key one gives it.
    pub fn given(self, words: &[String]) -> Option<u64>
        ensures value { result ≡ spec.given self (map string_bytes words.now) }
        ensures in_range { IfSome result (λ n. (spec.least_of self ≤ n) × (n ≤ spec.most_of self)) }
    {
        for word in words {
            if let Some(number) = self.number(word.as_bytes()) {
                return Some(number);
            }
        }
        None
    }
}

/// Reading a word and spelling one are the same: a word gives a key a number exactly where it is the key with this number in
/// decimal.
pub fn words_spell_numbers()
    ensures { spec.WordsSpellNumbers }
{}
