//! The choice that a candidate would be.

ghost use Rattle.std.specs.Prelude.{◌≡◌, ◌*◌, ◌<◌, ◌≤◌, ◌^◌, List, ℕ, All, length, map, sum, take};
ghost use Rattle.net_base.specs.declared.graph.Subject.{Subject};
ghost use Rattle.cut_word.specs.declared.cut.TheConstants.{LEAF_LIMIT};
ghost use Rattle.cut_word.specs.Word.{leaves_in};
ghost use Rattle.balance_map.specs.FanOuts.{reads_of};
ghost use Rattle.balance_map.specs.Choices as spec;
ghost use Rattle.balance_map.specs.Steps.{AreCounts, HaveRoom, IsOver};

use crate::choice::{Choice, MAX_COST};
use crate::fan_outs::FanOuts;
use cell_lib::{Cell, cost};
use cell_match::Match;
use cut_word::{CutParts, from_words, to_words, trivial, unpack};

/// What any node is by itself, and an input has no more: it costs nothing, and is there at level 0.
pub(crate) fn own_choice(node: u32) -> Choice
    requires { node < LEAF_LIMIT }
    ensures { result ≡ spec.own_choice node }
{
    let (leaves, _) = to_words(trivial(node));
    Choice {
        cost: 0,
        arrival: 0,
        leaves,
        table: 0xAA,
        depth: 0,
    }
}

/// The choice that a candidate over lower nodes would be, given the choices of these.
pub(crate) fn choice_of(candidate: &Match, fan_outs: &FanOuts, choices: &[Choice]) -> Choice
    requires candidate { IsOver (length choices.now) candidate.now }
    requires room { HaveRoom choices.now }
    requires fan_outs { length choices.now ≤ length fan_outs.now }
    ensures { (subject : Subject) → AreCounts (reads_of subject) fan_outs.now
        → result ≡ spec.choice_of subject choices.now candidate.now }
{
    let parts = parts_of(candidate);
    let leaves = &parts.leaves[..parts.size as usize];
    let last = latest(leaves, choices);
    let below = leaf_costs(leaves, last, fan_outs, choices);
    Choice {
        // A sum that doesn't fit is above the most as well.
        cost: candidate.cost.saturating_add(below).min(MAX_COST),
        arrival: last + candidate.depth,
        leaves: candidate.leaves,
        table: candidate.table,
        depth: candidate.depth,
    }
}

// The parts of a candidate's cut.
fn parts_of(candidate: &Match) -> CutParts
    requires { (nodes : ℕ) × IsOver nodes candidate.now }
    ensures size { result.size ≤ 3 }
    ensures leaves { take result.size result.leaves ≡ leaves_in candidate.now.leaves }
{
    match from_words(candidate.leaves, u64::from(candidate.table)) {
        Some(cut) => unpack(cut),
        None => unreachable!(),
    }
}

// The level at which the last of these leaves arrives.
fn latest(leaves: &[u32], choices: &[Choice]) -> u32
    requires leaves { All (λ leaf. leaf < length choices.now) leaves.now }
    requires room { HaveRoom choices.now }
    ensures value { result ≡ spec.latest choices.now leaves.now }
    ensures low { result ≤ 2 ^ 23 }
{
    let mut last = 0;
    for leaf in leaves {
        last = last.max(choice_at(*leaf, choices).arrival);
    }
    last
}

// What all leaves add to a cost.
fn leaf_costs(leaves: &[u32], last: u32, fan_outs: &FanOuts, choices: &[Choice]) -> u64
    requires few { length leaves.now ≤ 3 }
    requires leaves { All (λ leaf. leaf < length choices.now) leaves.now }
    requires room { HaveRoom choices.now }
    requires fan_outs { length choices.now ≤ length fan_outs.now }
    requires last { last ≡ spec.latest choices.now leaves.now }
    requires low { last ≤ 2 ^ 23 }
    ensures { (subject : Subject) → AreCounts (reads_of subject) fan_outs.now
        → result ≡ sum (map (spec.leaf_cost subject choices.now last) leaves.now) }
{
    let mut total = 0;
    for leaf in leaves {
        total += leaf_cost(*leaf, last, fan_outs, choices);
    }
    total
}

// What a leaf adds to a cost.
fn leaf_cost(leaf: u32, last: u32, fan_outs: &FanOuts, choices: &[Choice]) -> u64
    requires there { leaf < length choices.now }
    requires room { HaveRoom choices.now }
    requires fan_outs { length choices.now ≤ length fan_outs.now }
    requires last { (spec.choice_at choices.now leaf).arrival ≤ last }
    requires low { last ≤ 2 ^ 23 }
    ensures value { (subject : Subject) → AreCounts (reads_of subject) fan_outs.now
        → result ≡ spec.leaf_cost subject choices.now last leaf }
    ensures few { result ≤ 2 ^ 41 }
{
    let choice = choice_at(leaf, choices);
    choice.cost / fan_outs.of(leaf) + cost(Cell::Dro) * u64::from(last - choice.arrival)
}

// The choice of a lower node.
fn choice_at(node: u32, choices: &[Choice]) -> Choice
    requires { node < length choices.now }
    ensures { result ≡ spec.choice_at choices.now node }
{
    choices[node as usize]
}
