//! The choices of all nodes.

ghost use Rattle.std.specs.Prelude.{◌≡◌, ◌<◌, ◌≤◌, All, IfOk, length, map};
ghost use Rattle.net_base.specs.declared.graph.Subject.{Subject as TheSubject};
ghost use Rattle.net_base.specs.Graph.{IsSubject};
ghost use Rattle.cut_word.specs.declared.cut.TheConstants.{LEAF_LIMIT};
ghost use Rattle.cut_lists.specs.Rows.{all_words};
ghost use Rattle.balance_map.specs.FanOuts.{reads_of};
ghost use Rattle.balance_map.specs.Choices as spec;
ghost use Rattle.balance_map.specs.Choices.{choices_of};
ghost use Rattle.balance_map.specs.Steps.{AreCounts, HaveRoom, IsOver};

use crate::candidate::{choice_of, own_choice};
use crate::choice::{Choice, Choices};
use crate::fan_outs::{FanOuts, count_reads};
use cell_match::{Match, matches};
use cut_lists::Rows;
use net_base::{List, NoMemory, Subject};
use pattern_table::Patterns;
use std::alloc::Global;

/// The choice of each node, in order of the nodes: the candidate of least cost, then arrival, then cut, then depth.
pub fn choose(alloc: Global, s: &Subject, rows: &Rows, p: &Patterns) -> Result<Choices, NoMemory>
    requires subject { IsSubject s.now }
    requires rows { rows.now ≡ all_words s.now.graph }
    ensures { IfOk result (λ choices. choices ≡ choices_of s.now) }
{
    let fan_outs = count_reads(alloc, s)?;
    choose_with(alloc, s, rows, p, &fan_outs)
}

// The choice of each node, where the reads are counted.
fn choose_with(
    alloc: Global,
    s: &Subject,
    rows: &Rows,
    p: &Patterns,
    fan_outs: &FanOuts,
) -> Result<Choices, NoMemory>
    requires subject { IsSubject s.now }
    requires rows { rows.now ≡ all_words s.now.graph }
    requires counts { AreCounts (reads_of s.now) fan_outs.now }
    requires nodes { length fan_outs.now ≡ length s.now.graph.nodes }
    ensures { IfOk result (λ choices. choices ≡ choices_of s.now) }
{
    let nodes = s.graph.nodes.len();
    let mut choices = Vec::with_capacity(alloc, nodes)?;
    for node in 0..nodes as u32 {
        let candidates = matches(alloc, p, &rows.row(node))?;
        choices.push(best_of(node, candidates.as_slice(), fan_outs, choices.as_slice()))?;
    }
    Ok(List::from_vec(choices))
}

// The choice of a node: the least of what its candidates would be, or its own where there is none.
fn best_of(node: u32, candidates: &[Match], fan_outs: &FanOuts, choices: &[Choice]) -> Choice
    requires node { node < LEAF_LIMIT }
    requires candidates { All (IsOver (length choices.now)) candidates.now }
    requires room { HaveRoom choices.now }
    requires fan_outs { length choices.now ≤ length fan_outs.now }
    ensures { (subject : TheSubject) → AreCounts (reads_of subject) fan_outs.now
        → result ≡ spec.best_of node (map (spec.choice_of subject choices.now) candidates.now) }
{
    let Some((first, rest)) = candidates.split_first() else {
        return own_choice(node);
    };
    let mut best = choice_of(first, fan_outs, choices);
    for candidate in rest {
        best = lesser(best, choice_of(candidate, fan_outs, choices));
    }
    best
}

// The lesser of two choices.
fn lesser(a: Choice, b: Choice) -> Choice
    ensures { result ≡ spec.lesser a b }
{
    if b < a { b } else { a }
}
