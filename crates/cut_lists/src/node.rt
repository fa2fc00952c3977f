//! The row of a node, from the rows of its fan-ins.

ghost use Rattle.std.specs.Prelude.{◌≡◌, ◌<◌, ◌∷◌, [], length, map, List, All};
ghost use Rattle.net_base.specs.Graph.{IsProper};
ghost use Rattle.cut_word.specs.declared.cut.TheConstants.{LEAF_LIMIT};
ghost use Rattle.cut_word.specs.Cut.{CutView, IsCut, trivial_cut, negated};
ghost use Rattle.cut_lists.specs.CutList.{list_with, merges};
ghost use Rattle.cut_lists.specs.Rows.{words_of, node_words, row_with, AreFanInRows, IsRowOf};

use crate::cuts::Cuts;
use crate::pool::{keep, merge_all, negations, sort};
use crate::row::{Row, cuts_of, row_with_cuts};
use cut_word::{Cut, merge, negate, trivial};
use net_base::{GNode, Graph};

/// The row of a node's cut list, from the rows of its fan-ins: `a` of the first one, `b` of the second one where there are
/// two. It takes no memory.
pub fn row_of(graph: &Graph, i: u32, a: &Row, b: &Row) -> Row
    requires proper { IsProper graph.now }
    requires node { i < length graph.now.nodes }
    requires fan_ins { AreFanInRows graph.now i a.now b.now }
    ensures { result ≡ row_with (node_words graph.now i) }
{
    match *graph.nodes.get(i as usize) {
        GNode::Inp(_) => row_with_cuts(&[trivial(i)]),
        GNode::Neg(j) => negated_row(i, j, a),
        GNode::Both(j, k) => merged_row(i, j, k, a, b),
    }
}

// The row of a complement of node j, from that node's row.
fn negated_row(i: u32, j: u32, a: &Row) -> Row
    requires node { i < LEAF_LIMIT }
    requires fan_in { j < LEAF_LIMIT }
    requires row { (cuts : List CutView) × IsRowOf cuts a.now }
    ensures { (cuts : List CutView) → IsRowOf cuts a.now
        → result ≡ row_with (words_of (list_with i (negated (trivial_cut j) ∷ []) (map negated cuts))) }
{
    let pool = negations(cuts_of(a).as_slice());
    listed(i, negate(trivial(j)), pool)
}

// The row of the conjunction of nodes j and k, from their rows.
fn merged_row(i: u32, j: u32, k: u32, a: &Row, b: &Row) -> Row
    requires node { i < LEAF_LIMIT }
    requires fan_ins { (j < LEAF_LIMIT) × (k < LEAF_LIMIT) }
    requires first { (cuts : List CutView) × IsRowOf cuts a.now }
    requires second { (cuts : List CutView) × IsRowOf cuts b.now }
    ensures { (firsts seconds : List CutView) → IsRowOf firsts a.now → IsRowOf seconds b.now
        → result ≡ row_with (words_of (list_with i (merges (trivial_cut j ∷ []) (trivial_cut k ∷ [])) (merges firsts seconds))) }
{
    let pool = merge_all(cuts_of(a).as_slice(), cuts_of(b).as_slice());
    match merge(trivial(j), trivial(k)) {
        Some(fan_in) => listed(i, fan_in, pool),
        None => unreachable!(),
    }
}

// The row of a node, from its fan-in cut and its pool.
fn listed(i: u32, fan_in: Cut, mut pool: Cuts) -> Row
    requires node { i < LEAF_LIMIT }
    requires cuts { All IsCut pool }
    ensures { result ≡ row_with (words_of (list_with i (fan_in ∷ []) pool)) }
{
    sort(&mut pool);
    let mut list = Cuts::new();
    list.push(trivial(i));
    list.push(fan_in);
    keep(&mut list, pool.as_slice());
    row_with_cuts(list.as_slice())
}
