//! The laws on cut lists. A law takes nothing and does nothing: its clause is the law.

ghost use Rattle.cut_lists.specs.Laws.{EachCutIsRight, ListsAreOfNodes};

/// Each cut of a node's list is right for the node.
pub fn each_cut_is_right()
    ensures { EachCutIsRight }
{}

/// A node's list has at most eight cuts, the trivial one first, and all others over lower nodes.
pub fn lists_are_of_nodes()
    ensures { ListsAreOfNodes }
{}
