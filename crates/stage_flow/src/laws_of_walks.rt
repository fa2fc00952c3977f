//! The laws on walks in the residual network, and on a round, given labels. A law takes nothing and does nothing: its clause is
//! the law.

ghost use Rattle.stage_flow.specs.LawsOfWalks.{TheBestIsAttained, NoWalkIsBetter, LabelsAreBest, LabelsAreDetermined, TheBestToALayer, TheReceiverIsLeast, TheLastWayIsLeast, RoundsGoByLabels, SearchesGiveLabels};

/// The best of the walks with at most so many arcs is attained: a walk of at most so many arcs goes just so far.
pub fn the_best_is_attained()
    ensures { TheBestIsAttained }
{}

/// No walk of at most so many arcs is better than the best, which is there where any walk is: longer, or as long with
/// fewer arcs.
pub fn no_walk_is_better()
    ensures { NoWalkIsBetter }
{}

/// A label is the best of the walks from its vertex to the mirrors that want: the greatest length, and then the fewest arcs, which
/// are fewer than the vertices.
pub fn labels_are_best()
    ensures { LabelsAreBest }
{}

/// There is one labelling: each vertex's label is determined by the flow.
pub fn labels_are_determined()
    ensures { LabelsAreDetermined }
{}

/// Given labels, the best walk to a vertex that tight arcs reach by so many steps has just so many arcs, and is as long as the
/// labels of its ends differ.
pub fn the_best_to_a_layer()
    ensures { TheBestToALayer }
{}

/// Given labels, the receiver is the least of the mirrors that want and that tight arcs reach by as many steps as the sender's
/// label has; there is one, and its reach is the sender's label.
pub fn the_receiver_is_least()
    ensures { TheReceiverIsLeast }
{}

/// Given labels, the path comes to a vertex of a layer by the least tight arc from the layer before: from the least vertex, by
/// the lowest arc.
pub fn the_last_way_is_least()
    ensures { TheLastWayIsLeast }
{}

/// Given labels, a round sends its unit along a walk of tight arcs from the sender to the receiver. Each arc of the walk gains
/// a unit or its reverse loses one, what leaves less what enters changes at the two ends alone, and the labels, negated, are
/// potentials that fit the flow that comes of it.
pub fn rounds_go_by_labels()
    ensures { RoundsGoByLabels }
{}

/// A search breadth first from one sender, over the residual arcs on which lengths to the wanting mirrors differ by just the arc's
/// length, gives labels for that sender: what is left to the first layer with a wanting mirror is the number of arcs.
pub fn searches_give_labels()
    ensures { SearchesGiveLabels }
{}
