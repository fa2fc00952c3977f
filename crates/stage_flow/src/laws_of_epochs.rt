//! The laws on epochs against full flows.

ghost use Rattle.stage_flow.specs.LawsOfEpochs.{PotentialsRise, SourceIsLowest, FittingPotentialsAreOptimal, LongestLengthsAreLeastEpochs, LongestLengthsAreFew, LabelsAreFarthest, LabelsAreFew, EveryVertexIsReached, SourceLabelsExist, NothingIsLeastWithoutPins, LeastEpochsAreUnique};

/// Where each gate has a use and there is a pin, potentials that fit a flow rise from the source to every gate and to the
/// sink, by as much as `epochs_by` tells: so epochs, which are natural numbers, can be counted off them.
pub fn potentials_rise_from_source()
    ensures { PotentialsRise }
{}

/// Under the same conditions no vertex at all has a lower potential than the source, mirrors among them.
pub fn source_is_lowest()
    ensures { SourceIsLowest }
{}

/// Complementary slackness: epochs counted off potentials that fit a full flow cost as many DROs as the flow is worth, and no
/// balanced epochs cost fewer.
pub fn fitting_potentials_are_optimal()
    ensures { FittingPotentialsAreOptimal }
{}

/// The lengths of longest walks from the source, in the residual network of a full flow, are the least optimal epochs.
pub fn longest_lengths_are_least_epochs()
    ensures { LongestLengthsAreLeastEpochs }
{}

/// The lengths of longest walks from the source are below the number of vertices, and so are the least optimal epochs.
pub fn longest_lengths_are_few()
    ensures { LongestLengthsAreFew }
{}

/// A search from the source that labels each vertex with a length that fits and a number of arcs, and finds for each an arc by
/// which such a walk comes to it, has found the lengths of longest walks.
pub fn labels_are_farthest()
    ensures { LabelsAreFarthest }
{}

/// Such lengths are below the number of vertices, at mirrors too.
pub fn labels_are_few()
    ensures { LabelsAreFew }
{}

/// Where each gate has a use and there is a pin, a search from the source over residual arcs, of any flow, meets every vertex.
pub fn every_vertex_is_reached()
    ensures { EveryVertexIsReached }
{}

/// Under the same conditions, where potentials fit the flow, there are labels from the source by which no residual arc leads
/// further, nor as far by fewer arcs.
pub fn source_labels_exist()
    ensures { SourceLabelsExist }
{}

/// Without a pin the least epochs are 0 at the gates, and 1 at the sink.
pub fn nothing_is_least_without_pins()
    ensures { NothingIsLeastWithoutPins }
{}

/// A network has one choice of least optimal epochs at most.
pub fn least_epochs_are_unique()
    ensures { LeastEpochsAreUnique }
{}
