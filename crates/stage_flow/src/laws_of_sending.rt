//! The laws of sending units, round by round.

ghost use Rattle.stage_flow.specs.LawsOfSending.{UnitsMakePartFlows, AsManyWantAsAreToSend, NobodyIsCutOff, AReceiverIsFound, RoundsMakeAFullFlow};

/// In every network no units are a part of a full flow, and so is a part with a unit more that goes from a vertex that has to
/// send to a mirror that wants.
pub fn units_make_part_flows()
    ensures { UnitsMakePartFlows }
{}

/// In each part of a full flow as many mirrors want a unit as source, gates and sink have still to send.
pub fn as_many_want_as_are_to_send()
    ensures { AsManyWantAsAreToSend }
{}

/// Nobody is cut off: in the network of a netlist in which each gate has a use, while a mirror wants a unit, a set of
/// vertices that no residual arc leaves and of which no mirror wants is empty. So from every vertex a residual path leads to
/// a mirror that wants, and a search backwards from these meets all vertices.
pub fn nobody_is_cut_off()
    ensures { NobodyIsCutOff }
{}

/// While a mirror wants a unit, what any vertex sends has a receiver: a mirror that wants, at the best reach of walks to it
/// with fewer arcs than there are vertices. In the network of a netlist in which each gate has a use, and for a part of a full
/// flow.
pub fn a_receiver_is_found()
    ensures { AReceiverIsFound }
{}

/// The rounds, as many as there are drivers, make a full flow, where in each that has a sender and a receiver a unit goes from
/// the one to the other.
pub fn rounds_make_a_full_flow()
    ensures { RoundsMakeAFullFlow }
{}
