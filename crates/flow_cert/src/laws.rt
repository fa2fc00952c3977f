//! The laws on what a yes means, and on when there is one.

ghost use Rattle.flow_cert.specs.Meaning.{AYesMeansFewest, FullFlowsGetAYes};

/// Where a flow gets the verdict `Fewest`, the epochs are balanced, the number is their DRO count, and no balanced epochs
/// have a lower one.
pub fn a_yes_means_fewest()
    ensures { AYesMeansFewest }
{}

/// A full flow that is worth what balanced epochs cost gets the verdict `Fewest`, with their DRO count.
pub fn full_flows_get_a_yes()
    ensures { FullFlowsGetAYes }
{}
