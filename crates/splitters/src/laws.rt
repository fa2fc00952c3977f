//! What the layout of gates with shared chains means, as laws. A law takes nothing and does nothing: its clause is the law.
//! Which chains mean a netlist (`HasChains`) stands on the crate's page.

ghost use Rattle.splitters.specs.Laws.{ChainsAreValid, ChainsCanBeSplit, ChainsKeepTime, ChainsUnfold, DrosAreTheChains, DrosAreTheCount, LayoutIsValid};

/// Where chains keep time and the names fit, the netlist is valid: each wire is made once and used once, and each is read in
/// time. To keep time (`KeepsTime`), the gates are well formed and each has a use, there are 1 to 16 phases, each pin takes
/// from its tap 1 to n ticks before its gate or before the reading, and the latency is 1 or more, and 1 where there is no
/// pin.
pub fn layout_is_valid()
    ensures { LayoutIsValid }
{}

/// Chains that mean a netlist keep time: the DROs that a pin needs leave 1 to n ticks to its user.
pub fn chains_keep_time()
    ensures { ChainsKeepTime }
{}

/// Chains that mean a netlist can be laid out: each tap stands before its user, whose stage fits, and with at most
/// `MAX_DROS` DROs, of which `chains` never makes more, the wires are few.
pub fn chains_can_be_split()
    ensures { ChainsCanBeSplit }
{}

/// Chains that mean a netlist are laid out as a valid one, where each input and output has its name.
pub fn chains_are_valid()
    ensures { ChainsAreValid }
{}

/// There are as many DROs as the chains are long: a driver's chain has one for each tap behind its first.
pub fn dros_are_the_chains()
    ensures { DrosAreTheChains }
{}

/// Chains that mean a netlist are laid out with as many DROs as their lengths sum up to, which is the DRO count of the epochs.
pub fn dros_are_the_count()
    ensures { DrosAreTheCount }
{}

/// Chains that mean a netlist are laid out as one that unfolds to the gates, the phases and the epochs that they were made
/// for, with as many DROs as the DRO count of the epochs.
pub fn chains_unfold()
    ensures { ChainsUnfold }
{}
