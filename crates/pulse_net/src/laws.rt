//! What the rules and the pulses mean, as laws on every netlist. A law takes nothing and does nothing: its clause is the law.

ghost use Rattle.pulse_net.specs.Balance.{DrosAreAtLeastTheCount, NoNetlistHasFewerDros, UnfoldedEpochsAreBalanced, UnfoldedGatesArePhased, UnfoldedGatesAreUsed, UnusedNetlistsHaveLatencyOne};
ghost use Rattle.pulse_net.specs.Depths.{DrosFollowDepths, StagesFollowDepths};
ghost use Rattle.pulse_net.specs.Dros.{UnfoldsItsDros};
ghost use Rattle.pulse_net.specs.GatePulses.{UnfoldedPulses};
ghost use Rattle.pulse_net.specs.Laws.{NamesTheLeast, PulsesAreRowValues, ReadsAreRowValues, UnbrokenIsWired};

/// No rule is broken exactly where each wire is made once and used once, each element's sources are made before it, and
/// each pin and each output is read 1 to n ticks after its wire's stage, for n phases; and where the latency is 1 if no
/// output has a wire.
pub fn unbroken_is_wired()
    ensures { UnbrokenIsWired }
{}

/// Of the wires that are made and aren't used, the least is named.
pub fn least_unused_is_named()
    ensures { NamesTheLeast }
{}

/// In a valid netlist with n phases, under one row of inputs per n ticks, a wire of stage s pulses only at ticks that are
/// s modulo n, and at tick n * c + s it pulses exactly where its value over row c is true.
pub fn pulses_are_row_values()
    ensures { PulsesAreRowValues }
{}

/// In a valid netlist the value read at an output for row c is the output's value over row c.
pub fn reads_are_row_values()
    ensures { ReadsAreRowValues }
{}

/// In a valid netlist the wire of each unfolded gate pulses as the gate is valued, and what is read at an output for row c
/// is the value that the gates give it over row c. It is the clause `pulses` of `unfold`, without a call.
pub fn pulses_are_gate_values()
    ensures { UnfoldedPulses }
{}

/// A netlist, valid or not, unfolds to as many DROs as there are among its elements.
pub fn unfolds_its_dros()
    ensures { UnfoldsItsDros }
{}

/// In a valid netlist with n phases a wire that passed k DROs behind its driver has its driver's stage, or a later one by
/// n * k ticks at most. The stage of an input is 0.
pub fn stages_follow_depths()
    ensures { StagesFollowDepths }
{}

/// In a valid netlist a wire that passed k DROs behind its driver has a driver with k DROs at least.
pub fn dros_follow_depths()
    ensures { DrosFollowDepths }
{}

/// In a valid netlist each unfolded gate drives a pin of a gate, or an output. It is the clause `used` of `unfold`, without a
/// call, as the next four laws are the clauses `phased`, `balanced`, `at_least` and `unused`.
pub fn unfolded_gates_are_used()
    ensures { UnfoldedGatesAreUsed }
{}

/// In a valid netlist with n phases each unfolded gate has one phase, below n.
pub fn unfolded_gates_are_phased()
    ensures { UnfoldedGatesArePhased }
{}

/// In a valid netlist the unfolded epochs rise by a pin's weight or more from its driver to its user.
pub fn unfolded_epochs_are_balanced()
    ensures { UnfoldedEpochsAreBalanced }
{}

/// In a valid netlist there are at least as many DROs as its unfolded epochs cost, where all pins of a driver share one chain.
pub fn dros_are_at_least_the_count()
    ensures { DrosAreAtLeastTheCount }
{}

/// In a valid netlist where no driver is used, neither by a gate nor by an output, the latency is 1.
pub fn unused_netlists_have_latency_one()
    ensures { UnusedNetlistsHaveLatencyOne }
{}

/// Where epochs need the fewest DROs among balanced ones, no valid netlist that unfolds to these gates and phases has fewer
/// DROs among its elements.
pub fn no_netlist_has_fewer_dros()
    ensures { NoNetlistHasFewerDros }
{}
