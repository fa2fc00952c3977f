//! The laws on the earliest epochs, on the numbers of drivers, and on full flows against epochs.

ghost use Rattle.flow_net.specs.Epochs.{EarliestEpochsAreBalanced};
ghost use Rattle.flow_net.specs.DriverNumbers.{DriversAreNumbered};
ghost use Rattle.flow_net.specs.Duality.{WeakDuality};

/// With phases from levels, each gate's level over the number of phases gives balanced epochs, with the sink 1 behind
/// the last driver of an output.
pub fn earliest_epochs_are_balanced()
    ensures { EarliestEpochsAreBalanced }
{}

/// Drivers are numbered from 0 on, each by itself: their numbers are below their count, no two share one, and none is left
/// out. A pin with a driver's number starts at that driver's vertex, and where each gate is used, each number has a pin.
pub fn drivers_are_numbered()
    ensures { DriversAreNumbered }
{}

/// Weak duality: no full flow is worth more than the DROs that balanced epochs cost. So where a full flow is worth as much as
/// some balanced epochs cost, no others cost less. The sink's epoch is free.
pub fn flow_value_is_at_most_dro_count()
    ensures { WeakDuality }
{}
