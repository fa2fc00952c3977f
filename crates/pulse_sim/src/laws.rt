//! What is said of pulses beside the simulator. A law takes nothing and does nothing: its clause is the law.

ghost use Rattle.pulse_sim.specs.Laws.{SignalsIgnoreLaterPulses};

/// A signal at a tick doesn't depend on what the inputs do at later ticks, in any netlist, valid or not.
pub fn signals_ignore_later_pulses()
    ensures { SignalsIgnoreLaterPulses }
{}
