//! The law on what refuses a text. A law takes nothing and does nothing: its clause is the law.

ghost use Rattle.synth.specs.Laws.{RefusalsHaveCauses};

/// Where a text has no netlist there is a cause in it: the definition refuses none for want of memory.
pub fn refusals_have_causes()
    ensures { RefusalsHaveCauses }
{}
