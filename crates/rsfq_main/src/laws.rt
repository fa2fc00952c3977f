//! What commands make of each other's outputs, as laws. A law takes nothing and does nothing: its clause is the law.

ghost use Rattle.rsfq_main.specs.Laws.{NetlistsPassCheck};

/// `check` has an answer, and no objection, for each netlist that `map` writes, if it isn't too long to be read.
pub fn netlists_pass_check()
    ensures { NetlistsPassCheck }
{}
