//! A simulator of netlists of pulse elements: the pulses tick by tick, and what is read at the outputs for rows of inputs.
//!
//! What a netlist means is defined in `pulse_net`: a signal for each wire, which says at which ticks it pulses. `Sim` runs
//! this forwards. It keeps a bit for each pin, which says whether the pin's wire pulsed since the cell's last clock. In a
//! tick each cell at its clock fires: it looks at its bits, which its clock then clears, and pulses where its value is true.
//! Then each pin takes the pulse of its wire. A wire does what its root does, the input or the cell whose pulse it carries
//! through splitters, so splitters are never touched. For each phase it is listed once which cells fire and which pins have
//! one of them as their root, and beside it which pins have an input. A tick goes over the lists of its phase, and over that
//! of the inputs where one pulses; of the other elements it reads and writes nothing.
//!
//! Promised by `Sim::new`: a simulator of a valid netlist stands for no pulses (`stands`). By `tick`, which takes no memory:
//! whichever pulses the simulator stands for, it shows those of the netlist at the next tick (`outputs`), and then stands
//! for one tick more (`stands`). By `run_rows`: the text is that of the values read, a line for each row (`lines`). By
//! `read_rows`: the rows of a text, or the first line that is no row with its number and cause (`rows`); with 65,536 rows
//! before it a line is `TooManyRows` whatever it is, a wrong length or a missing line feed is `RowShape`, and another
//! character `RowChar`. The only other error of all of them is `NoMemory`. `signals_ignore_later_pulses` says that a signal
//! at a tick doesn't depend on what inputs do later.
//! Not promised: how long a tick takes. It is as long as the lists of its phase, the inputs and the outputs. Cells, pins and
//! pulses follow no pattern, so nothing that is done for a cell or a pin waits for a branch on what they are. An element has
//! 32 bytes, a cell 8 more in its phase's list, a pin 12 in that of its root, and each wire a byte. To lay the lists out
//! takes a pass over all elements for each phase.
//!
//! Read `specs/Rows.antt` down to `rows_of` for rows; `specs/Simulators.antt` down to `StandsFor` for what a simulator
//! stands for, where `since_clock` says how far back a pin's bit remembers; `specs/Reading.antt` for the lines, and
//! `specs/Laws.antt` for the law. `specs/Sites.antt` says what one tick does to bits, `specs/Roots.antt` and
//! `specs/Wakes.antt` which of them it touches, and `specs/Running.antt` how far a run has come; no promise above rests on
//! how they say it.
//! `proofs/Examples.antt` evaluates the definitions on small netlists and texts.
//! Central proofs: one tick (`proofs/TickStands.antt`), an induction over the elements beside their signals; what is kept
//! at a clock tick is what pulsed within n ticks, for n phases (`proofs/ClockWindow.antt`); to fire cells and then deliver
//! pulses does what the elements do in order (`proofs/TurnIsRight.antt`); signals and later pulses
//! (`proofs/LaterPulses.antt`); runs over rows (`proofs/RunsAreRight.antt`).
#![tactic(auto)]

mod fault;
mod laws;
mod layout;
mod plan;
mod root;
mod rows;
mod run;
mod sim;
mod site;
mod turn;
mod wakes;

pub use fault::{RowFault, RowKind, RowsFault};
pub use laws::signals_ignore_later_pulses;
pub use rows::{MAX_ROWS, read_rows};
pub use run::run_rows;
pub use sim::Sim;
