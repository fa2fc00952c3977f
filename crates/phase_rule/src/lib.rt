//! Levels and phases of gates, the weight of a pin, and needs.
//!
//! With n phases, the clock of phase p comes at the ticks that are p modulo n, and an epoch is n ticks. A gate's level
//! is 1 more than the largest level of its drivers, inputs counting 0, and its phase is its level modulo n. A gate of
//! epoch e and phase p stands at stage n * e + p. Inputs and the sink have phase 0.
//!
//! Promised: `levels`, `phases` and `weight` answer these (`value`); each phase is below n (`below`). The laws:
//! `levels_follow_drivers`, a gate's level over the finished list is 1 more than the largest of its drivers';
//! `levels_are_few`, a level is at most the gate's place plus 1. `gaps_agree` is the law on which path balancing rests: a
//! user comes later than its driver exactly where its epoch is the weight or more above the driver's, and the DROs
//! between them are the same counted in stages (the gap over n, rounded up, less 1) and in epochs (the gap less the
//! weight). `need_leaves_one_window`: behind those DROs, 1 to n stages are left. The only refusal is `NoMemory`.
//! Only tested, by runs of the program: that memory suffices where it is ample.
//! Not promised: that a level modulo n is the best choice of a phase.
//!
//! Read `specs/Levels.antt` and `specs/Stages.antt`. The central proof is `proofs/Gaps.antt`.
#![tactic(auto)]

mod laws;
mod level;
mod stage;

pub use laws::{gaps_agree, levels_are_few, levels_follow_drivers, need_leaves_one_window};
pub use level::{MAX_PHASES, levels, phases};
pub use stage::weight;
