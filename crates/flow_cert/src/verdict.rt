//! What is said of a flow and epochs.

/// What a flow shows of epochs.
#[derive(Clone, Copy, Debug, PartialEq, Eq)]
pub enum Verdict {
    /// No balanced epochs need fewer DROs than these, which need this many.
    Fewest(u64),
    /// The flow shows nothing, for this cause.
    Bad(Cause),
}

/// Why a flow doesn't show that epochs need the fewest DROs: the first of these that holds.
#[derive(Clone, Copy, Debug, PartialEq, Eq)]
pub enum Cause {
    /// The flow has units for another number of pins.
    Length {
        /// How many pins the flow has units for.
        lines: u64,
        /// How many pins there are.
        pins: u64,
    },
    /// The epochs of the driver and the user of a pin are too near.
    Unbalanced {
        /// The place of the first such pin.
        pin: u32,
        /// The epoch of its user less that of its driver.
        gap: i64,
        /// The least gap that it may have.
        weight: u32,
    },
    /// What leaves a vertex less what enters it isn't what the vertex wants.
    Balance {
        /// The first such vertex.
        vertex: u32,
        /// Units out less units in.
        has: i64,
        /// What they are to be.
        wants: i64,
    },
    /// The flow isn't worth as much as the epochs cost.
    Value {
        /// What the flow is worth.
        value: i64,
        /// How many DROs the epochs cost.
        count: i64,
    },
}
