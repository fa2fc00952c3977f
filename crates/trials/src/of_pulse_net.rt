//! Netlists that break each rule, and what valid ones unfold to.

mod broken;
mod unfolding;
