//! The chain lengths of drivers, and their sum, the DRO count.

ghost use Rattle.std.specs.Prelude.{◌≡◌, ◌<◌, ◌^◌, ◌==◌, ℕ, IfOk, length, sum, max, cond, slice_index};
ghost use Rattle.flow_net.specs.Epochs.{chain_lengths as lengths_of, dro_count as count_of};

use crate::{Epochs, Net, need};
use net_base::{List, NoMemory};
use std::alloc::Global;

/// The chain length of each driver: the largest need of its pins, since they all tap one chain.
pub fn chain_lengths(alloc: Global, net: &Net, epochs: &Epochs) -> Result<List<u32>, NoMemory>
    ensures value { IfOk result (λ lengths. lengths ≡ lengths_of epochs.now net.now.pins net.now.drivers) }
    ensures few { IfOk result (λ lengths. length lengths < 2 ^ 32) }
{
    let mut lengths = vec![in alloc; 0u32; net.drivers as usize]?;
    for pin in net.pins.as_slice() {
        raise(lengths.as_mut_slice(), pin.driver, need(epochs, pin));
    }
    Ok(List::from_vec(lengths))
}

// Makes the chain of a driver as long as this need, if it isn't.
fn raise(lengths: &mut [u32], driver: u32, need: u32)
    ensures { (d : ℕ) → d < length lengths.old → slice_index lengths.new d ≡ cond (driver == d) (max need (slice_index lengths.old d)) (slice_index lengths.old d) }
{
    let place = driver as usize;
    if place < lengths.len() {
        lengths[place] = need.max(lengths[place]);
    }
}

/// How many DROs the chains of a network have at these epochs.
pub fn dro_count(alloc: Global, net: &Net, epochs: &Epochs) -> Result<u64, NoMemory>
    ensures { IfOk result (λ count. count ≡ count_of net.now epochs.now) }
{
    let lengths = chain_lengths(alloc, net, epochs)?;
    Ok(total_length(&lengths))
}

/// How many DROs chains of these lengths have: their sum.
pub fn total_length(lengths: &List<u32>) -> u64
    requires { length lengths.now < 2 ^ 32 }
    ensures { result ≡ sum lengths.now }
{
    total(lengths.as_slice())
}

fn total(lengths: &[u32]) -> u64
    requires { length lengths.now < 2 ^ 32 }
    ensures { result ≡ sum lengths.now }
{
    let mut total = 0;
    for length in lengths {
        total += u64::from(*length);
    }
    total
}
