//! The numbers of drivers: used inputs in order, then gates in order.

ghost use Rattle.std.specs.Prelude.{◌≡◌, ◌+◌, ◌^◌, ◌<◌, ◌≤◌, ℕ, All, IfOk, false, length, slice_index, slice_index_or};
ghost use Rattle.std.specs.Prelude.{◌||◌};
ghost use Rattle.gate_net.specs.declared.row.Driver.TheVariants.{Input};
ghost use Rattle.gate_net.specs.Rows.{same_driver};
ghost use Rattle.flow_net.specs.Uses.{is_used, used_below, marked_below, IsInputBelow};

use crate::uses::Use;
use gate_net::Driver;
use net_base::NoMemory;
use std::alloc::Global;

// For each input, whether it is used.
fn used_marks(alloc: Global, inputs: u32, uses: &[Use]) -> Result<Vec<bool>, NoMemory>
    requires { All (λ one. IsInputBelow inputs one.driver) uses.now }
    ensures each { IfOk result (λ marks. length marks.items ≡ inputs) }
    ensures value { IfOk result (λ marks. (i : ℕ) → i < inputs → slice_index_or marks.items i false ≡ is_used i uses.now) }
{
    let mut marks = vec![in alloc; false; inputs as usize]?;
    for one in uses {
        mark(marks.as_mut_slice(), one.driver);
    }
    Ok(marks)
}

// Marks the driver, if it is an input.
fn mark(marks: &mut [bool], driver: Driver)
    requires { IsInputBelow (length marks.old) driver }
    ensures { (i : ℕ) → i < length marks.old → slice_index_or marks.new i false ≡ (same_driver (Input i) driver || slice_index_or marks.old i false) }
{
    if let Driver::Input(i) = driver {
        marks[i as usize] = true;
    }
}

// How many marks are set before each place, and before the end.
fn counts_before(alloc: Global, marks: &[bool]) -> Result<Vec<u32>, NoMemory>
    requires { length marks.now < 2 ^ 32 }
    ensures each { IfOk result (λ counts. length counts.items ≡ length marks.now + 1) }
    ensures value { IfOk result (λ counts. (i : ℕ) → i ≤ length marks.now → slice_index counts.items i ≡ marked_below marks.now i) }
{
    let mut counts = Vec::with_capacity(alloc, marks.len() + 1)?;
    let mut count = 0;
    for mark in marks {
        counts.push(count)?;
        count += u32::from(*mark);
    }
    counts.push(count)?;
    Ok(counts)
}

/// How many used inputs there are below each input, and below the end.
pub(crate) fn input_numbers(alloc: Global, inputs: u32, uses: &[Use]) -> Result<Vec<u32>, NoMemory>
    requires { All (λ one. IsInputBelow inputs one.driver) uses.now }
    ensures each { IfOk result (λ numbers. length numbers.items ≡ inputs + 1) }
    ensures value { IfOk result (λ numbers. (i : ℕ) → i ≤ inputs → slice_index numbers.items i ≡ used_below uses.now i) }
{
    let marks = used_marks(alloc, inputs, uses)?;
    let counts = counts_before(alloc, marks.as_slice())?;
    Ok(counts)
}
