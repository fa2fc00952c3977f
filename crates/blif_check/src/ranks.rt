//! A search by depth from each table to those that drive its pins: ranks that tell components apart, and an order.
//!
//! Strongly connected components by one number for each signal (Pearce 2016), with a stack of tasks in the place of
//! recursion. A signal that was entered has the lowest number among those that wait and that it is known to reach. Once its
//! component is complete it has the component's rank, which is above all numbers of signals that wait, and below the ranks
//! of all components before. So a table has the rank of a pin where both are of one component, and else a lower one.
//! Nothing is promised of ranks or order: who uses them tests them. That is why entries are looked up and counts are raised
//! in ways that can't fail, with no proof that they don't.

ghost use Rattle.blif_check.specs.Lookup.{AreDrivers};

use crate::lookup::{entry, pins};
use blif_model::Table;
use net_base::NoMemory;
use std::alloc::Global;

/// What a search leaves: for each signal the rank of its component, and the signals in the order in which they were done.
#[derive(Drop)]
pub(crate) struct Search {
    pub(crate) ranks: Vec<u32>,
    pub(crate) done: Vec<u32>,
    // Tasks, the next one last.
    tasks: Vec<Task>,
    // Signals that are done, and whose components aren't complete.
    waiting: Vec<u32>,
    // How many signals were entered.
    entered: u32,
    // The rank of the next component.
    rank: u32,
}

#[derive(Clone, Copy, Drop)]
enum Task {
    // To enter a signal, unless it was entered before.
    Enter(u32),
    // To look at a pin of a signal that was entered with this number, and at the pins behind it.
    Look {
        signal: u32,
        number: u32,
        pin: usize,
    },
}

impl Search {
    fn new(alloc: Global, names: usize) -> Result<Search, NoMemory> {
        Ok(Search {
            ranks: vec![in alloc; 0; names]?,
            done: Vec::new(alloc),
            tasks: Vec::new(alloc),
            waiting: Vec::new(alloc),
            entered: 0,
            rank: u32::MAX,
        })
    }

    fn set_rank(&mut self, signal: u32, rank: u32) {
        if let Some(old) = self.ranks.get_mut(signal as usize) {
            *old = rank;
        }
    }

    fn enter(&mut self, signal: u32) -> Result<(), NoMemory> {
        if entry(self.ranks.as_slice(), signal) == 0 {
            let number = self.entered.saturating_add(1);
            self.entered = number;
            self.set_rank(signal, number);
            self.tasks.push(Task::Look {
                signal,
                number,
                pin: 0,
            })?;
        }
        Ok(())
    }

    fn look(&mut self, signal: u32, number: u32, pin: usize, driver: u32) -> Result<(), NoMemory> {
        let rank = entry(self.ranks.as_slice(), driver);
        if rank == 0 {
            self.tasks.push(Task::Look {
                signal,
                number,
                pin,
            })?;
            self.tasks.push(Task::Enter(driver))?;
            return Ok(());
        }
        if rank < entry(self.ranks.as_slice(), signal) {
            self.set_rank(signal, rank);
        }
        self.tasks.push(Task::Look {
            signal,
            number,
            pin: pin.saturating_add(1),
        })?;
        Ok(())
    }

    // A signal whose number is still its own is the first of its component, and all that waits with it is of the component.
    fn finish(&mut self, signal: u32, number: u32) -> Result<(), NoMemory> {
        self.done.push(signal)?;
        self.waiting.push(signal)?;
        if entry(self.ranks.as_slice(), signal) < number {
            return Ok(());
        }
        for _ in 0..self.waiting.len() {
            let Some(other) = self.waiting.pop() else {
                break;
            };
            if entry(self.ranks.as_slice(), other) < number {
                self.waiting.push(other)?;
                break;
            }
            self.set_rank(other, self.rank);
        }
        self.rank = self.rank.saturating_sub(1);
        Ok(())
    }

    fn step(
        &mut self,
        drivers: &[Option<u32>],
        tables: &[Table],
        task: Task,
    ) -> Result<(), NoMemory>
        requires { AreDrivers drivers.now tables.now }
    {
        match task {
            Task::Enter(signal) => self.enter(signal),
            Task::Look {
                signal,
                number,
                pin,
            } => match pins(drivers, tables, signal).get(pin) {
                Some(driver) => self.look(signal, number, pin, *driver),
                None => self.finish(signal, number),
            },
        }
    }

    fn run(&mut self, drivers: &[Option<u32>], tables: &[Table]) -> Result<(), NoMemory>
        requires { AreDrivers drivers.now tables.now }
    {
        for table in tables {
            self.tasks.push(Task::Enter(table.target))?;
        }
        for _ in 0..most_tasks(drivers.len(), tables) {
            let Some(task) = self.tasks.pop() else {
                break;
            };
            self.step(drivers, tables, task)?;
        }
        Ok(())
    }
}

// A signal is entered and finished once, and a pin is looked at twice and entered once; a task for each table stands there
// at the start.
fn most_tasks(names: usize, tables: &[Table]) -> usize {
    let mut most = names.saturating_mul(2).saturating_add(tables.len());
    for table in tables {
        most = most.saturating_add(table.pins.len().saturating_mul(3));
    }
    most
}

/// Searches from each table.
pub(crate) fn search_by_depth(
    alloc: Global,
    drivers: &[Option<u32>],
    tables: &[Table],
) -> Result<Search, NoMemory>
    requires { AreDrivers drivers.now tables.now }
{
    let mut search = Search::new(alloc, drivers.len())?;
    search.run(drivers, tables)?;
    Ok(search)
}
