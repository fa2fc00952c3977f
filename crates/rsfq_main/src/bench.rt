//! The command `bench`: the summary of a generated design's netlist.

ghost use Rattle.std.specs.Prelude.{◌≤◌};
ghost use Rattle.gen_blif.specs.declared.random.TheConstants.{MAX_TABLES};
ghost use Rattle.gen_blif.specs.Random.{gen_text};
ghost use Rattle.phase_rule.specs.declared.level.TheConstants.{MAX_PHASES};
ghost use Rattle.rsfq_main.specs.Commands.{summary_text as summary_in, SumsUp};
ghost use Rattle.rsfq_main.specs.Outcomes.{Answers};

use crate::fault::Fault;
use crate::map::netlist_for;
use crate::summary::summary_of;
use gen_blif::gen_;
use net_base::List;
use std::alloc::Global;

// The summary of a text's netlist.
fn summary_text(alloc: Global, text: &[u8], n: u32) -> Result<List<u8>, Fault>
    requires some { 1 ≤ n }
    requires few { n ≤ MAX_PHASES }
    ensures { Answers (summary_in n text.now) (SumsUp n text.now) result }
{
    match netlist_for(alloc, text, n) {
        Ok(made) => match summary_of(alloc, &made) {
            Ok(bytes) => Ok(bytes),
            Err(_) => Err(Fault::NoMemory),
        },
        Err(fault) => Err(fault),
    }
}

/// The summary of a generated design's netlist: its seed, its tables, 1 to `MAX_TABLES`, and n phases, 1 to `MAX_PHASES`.
pub fn bench(alloc: Global, seed: u64, tables: u32, n: u32) -> Result<List<u8>, Fault>
    requires some_tables { 1 ≤ tables }
    requires few_tables { tables ≤ MAX_TABLES }
    requires some { 1 ≤ n }
    requires few { n ≤ MAX_PHASES }
    ensures { Answers (summary_in n (gen_text seed tables)) (SumsUp n (gen_text seed tables)) result }
{
    match gen_(alloc, seed, tables) {
        Ok(text) => summary_text(alloc, text.as_slice(), n),
        Err(_) => Err(Fault::NoMemory),
    }
}
