//! One round, given labels: the receiver, the path, and one unit along it.

ghost use Rattle.std.specs.Prelude.{◌≡◌, ◌<◌, ◌-◌, ◌^◌, Some, false, length, map, All, OnOk, OnErr};
ghost use Rattle.flow_net.specs.declared.net.Units.{Units as TheUnits};
ghost use Rattle.stage_flow.specs.Residual.{vertex_count};
ghost use Rattle.stage_flow.specs.Rounds.{sender, path_of, after_round};
ghost use Rattle.stage_flow.specs.Given.{IsNetwork, at_vertex, count_at};
ghost use Rattle.stage_flow.specs.Rounds as rounds;
ghost use Rattle.stage_flow.specs.LawsOfWalks.{HasUnits};
ghost use Rattle.stage_flow.specs.Passes.{mark_at};
ghost use Rattle.stage_flow.specs.Sending.{way_of, side, HasRoom};
ghost use Rattle.stage_flow.specs.Staleness.{AreKept};

use crate::arcs::Arcs;
use crate::search::Labels;
use crate::tight::{PathRoom, find_path};
use crate::ways::Step;
use flow_net::{Flow, Units};
use net_base::{List, NoMemory};
use std::alloc::Global;
use std::mem::replace;

// One more, or one less.
fn moved(takes: bool, count: u32) -> u32
    requires { count < 2 ^ 32 - 1 }
    ensures { result ≡ rounds.moved takes count }
{
    if takes {
        count.saturating_sub(1)
    } else {
        count + 1
    }
}

// One unit along a residual arc.
fn with_unit(step: Step, units: Units) -> Units
    requires { side step.number units < 2 ^ 32 - 1 }
    ensures { result ≡ rounds.with_unit (way_of step) units }
{
    let Units { forward, back } = units;
    if step.number % 2 == 0 {
        Units {
            forward: moved(step.takes, forward),
            back,
        }
    } else {
        Units {
            forward,
            back: moved(step.takes, back),
        }
    }
}

// One unit along a path.
fn send_along(units: &mut [Units], path: &[Step])
    requires { HasRoom (map way_of path.now) (record { pins = units.old }) }
    ensures { record { pins = units.new } ≡ rounds.sent_along (map way_of path.now) (record { pins = units.old }) }
{
    for step in path {
        let place = (step.number / 2) as usize;
        units[place] = with_unit(*step, units[place]);
    }
}

/// Sends one unit from the sender, which isn't marked, along the path that the labels show, which is left in the room. After `NoMemory`
/// the flow is unchanged.
pub(crate) fn send(
    alloc: Global,
    arcs: &Arcs<'_>,
    labels: &Labels,
    marks: &[bool],
    from: u32,
    flow: &mut Flow,
    room: &mut PathRoom,
) -> Result<(), NoMemory>
    requires net { IsNetwork arcs.now }
    requires units { HasUnits arcs.now flow.old }
    requires kept { AreKept arcs.now flow.old (at_vertex labels.now.far) (count_at labels.now.hops) marks.now }
    requires fresh { mark_at marks.now from ≡ false }
    requires each { (length labels.now.far ≡ vertex_count arcs.now) × (length labels.now.hops ≡ vertex_count arcs.now) }
    requires sender { sender arcs.now flow.old ≡ Some from }
    requires room { All (λ (units : TheUnits). (units.forward < 2 ^ 32 - 1) × (units.back < 2 ^ 32 - 1)) flow.old.pins }
    requires reached { length room.old.reached.marks.items ≡ vertex_count arcs.now }
    ensures reached { length room.new.reached.marks.items ≡ vertex_count arcs.now }
    ensures ok { OnOk result (flow.new ≡ after_round arcs.now flow.old) }
    ensures path { OnOk result (map way_of room.new.path.items ≡ path_of arcs.now flow.old (Some from)) }
    ensures err { OnErr result (flow.new ≡ flow.old) }
{
    find_path(arcs, flow, labels, marks, from, room)?;
    // All memory is taken, so from here on nothing fails.
    let pins = replace(&mut flow.pins, List::new(alloc));
    let mut units = pins.into_vec();
    send_along(units.as_mut_slice(), room.path.as_slice());
    flow.pins = List::from_vec(units);
    Ok(())
}
