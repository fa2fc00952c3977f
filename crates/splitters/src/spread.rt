//! Spreading one wire over its targets.

ghost use Rattle.std.specs.Prelude.{◌≡◌, ◌++◌, ◌+◌, ◌*◌, ◌^◌, ◌<◌, OnOk};
ghost use Rattle.splitters.specs.Spread.{spread_lines, spread_wires};

use net_base::NoMemory;
use pulse_net::Element;

/// Spreads a wire over targets: adds the splitters, which make the wires from `next` on, and the wire of each target.
/// The depth is at most 32, since each half has at most half of the targets, rounded up.
pub(crate) fn spread(
    elements: &mut Vec<Element>,
    wires: &mut Vec<u32>,
    wire: u32,
    next: u32,
    targets: u32,
) -> Result<(), NoMemory>
    requires { next + 2 * targets < 2 ^ 32 }
    ensures lines { OnOk result (elements.new.items ≡ elements.old.items ++ spread_lines wire next targets) }
    ensures aligned { OnOk result (wires.new.items ≡ wires.old.items ++ spread_wires wire next targets) }
{
    if targets == 0 {
        return Ok(());
    }
    if targets == 1 {
        wires.push(wire)?;
        return Ok(());
    }
    let first = (targets + 1) / 2;
    elements.push(Element::Split {
        from: wire,
        left: next,
        right: next + 1,
    })?;
    spread(elements, wires, next, next + 2, first)?;
    spread(elements, wires, next + 1, next + 2 * first, targets - first)?;
    Ok(())
}
