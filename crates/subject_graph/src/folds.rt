//! Folds of signals by halves.

ghost use Rattle.std.specs.Prelude.{◌≡◌, ◌<◌, ◌≤◌, ◌^◌, length, All, IfOk};
ghost use Rattle.net_base.specs.Graph.{IsProper, IsRefThere};
ghost use Rattle.subject_graph.specs.Answers.{Makes};
ghost use Rattle.subject_graph.specs.Steps as spec;

use crate::{Builder, GraphFault};
use net_base::Ref;

/// What a fold makes of signals.
#[derive(Clone, Copy, Debug)]
pub(crate) enum Folding {
    /// Their conjunction.
    All,
    /// Their disjunction.
    Any,
}

fn unit_of(kind: Folding) -> Ref
    ensures { result ≡ spec.unit_of kind }
{
    match kind {
        Folding::All => Ref::Const(true),
        Folding::Any => Ref::Const(false),
    }
}

fn two(builder: &mut Builder, kind: Folding, x: Ref, y: Ref) -> Result<Ref, GraphFault>
    requires first { IsRefThere (length builder.old.nodes) x }
    requires second { IsRefThere (length builder.old.nodes) y }
    ensures made { Makes result builder.new (spec.with_two kind builder.old x y) }
    ensures there { IfOk result (IsRefThere (length builder.new.nodes)) }
    ensures grows { length builder.old.nodes ≤ length builder.new.nodes }
{
    match kind {
        Folding::All => builder.and(x, y),
        Folding::Any => builder.or(x, y),
    }
}

fn first_half(signals: usize) -> usize
    requires { signals < 2 ^ 63 }
    ensures { result ≡ spec.first_half signals }
{
    (signals + 1) / 2
}

/// Folds signals by halves. The depth is the logarithm of how many there are, at most 23 for the rows that a text may have.
pub(crate) fn fold(builder: &mut Builder, kind: Folding, signals: &[Ref]) -> Result<Ref, GraphFault>
    requires { All (IsRefThere (length builder.old.nodes)) signals.now }
    ensures made { Makes result builder.new (spec.folded kind builder.old signals.now) }
    ensures there { IfOk result (IsRefThere (length builder.new.nodes)) }
    ensures grows { length builder.old.nodes ≤ length builder.new.nodes }
{
    if signals.is_empty() {
        return Ok(unit_of(kind));
    }
    if signals.len() == 1 {
        return Ok(signals[0]);
    }
    let (front, back) = signals.split_at(first_half(signals.len()));
    let first = fold(builder, kind, front)?;
    let rest = fold(builder, kind, back)?;
    two(builder, kind, first, rest)
}
