//! The laws. A law takes nothing and does nothing: its clause is the law. One that calls another rests on it.

ghost use Rattle.gen_laws.specs.Named.{DesignsInOrderAreAccepted};
ghost use Rattle.gen_laws.specs.Random.{GeneratedTextsAreAccepted};
ghost use Rattle.gen_laws.specs.RippleCarry.{AddersAreAccepted};

use blif_read::spelled_designs_are_read;

/// A text whose tables stand behind those that drive their pins, and that keeps the limits, is accepted.
pub fn designs_in_order_are_accepted()
    ensures { DesignsInOrderAreAccepted }
{
    spelled_designs_are_read();
}

/// The text of each generated design is accepted: of 1 to 65,536 tables, from any seed.
pub fn generated_texts_are_accepted()
    ensures { GeneratedTextsAreAccepted }
{
    designs_in_order_are_accepted();
}

/// The text of an adder of 1 to 2,048 bits is accepted.
pub fn adders_are_accepted()
    ensures { AddersAreAccepted }
{
    designs_in_order_are_accepted();
}
