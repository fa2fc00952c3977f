//! The laws of order and value. A law takes nothing and does nothing: its clause is the law.

ghost use Rattle.blif_model.specs.Laws.{CyclesAreFound, InputsHaveBits, LevelsFollowDrivers, OrderFollowsDrivers, OrderIsByLevel, OrderListsTables, ValuesAreDetermined, ValuesFollowTables};

/// The test for tables on a cycle, which looks at walks of at most as many steps as there are tables, finds each.
pub fn cycles_are_found()
    ensures { CyclesAreFound }
{}

/// Where a design has an order, the level of a table is 1 more than the largest level of its pins, inputs counting 0.
pub fn levels_follow_drivers()
    ensures { LevelsFollowDrivers }
{}

/// An order lists the place of each table once.
pub fn order_lists_tables()
    ensures { OrderListsTables }
{}

/// An order is by level, and within a level by place.
pub fn order_is_by_level()
    ensures { OrderIsByLevel }
{}

/// An order lists each table behind the tables that drive its pins: each pin is an input, or the target of a table before.
pub fn order_follows_drivers()
    ensures { OrderFollowsDrivers }
{}

/// In order, the target of each table has the table's value over the values of its pins.
pub fn values_follow_tables()
    ensures { ValuesFollowTables }
{}

/// In order, the inputs of a regular design have the bits of the row.
pub fn inputs_have_bits()
    ensures { InputsHaveBits }
{}

/// No other values agree on the inputs and follow the tables, so the values of what is driven don't hang on the order.
pub fn values_are_determined()
    ensures { ValuesAreDetermined }
{}
