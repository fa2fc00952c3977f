//! The laws on least formulas. A law takes nothing and does nothing: its clause is the law.

ghost use Rattle.pattern_table.specs.Laws.{LeastFormulasAreLeast, FormulasMeanTheirTables, LeavesMeanTheirTables};

/// A least formula is the head of a uniform formula with its table; no uniform formula with that table costs less, and the head of
/// none comes before it in order. Where there is no least formula, no uniform formula of the depth has the table.
pub fn least_formulas_are_least()
    ensures { LeastFormulasAreLeast }
{}

/// Whatever the values of the leaves, the value of a table that has a least formula is its cell's over the values of the parts'
/// tables, each of which has a formula of the depth below. It costs what the cell and the least formulas of the parts do.
pub fn formulas_mean_their_tables()
    ensures { FormulasMeanTheirTables }
{}

/// Whatever the values of the leaves, the value of a leaf's table is the leaf's.
pub fn leaves_mean_their_tables()
    ensures { LeavesMeanTheirTables }
{}
