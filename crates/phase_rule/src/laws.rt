//! The laws on levels and gaps. A law takes nothing and does nothing: its clause is the law.

ghost use Rattle.phase_rule.specs.Levels.{LevelsAreFew, LevelsFollowDrivers};
ghost use Rattle.phase_rule.specs.Stages.{GapsAgree, NeedLeavesOneWindow};

/// In a well-formed netlist a gate's level is 1 more than the largest level of its drivers, among the levels of all
/// gates.
pub fn levels_follow_drivers()
    ensures { LevelsFollowDrivers }
{}

/// A gate's level is at most its place plus 1.
pub fn levels_are_few()
    ensures { LevelsAreFew }
{}

/// A gap in stages and a gap in epochs give the same need.
pub fn gaps_agree()
    ensures { GapsAgree }
{}

/// Behind as many DROs as a gap needs, 1 to n stages are left: a cell there still sees the pulse in its window.
pub fn need_leaves_one_window()
    ensures { NeedLeavesOneWindow }
{}
