// The theory of shifting: what moving rules between slots keeps, whatever the kind of rule and the device.
#![tactic(auto)]

ghost use Rattle.shifting.specs.Law.{JumpRule, LawOfRuns};

// The jump rule gives a shortest downward chain.
pub fn jump_rule_stands()
    ensures { JumpRule }
{}

// The law of runs holds of every board.
pub fn law_of_runs_stands()
    ensures { LawOfRuns }
{}
