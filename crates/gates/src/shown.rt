// Theorems on the definitions: each is the contract of a function that does nothing.
ghost use Rattle.gates.specs.Figures.{Figures};
ghost use Rattle.gates.specs.Lists.{OneGateList, EndsOrdinary};
ghost use Rattle.gates.specs.Lookup.{ListsFollowPlans, SettlingKeeps};

/// The worked example, computed from the definitions.
#[tactic(auto, using(crate::proofs::Example::figures))]
pub fn figures_stand()
    ensures { Figures }
{}

/// A port of a plan has one gate list and no other, so that the promise of making it pins the list wholly.
pub fn gate_list_is_one()
    ensures { OneGateList }
{}

/// The gate lists of a port yield what the plans say, for one plan and while the plan changes.
#[tactic(auto, using(crate::proofs::Follows::lists_follow_plans))]
pub fn lists_follow_plans()
    ensures { ListsFollowPlans }
{}

/// Once the next list of a timetable has begun, settling alters none of its octets.
#[tactic(auto, using(crate::proofs::Changes::settling_keeps))]
pub fn settling_keeps()
    ensures { SettlingKeeps }
{}

/// The last entry of the gate list of a port of a checked plan is 0x7F, so that a list drawn out by its last octet lets ordinary frames pass.
pub fn last_entry_is_ordinary()
    ensures { EndsOrdinary }
{}
