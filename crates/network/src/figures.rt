// Theorems on the definitions: each is the contract of a function that does nothing.
ghost use Rattle.network.specs.ChangeTick.{ChangeTickLaw};
ghost use Rattle.network.specs.NetworkFigures.{NetworkFigures};

/// The worked example, from the plan to what the calls of its network reply.
pub fn network_figures_stand()
    ensures { NetworkFigures }
{}

/// The tick of a change is the least that it can be.
pub fn change_tick_is_least()
    ensures { ChangeTickLaw }
{}
