// What is shown of networks of every kind.
ghost use Rattle.network.specs.Guarantee.{Guarantee};
ghost use Rattle.network.specs.Shows.{TablesShow};

/// The guarantee stands, for any two kinds of selection, by the types S and R of their states.
pub fn guarantee_stands<S, R>()
    ensures { Guarantee S R }
{}

/// The tables and the functions are one network.
pub fn tables_show<S>()
    ensures { TablesShow S }
{}
