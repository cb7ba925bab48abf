//! Theorems on the definitions: each is the contract of a function that does nothing.
ghost use Rattle.scenario.specs.Examples.{Examples};
ghost use Rattle.scenario.specs.Written.{ReadsBack};

/// The examples of `specs/Examples.antt` are read as they say.
pub fn examples_stand()
    ensures { Examples }
{}

/// A line that is written for a call is read as that call.
pub fn calls_read_back()
    ensures { ReadsBack }
{}
