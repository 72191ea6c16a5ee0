// The theorems over every history of a fresh machine. Each function's contract is one of them; the functions do nothing.
#![tactic(auto)]

ghost use Rattle.history.specs.Isolation.{GroupCannotInterfere};
ghost use Rattle.history.specs.Provenance.{AccessesFollowProvenance};
ghost use Rattle.history.specs.Release.{MemoryReturnsWhenTheSweepEnds};

// Every accepted load, store or free goes through a capability that lies within the latest grant of the bytes touched.
pub fn accesses_follow_provenance()
    ensures { AccessesFollowProvenance }
{}

// What a group of compartments does with its own memory and registers changes nothing for the others.
pub fn group_cannot_interfere()
    ensures { GroupCannotInterfere }
{}

// A run that waits at a sweep's open is free from the step on that ends the sweep, and nothing else frees memory.
pub fn memory_returns()
    ensures { MemoryReturnsWhenTheSweepEnds }
{}
