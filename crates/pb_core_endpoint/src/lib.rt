//! From the rules of a flat protocol to the endpoint of each rank.
#![tactic(auto)]

ghost use Rattle.pb_core_endpoint.specs.Core.{CoreRanks};
ghost use Rattle.pb_core_endpoint.specs.File.{FilesAreShaped, FileRanks};
ghost use Rattle.pb_core_endpoint.specs.Once.{EndpointsDoOnce};
ghost use Rattle.pb_core_endpoint.specs.Theorem.{EndpointsDo};

/// Where a flat protocol keeps the rules, the endpoints of its ranks follow its sequential run, go on where it goes on
/// for them, and do it together in whatever order their events come.
pub fn bridge()
    ensures { EndpointsDo }
{}

/// On the way no rank goes back to a loop twice without an action between.
pub fn once()
    ensures { EndpointsDoOnce }
{}

/// Where a core keeps the rules at one N, all ranks together do its sequential run, each by its endpoint, and stop only at
/// its end.
pub fn all_ranks()
    ensures { CoreRanks }
{}

/// Where a file is accepted, all ranks together do its protocol for every N of its range, each by its endpoint.
pub fn file_ranks()
    ensures shape { FilesAreShaped }
    ensures ranks { FileRanks }
{}
