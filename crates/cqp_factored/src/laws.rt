//! Laws of factored paths and of their groups. Each call does nothing, and its contract is the
//! laws.

ghost use Rattle.cqp_factored.specs.FactoredPath.{FactoredPathLaw, ShownPathLaw};
ghost use Rattle.cqp_factored.specs.GroupLaws.{GroupLaw, GroupLevelLaw, JoinLaw, LevelLaw};
ghost use Rattle.cqp_factored.specs.GroupLaws.{PlacesLaw, SplitLaw};

/// Each run shows exactly one path, and the front and the cells stand for its end. From a derivable
/// process that needs at most 12 qubits it has at most 13 events for each node that may be reduced,
/// and one more.
pub fn path_laws()
    ensures shown { ShownPathLaw }
    ensures factored { FactoredPathLaw }
{}

/// The front's level is at most 180. A group's is within it, and where an H has room there, the
/// group's exponent is below 90.
pub fn level_laws()
    ensures within { LevelLaw }
    ensures groups { GroupLevelLaw }
{}

/// Distinct qubits of a group have distinct places in it. Where at most 12 qubits were made, each
/// group is what a factor is, and two groups can be joined.
pub fn group_laws()
    ensures places { PlacesLaw }
    ensures are { GroupLaw }
    ensures joins { JoinLaw }
{}

/// A split that is enabled is that of the group as a factor.
pub fn split_laws()
    ensures { SplitLaw }
{}
