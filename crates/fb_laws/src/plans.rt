//! Laws of the plans of systems: what is cut, and what is done on each resource.
ghost use Rattle.fb_laws.specs.Paths.{AllBlocksAreMade, BlocksAreMadeWhereMapped, MisplacedIsTold, NothingPlannedIsMisplaced, OnlyBlocksAreMade};
ghost use Rattle.fb_laws.specs.Plans.{BlocksAreMadeAtHome, BlocksHaveOneHome, CommandsAreInOrder, CutsJoinResources, EndsHaveOneHome, HomesHaveCommands, LinksAreCutOrMade, LinksAreMadeAtHome, ParametersAreSetAtHome, PlacedSystemsHaveCommands, ResourcesHaveTheirCommands};

/// A system with a flat network has a plan with commands where each block has a home, and each mapping is of something.
pub fn placed_systems_have_commands()
    ensures { PlacedSystemsHaveCommands }
{}

/// A block has one home.
pub fn blocks_have_one_home()
    ensures { BlocksHaveOneHome }
{}

/// An end of a link is on one resource.
pub fn ends_have_one_home()
    ensures { EndsHaveOneHome }
{}

/// The cut links are those between blocks with different homes, in the order of the flat network, each once.
pub fn cuts_join_resources()
    ensures { CutsJoinResources }
{}

/// A resource makes the blocks whose home it is, each once, in the order of their paths, and no other block.
#[tactic(auto, using(crate::proofs::CommandRows::blocks_made))]
pub fn blocks_are_made_at_home()
    ensures { BlocksAreMadeAtHome }
{}

/// A resource sets the parameters of the blocks whose home it is, each once, in the order of their places, and no other parameter.
#[tactic(auto, using(crate::proofs::CommandRows::parameters_set))]
pub fn parameters_are_set_at_home()
    ensures { ParametersAreSetAtHome }
{}

/// A resource makes the links both of whose ends are on it, each once, in the order of the flat network, and no other link.
#[tactic(auto, using(crate::proofs::CommandRows::links_made))]
pub fn links_are_made_at_home()
    ensures { LinksAreMadeAtHome }
{}

/// A resource makes blocks first, then sets parameters, then makes links, and is started last.
pub fn commands_are_in_order()
    ensures { CommandsAreInOrder }
{}

/// The resources of the devices have their commands, in the order of the text.
pub fn resources_have_their_commands()
    ensures { ResourcesHaveTheirCommands }
{}

/// Each block has a home, and this is a resource of the plan.
pub fn homes_have_commands()
    ensures { HomesHaveCommands }
{}

/// Each link of the flat network is a cut, or some resource of the plan makes it, and not both.
pub fn links_are_cut_or_made()
    ensures { LinksAreCutOrMade }
{}

/// A resource has the command that makes a block exactly where the nearest mapping of the block's path or above it names this resource. Each block
/// at a path of the system, of whatever depth, is made on one, and no other command makes a block.
pub fn blocks_are_made_where_mapped()
    ensures made { BlocksAreMadeWhereMapped }
    ensures all { AllBlocksAreMade }
    ensures only { OnlyBlocksAreMade }
{}

/// If something is misplaced, a plan names exactly this: the blocks, of all depths, with no mapping of their path or above it, and the mappings at
/// whose path there is no application, block or subapplication instance. If a plan has commands, nothing is misplaced.
#[tactic(auto, using(crate::proofs::PathRows::misplaced_told, crate::proofs::PathRows::nothing_planned))]
pub fn misplaced_is_told()
    ensures told { MisplacedIsTold }
    ensures planned { NothingPlannedIsMisplaced }
{}
