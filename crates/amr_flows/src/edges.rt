//! Laws that join what several crates know of a level's edges, so that a step of levels can stand on all of them. Each call
//! has an empty body, and what it ensures is the law.

ghost use Rattle.amr_flows.specs.Edges.{BaseHasNoRegisterCells, BordersArePut, FlowsAreOnEdges, FluxesRepeat};
ghost use Rattle.amr_flows.specs.Edges.{PatchesAreCoarsenable, PutsAreOnEdges, RegistersServeLayouts};

/// What the layout has a patch put, the size of what flows through a face, is of a face on the patch's edges. So is each of its flows to
/// words.
pub fn posts_are_on_edges()
    ensures puts { PutsAreOnEdges }
    ensures flows { FlowsAreOnEdges }
{}

/// Where a patch reads a border face, its owner puts the flux through the face that it stands for, past the end of a
/// periodic axis too. One flux is through both.
pub fn borders_are_put()
    ensures put { BordersArePut }
    ensures flux { FluxesRepeat }
{}

/// The register cells of a level, in their order, are what the layout of the next finer level takes. That of level 0 takes
/// none.
pub fn registers_serve_layouts()
    ensures finer { RegistersServeLayouts }
    ensures base { BaseHasNoRegisterCells }
{}

/// Boxes above level 0 lie on multiples of the blocking factor, and `max_grid_size` is even. So the patches that they are
/// chopped into cut no cell of the coarser level, as `amr_transfer::sum_up` asks.
pub fn patches_are_coarsenable()
    ensures { PatchesAreCoarsenable }
{}
