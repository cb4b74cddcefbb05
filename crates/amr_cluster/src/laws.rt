//! Laws of clusters and of the tags that they are made from. Each call has an empty body, and what it ensures is the
//! law: it holds for every set of cells.

ghost use Rattle.amr_cluster.specs.Grown.{TagsGrowInDomain, TagsGrowOnLevel};
ghost use Rattle.amr_cluster.specs.Laws.{ClusterIsRecursive, ClustersAreSound};

/// The boxes of a set are disjoint, cover it, and each is the least box round its cells and efficient, or has no cut.
pub fn clusters_are_sound()
    ensures { ClustersAreSound }
{}

/// The boxes of a set are its least box where that is efficient or has no cut. Else they are the boxes of the cells
/// below the cut, and then those of the rest.
pub fn cluster_is_recursive()
    ensures { ClusterIsRecursive }
{}

/// A set of tags over a domain, with the domain's periodic axes, grows as the definition of grown tags has it.
/// `domain`: by any number of cells. `level`: on a level by the problem's buffer.
pub fn tags_grow_as_defined()
    ensures domain { TagsGrowInDomain }
    ensures level { TagsGrowOnLevel }
{}
