//! Laws of all owners.
ghost use Rattle.amr_owners.specs.Laws.{AreApart, AreEachOwned, AreInOrder, AreOfLevel, AreOfRank, AreServed, AreTogether};

/// What holds of all owners: the numbers in the list of a rank are its, so no number is in two lists, its patches are of the level
/// and apart as those are, and what the ranks have adds up to what all have. Patches handed out, served and taken back are each
/// served. It does nothing: it stands for its contract.
pub fn of_all_owners()
    ensures rank { AreOfRank }
    ensures level { AreOfLevel }
    ensures each { AreEachOwned }
    ensures order { AreInOrder }
    ensures apart { AreApart }
    ensures together { AreTogether }
    ensures served { AreServed }
{}
