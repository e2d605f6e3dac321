// What is true of every scale and every list of credentials. Each function's contract is a theorem.
ghost use Rattle.rules.specs.Theorems.{LeastClosed, RoundsBounded, NeverLeadsBack, ReasonsAreEarned, ReasonsWeigh, DerivationsBelow, DerivationsReach};
ghost use Rattle.rules.specs.WorkedBooks.{WorkedTable};

use scale::Scale;
use scale::worked::worked_sums;

// The table when a round changes nothing is the least closed table.
pub fn settles_to_least_closed<S: Scale>()
    ensures { LeastClosed S.Scale.meaning }
{}

// Rounds are at most one more than the memberships settled.
pub fn rounds_are_bounded<S: Scale>()
    ensures { RoundsBounded S.Scale.meaning }
{}

// Reasons never lead back to themselves, whichever of several equal candidates is named.
pub fn reasons_never_lead_back<S: Scale>()
    ensures back { NeverLeadsBack S.Scale.meaning }
    ensures earned { ReasonsAreEarned S.Scale.meaning }
{}

// In the final table an entry is exactly what its reason's candidate weighs there.
pub fn reasons_weigh_their_entries<S: Scale>()
    ensures { ReasonsWeigh S.Scale.meaning }
{}

// Every derivation of a membership weighs at most its entry in a closed table; and for every membership
// settled some derivation weighs exactly its entry.
pub fn derivations_weigh_the_settled<S: Scale>()
    ensures below { DerivationsBelow S.Scale.meaning }
    ensures reach { DerivationsReach S.Scale.meaning }
{}

// Small books and sums, worked by number.
pub fn worked_table()
    ensures { WorkedTable }
{
    worked_sums();
}
