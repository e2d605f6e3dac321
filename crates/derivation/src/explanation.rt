ghost use Rattle.std.specs.Prelude.{ℕ, ◌≤◌, length};
ghost use Rattle.source.specs.Shows.{stated};
ghost use Rattle.derivation.specs.Trail.{cell_count};
ghost use Rattle.derivation.specs.Explained.{Reasoned, Explained};

use crate::trail::Trail;
use heads::Admitted;
use rules::{Membership, Reason, Step};
use scale::Scale;
use source::Source;
use walk::write_grant;

// Writes the steps that the reasons of a settled table lead to from the goal, premises first and goal
// last, and answers how many they are.
pub fn explain<R: Source, S: Scale>(
    admitted: &Admitted<R>,
    reasons: &[Reason],
    goal: Membership,
    steps: &mut [Step],
) -> usize
    requires settled { let a = admitted.now in (n : ℕ) × Reasoned S.Scale.meaning a.entities (stated (R.Source.shows a.source.now)) reasons.now goal n }
    requires room { let a = admitted.now in cell_count (stated (R.Source.shows a.source.now)) a.entities ≤ length steps.old }
    ensures { let a = admitted.now in Explained S.Scale.meaning a.entities (stated (R.Source.shows a.source.now)) reasons.now goal steps.old steps.new result }
{
    let trail = Trail { admitted, reasons };
    let cell = trail.cell_of(goal.role, goal.member).unwrap();
    write_grant(&trail, cell, steps)
}
