// The verdict over credentials that are fit to be settled.
ghost use Rattle.std.specs.Prelude.{◌≡◌, ◌<◌, ◌≤◌, length};
ghost use Rattle.source.specs.Shows.{stated};
ghost use Rattle.heads.specs.Enrolled.{RoleIn};
ghost use Rattle.decision.specs.Conditions.{lists, many_cells};
ghost use Rattle.decision.specs.Decided.{RuledCells};

use crate::verdict::Verdict;
use derivation::explain;
use heads::Admitted;
use rules::{Membership, Reason, Step};
use scale::Scale;
use settle::{settle, weight_of};
use source::Source;

// Settles on lists that are as long as the cells, and grants where the goal's weight is at least what is
// asked.
pub(crate) fn rule<R: Source, S: Scale>(
    admitted: &Admitted<'_, R>,
    goal: Membership,
    asked: S,
    former: &mut [Option<S>],
    latest: &mut [Option<S>],
    reasons: &mut [Reason],
    steps: &mut [Step],
) -> Verdict<S>
    requires role { RoleIn admitted.now.entities goal.role }
    requires member { goal.member.0 < admitted.now.entities }
    requires former_long { length former.old ≡ many_cells admitted.now.entities (stated (R.Source.shows admitted.now.source.now)) }
    requires latest_long { length latest.old ≡ many_cells admitted.now.entities (stated (R.Source.shows admitted.now.source.now)) }
    requires reasons_long { length reasons.old ≡ many_cells admitted.now.entities (stated (R.Source.shows admitted.now.source.now)) }
    requires steps_room { many_cells admitted.now.entities (stated (R.Source.shows admitted.now.source.now)) ≤ length steps.old }
    ensures { RuledCells S.Scale.meaning admitted.now.entities (stated (R.Source.shows admitted.now.source.now)) goal asked steps.old (lists former.new latest.new reasons.new steps.new) result }
{
    let rounds = settle(admitted, former, latest, reasons);
    let head = admitted.head_of(goal.role);
    let best = weight_of(latest, head, admitted.entities, goal.member.0 as usize);
    let Some(weight) = best else {
        return Verdict::Denied { best: None, rounds };
    };
    if !weight.at_least(asked) {
        return Verdict::Denied {
            best: Some(weight),
            rounds,
        };
    }
    let steps = explain::<R, S>(admitted, reasons, goal, steps);
    Verdict::Granted {
        weight,
        steps,
        rounds,
    }
}
