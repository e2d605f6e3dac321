// The refusals of goal, threshold and source.
ghost use Rattle.std.specs.Prelude.{◌≡◌, true, length, Some, IfOk};
ghost use Rattle.book.specs.Kept.{entities, role_names};
ghost use Rattle.decision.specs.Answers.{refusal_in};
ghost use Rattle.decision.specs.Conditions.{goal_enrolled, unfit};

use crate::request::Request;
use crate::verdict::DecideRefusal;
use book::Register;
use heads::{Admitted, admit};
use rules::Membership;
use scale::Scale;
use source::Source;

// A source may show at most this many credentials.
const MOST_CREDENTIALS: usize = 512;

fn is_enrolled(register: &Register, goal: Membership) -> bool
    ensures { result ≡ goal_enrolled (length (entities register.now)) (length (role_names register.now)) goal }
{
    register.has_role(goal.role) && register.has(goal.member)
}

// What the threshold asks for, and what settling stands on.
pub(crate) fn fit<'a, R: Source, S: Scale>(
    register: &Register,
    source: &'a R,
    request: Request,
) -> Result<(S, Admitted<'a, R>), DecideRefusal>
    ensures refuses { refusal_in result ≡ unfit S.Scale.meaning (length (entities register.now)) (length (role_names register.now)) request.goal request.threshold (R.Source.shows source.now) }
    ensures enrolled { IfOk result (λ _. goal_enrolled (length (entities register.now)) (length (role_names register.now)) request.goal ≡ true) }
    ensures asks { IfOk result (λ p. S.Scale.meaning.threshold request.threshold ≡ Some p.0) }
    ensures source { IfOk result (λ p. p.1.source.now ≡ source.now) }
    ensures entities { IfOk result (λ p. p.1.entities ≡ length (entities register.now)) }
{
    if !is_enrolled(register, request.goal) {
        return Err(DecideRefusal::GoalNotEnrolled);
    }
    let asked = S::read_threshold(request.threshold).ok_or(DecideRefusal::UnreadableThreshold)?;
    if source.count() > MOST_CREDENTIALS {
        return Err(DecideRefusal::TooManyCredentials);
    }
    let admitted = admit::<R, S>(register, source)?;
    Ok((asked, admitted))
}
