// Decide, on any source and any scale.
ghost use Rattle.std.specs.Prelude.{◌≡◌, ◌||◌, List, length, nat_lt};
ghost use Rattle.book.specs.Kept.{entities, role_names, listed, plain};
ghost use Rattle.book.specs.Plain.{Call, fed};
ghost use Rattle.source.specs.Shows.{joined, layer};
ghost use Rattle.decision.specs.Conditions.{lists};
ghost use Rattle.decision.specs.Decided.{Decided};

use crate::admission::fit;
use crate::request::Request;
use crate::ruling::rule;
use crate::verdict::{DecideRefusal, Verdict, Work};
use book::{Book, Register};
use rules::{Reason, Step};
use scale::Scale;
use source::{Join, Source};

// Whether one of four lengths is too short.
fn is_short(former: usize, latest: usize, reasons: usize, steps: usize, need: usize) -> bool
    ensures { result ≡ (nat_lt former need || (nat_lt latest need || (nat_lt reasons need || nat_lt steps need))) }
{
    former < need || latest < need || reasons < need || steps < need
}

// The lists are handed on one by one: of a struct that lends them, its maker knows nothing afterwards.
fn decide_in<R: Source, S: Scale>(
    register: &Register,
    source: &R,
    request: Request,
    former: &mut [Option<S>],
    latest: &mut [Option<S>],
    reasons: &mut [Reason],
    steps: &mut [Step],
) -> Result<Verdict<S>, DecideRefusal>
    ensures { Decided S.Scale.meaning (length (entities register.now)) (length (role_names register.now)) (R.Source.shows source.now) request.goal request.threshold (lists former.old latest.old reasons.old steps.old) (lists former.new latest.new reasons.new steps.new) result }
{
    let (asked, admitted) = fit::<R, S>(register, source, request)?;
    let need = admitted.cells();
    if is_short(former.len(), latest.len(), reasons.len(), steps.len(), need) {
        return Err(DecideRefusal::ShortList { need });
    }
    Ok(rule(
        &admitted,
        request.goal,
        asked,
        &mut former[..need],
        &mut latest[..need],
        &mut reasons[..need],
        steps,
    ))
}

// Whether the goal's member belongs to its role with at least the threshold, by what a source shows.
pub fn decide<R: Source, S: Scale>(
    register: &Register,
    source: &R,
    request: Request,
    work: Work<'_, S>,
) -> Result<Verdict<S>, DecideRefusal>
    ensures { Decided S.Scale.meaning (length (entities register.now)) (length (role_names register.now)) (R.Source.shows source.now) request.goal request.threshold (lists work.entry.former.now work.entry.latest.now work.entry.reasons.now work.entry.steps.now) (lists work.exit.0.now work.exit.1.0.now work.exit.1.1.0.now work.exit.1.1.1.0.now) result }
{
    let Work {
        former,
        latest,
        reasons,
        steps,
    } = work;
    decide_in(register, source, request, former, latest, reasons, steps)
}

// Decide over the register and its book, with a source before the book and one after it: whatever calls
// came before on them, it decides by the names and credentials of the plain book fed those calls.
pub fn decide_with_book<A: Source + Copy, B: Source + Copy, S: Scale>(
    register: &Register,
    before: A,
    book: &Book,
    after: B,
    request: Request,
    work: Work<'_, S>,
) -> Result<Verdict<S>, DecideRefusal>
    ensures decided { Decided S.Scale.meaning (length (entities register.now)) (length (role_names register.now)) (joined (A.Source.shows before) (joined (layer 1 (listed book.now)) (B.Source.shows after))) request.goal request.threshold (lists work.entry.former.now work.entry.latest.now work.entry.reasons.now work.entry.steps.now) (lists work.exit.0.now work.exit.1.0.now work.exit.1.1.0.now work.exit.1.1.1.0.now) result }
    ensures over_uses { (past : List Call) → plain register.now book.now ≡ fed past → Decided S.Scale.meaning (length (fed past).entities) (length (fed past).role_names) (joined (A.Source.shows before) (joined (layer 1 (fed past).credentials) (B.Source.shows after))) request.goal request.threshold (lists work.entry.former.now work.entry.latest.now work.entry.reasons.now work.entry.steps.now) (lists work.exit.0.now work.exit.1.0.now work.exit.1.1.0.now work.exit.1.1.1.0.now) result }
{
    let Work {
        former,
        latest,
        reasons,
        steps,
    } = work;
    let source = Join::new(before, Join::new(book, after));
    decide_in(register, &source, request, former, latest, reasons, steps)
}
