// What a round offers to the cells.
ghost use Rattle.std.specs.Prelude.{◌≡◌, ◌<◌, length, IfSome};
ghost use Rattle.source.specs.Shows.{stated};
ghost use Rattle.scale.specs.Scale.{combined};
ghost use Rattle.rules.specs.Cells.{heads, number};
ghost use Rattle.heads.specs.Enrolled.{BodyIn, CredentialIn};
ghost use Rattle.settle.specs.Entries.{entry_at, taken, weight_at, in_row, Held, Put, Front, RowOf};
ghost use Rattle.settle.specs.Moves.{flags, gives};

use crate::round::Round;
use credential::{Body, Credential, Entity, Record, Role, RoleName};
use rules::Reason;
use scale::Scale;
use scale::weight::{combine, strictly_better};
use source::Source;

// The middle of a reason where its credential is no link: the number that the rules give it, since what the
// reasons are is pinned by them.
const NO_MIDDLE: Entity = Entity(0);

// The weight that a list has for a head and a member, none for a role that is no head. The width of a row, count,
// stays beside the list, since any list that has rows of that width may be asked.
pub fn weight_of<S: Scale>(
    former: &[Option<S>],
    head: Option<u16>,
    count: usize,
    member: usize,
) -> Option<S>
    requires held { Held (length former.now) count head }
    requires within { member < count }
    ensures { result ≡ weight_at former.now count head member }
{
    former[head? as usize * count + member]
}

// A strictly better offer takes the cell, with its reason.
// The lists are two parameters, here and below: who makes a struct that lends parts of both learns nothing of
// them, and with one that lends them whole each function would promise that it still lends the same.
fn put_offer<S: Scale>(
    weights: &mut [Option<S>],
    reasons: &mut [Reason],
    cell: usize,
    weight: Option<S>,
    reason: Reason,
)
    requires weights_room { cell < length weights.old }
    requires reasons_room { cell < length reasons.old }
    ensures { Put cell (taken S.Scale.meaning weight reason) (entry_at weights.old reasons.old) (entry_at weights.new reasons.new) }
{
    if strictly_better(weight, weights[cell]) {
        weights[cell] = weight;
        reasons[cell] = reason;
    }
}

// Offers each member of a row its weight in another, combined with a weight.
fn offer_row<S: Scale>(
    near: Option<S>,
    far: Option<&[Option<S>]>,
    reason: Reason,
    weights: &mut [Option<S>],
    reasons: &mut [Reason],
)
    requires far_level { IfSome far (λ row. length row.now ≡ length weights.old) }
    requires level { length reasons.old ≡ length weights.old }
    ensures { Front (length weights.old) (λ x. taken S.Scale.meaning (combined S.Scale.meaning near (in_row far.entry x)) reason) (entry_at weights.old reasons.old) (entry_at weights.new reasons.new) }
{
    let (Some(_), Some(row)) = (near, far) else {
        return;
    };
    for (member, weight) in row.iter().enumerate() {
        put_offer(weights, reasons, member, combine(near, *weight), reason);
    }
}

// Offers each member of a row its weights in two others, combined.
fn offer_both<S: Scale>(
    first: Option<&[Option<S>]>,
    second: Option<&[Option<S>]>,
    reason: Reason,
    weights: &mut [Option<S>],
    reasons: &mut [Reason],
)
    requires first_level { IfSome first (λ row. length row.now ≡ length weights.old) }
    requires second_level { IfSome second (λ row. length row.now ≡ length weights.old) }
    requires level { length reasons.old ≡ length weights.old }
    ensures { Front (length weights.old) (λ x. taken S.Scale.meaning (combined S.Scale.meaning (in_row first.entry x) (in_row second.entry x)) reason) (entry_at weights.old reasons.old) (entry_at weights.new reasons.new) }
{
    let (Some(first), Some(second)) = (first, second) else {
        return;
    };
    for (member, (near, far)) in first.iter().zip(second).enumerate() {
        put_offer(weights, reasons, member, combine(*near, *far), reason);
    }
}

// Offers a row what each middle of a role gives by its own role of that name, where one of the two roles'
// rows changed.
fn offer_link<R: Source, S: Scale>(
    round: &Round<'_, '_, R, S>,
    place: u16,
    role: Role,
    name: RoleName,
    weights: &mut [Option<S>],
    reasons: &mut [Reason],
)
    requires known { BodyIn round.now.admitted.now.entities (Body.Link role name) }
    requires weights_long { length weights.old ≡ round.now.admitted.now.entities }
    requires reasons_long { length reasons.old ≡ round.now.admitted.now.entities }
    ensures { let rs = heads (stated (R.Source.shows round.now.admitted.now.source.now)) in let n = round.now.admitted.now.entities in Front n (gives S.Scale.meaning rs n round.now.former.now (flags round.now.changed) place (Body.Link role name)) (entry_at weights.old reasons.old) (entry_at weights.new reasons.new) }
{
    let head = round.head_of(role);
    let Some(middles) = round.row(head) else {
        return;
    };
    for (k, near) in middles.iter().enumerate() {
        let middle = Entity(k as u8);
        let second = round.head_of(Role {
            entity: middle,
            name,
        });
        if round.either_moved(head, second) {
            let reason = Reason { place, middle };
            offer_row(*near, round.row(second), reason, weights, reasons);
        }
    }
}

// Offers a row what a credential's body gives by the ways that are worth it.
fn offer_body<R: Source, S: Scale>(
    round: &Round<'_, '_, R, S>,
    place: u16,
    body: Body<Record>,
    weights: &mut [Option<S>],
    reasons: &mut [Reason],
)
    requires known { BodyIn round.now.admitted.now.entities body }
    requires weights_long { length weights.old ≡ round.now.admitted.now.entities }
    requires reasons_long { length reasons.old ≡ round.now.admitted.now.entities }
    ensures { let rs = heads (stated (R.Source.shows round.now.admitted.now.source.now)) in let n = round.now.admitted.now.entities in Front n (gives S.Scale.meaning rs n round.now.former.now (flags round.now.changed) place body) (entry_at weights.old reasons.old) (entry_at weights.new reasons.new) }
{
    let reason = Reason {
        place,
        middle: NO_MIDDLE,
    };
    match body {
        Body::Member(x, stated) => {
            if round.changed.is_none() {
                let weight = S::read_credential(stated);
                put_offer(weights, reasons, x.0 as usize, weight, reason);
            }
        }
        Body::Delegation(b) => {
            let head = round.head_of(b);
            if round.has_moved(head) {
                let full = Some(S::full());
                offer_row(full, round.row(head), reason, weights, reasons);
            }
        }
        Body::Link(b, name) => offer_link(round, place, b, name, weights, reasons),
        Body::Intersection(b, d) => {
            let first = round.head_of(b);
            let second = round.head_of(d);
            if round.either_moved(first, second) {
                offer_both(
                    round.row(first),
                    round.row(second),
                    reason,
                    weights,
                    reasons,
                );
            }
        }
    }
}

// Offers the row of a credential's head what the credential gives by the ways that are worth it.
pub(crate) fn offer_credential<R: Source, S: Scale>(
    round: &Round<'_, '_, R, S>,
    place: u16,
    c: Credential,
    latest: &mut [Option<S>],
    reasons: &mut [Reason],
)
    requires known { CredentialIn round.now.admitted.now.entities c }
    requires latest_level { length latest.old ≡ length round.now.former.now }
    requires reasons_level { length reasons.old ≡ length round.now.former.now }
    ensures { let rs = heads (stated (R.Source.shows round.now.admitted.now.source.now)) in let n = round.now.admitted.now.entities in RowOf (number rs c.head) n (gives S.Scale.meaning rs n round.now.former.now (flags round.now.changed) place c.body) (entry_at latest.old reasons.old) (entry_at latest.new reasons.new) }
{
    if let Some(head) = round.head_of(c.head) {
        let start = head as usize * round.admitted.entities;
        let end = start + round.admitted.entities;
        offer_body(
            round,
            place,
            c.body,
            &mut latest[start..end],
            &mut reasons[start..end],
        );
    }
}
