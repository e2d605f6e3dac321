// One pass over a source: each credential is checked, and its head numbered.
ghost use Rattle.std.specs.Prelude.{◌≡◌, ◌≤◌, not, length, IfOk};
ghost use Rattle.book.specs.Kept.{entities, role_names};
ghost use Rattle.heads.specs.Admitted.{readable, bad, Admits};

use crate::admitted::Admitted;
use crate::index::HeadIndex;
use book::Register;
use credential::{Body, Credential, Record};
use scale::Scale;
use source::{Origin, Source};

fn is_readable<S: Scale>(body: Body<Record>) -> bool
    ensures { result ≡ readable S.Scale.meaning body }
{
    match body {
        Body::Member(_, w) => S::read_credential(w).is_some(),
        _ => true,
    }
}

fn is_good<S: Scale>(register: &Register, c: Credential) -> bool
    ensures { not result ≡ bad S.Scale.meaning (length (entities register.now)) (length (role_names register.now)) c }
{
    register.has_claim(c) && is_readable::<S>(c.body)
}

// What settling stands on, or the origin of the first credential that cannot be settled.
pub fn admit<'a, R: Source, S: Scale>(
    register: &Register,
    source: &'a R,
) -> Result<Admitted<'a, R>, Origin>
    requires few { length (R.Source.shows source.now) ≤ 512 }
    ensures admits { Admits S.Scale.meaning (length (entities register.now)) (length (role_names register.now)) (R.Source.shows source.now) result }
    ensures source { IfOk result (λ a. a.source.now ≡ source.now) }
    ensures entities { IfOk result (λ a. a.entities ≡ length (entities register.now)) }
{
    let mut index = HeadIndex::new();
    for (place, c) in source.iter().enumerate() {
        if !is_good::<S>(register, c) {
            return Err(source.origin(place).unwrap());
        }
        index.note(c.head);
    }
    Ok(Admitted {
        source,
        entities: register.entity_count(),
        index,
    })
}
