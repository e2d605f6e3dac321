// The names of a credential's numbers: nothing exactly where a number is not enrolled.
ghost use Rattle.std.specs.Prelude.{◌≡◌, ◌≤◌, length, IfSome, OnSome};
ghost use Rattle.std.specs.Option.{option_map};
ghost use Rattle.std.specs.Bool.{then_some};
ghost use Rattle.words.specs.Split.{after};
ghost use Rattle.book.specs.Plain.{role_enrolled, body_enrolled, enrolled};
ghost use Rattle.book.specs.Kept.{entities, role_names};
ghost use Rattle.reader.specs.Sentences.{role_by, phrase_by, sentence_by};
ghost use Rattle.reader.specs.RoundTrip.{BodyFits};
ghost use Rattle.reader.specs.Spelling.{role_word, body_words, weight_words, spelled, named_role, named_body, named};
ghost use Rattle.writer.specs.Names.{names_only};

use book::Register;
use credential::{Body, Credential, Record, Role};
use reader::{Phrase, RoleText, Sentence};

fn name_role<'a>(register: &'a Register, role: Role) -> Option<RoleText<&'a [u8]>>
    ensures value { option_map (role_by (λ x. x.now)) result ≡ then_some (role_enrolled (length (entities register.now)) (length (role_names register.now)) role) (named_role (names_only register.now) role) }
    ensures short { IfSome result (λ s. length (role_word (role_by (λ x. x.now) s)) ≤ 49) }
{
    let entity = register.spell(role.entity)?;
    let name = register.spell(role.name)?;
    Some(RoleText { entity, name })
}

fn name_body<'a>(register: &'a Register, body: Body<Record>) -> Option<Phrase<&'a [u8], Record>>
    ensures value { option_map (phrase_by (λ x. x.now)) result ≡ then_some (body_enrolled (length (entities register.now)) (length (role_names register.now)) body) (named_body (names_only register.now) body) }
    ensures short { IfSome result (λ s. length (after 32 (body_words weight_words (phrase_by (λ x. x.now) s))) ≤ 102) }
    ensures numbers { BodyFits body }
{
    match body {
        Body::Member(x, weight) => Some(Phrase::Member(register.spell(x)?, weight)),
        Body::Delegation(b) => Some(Phrase::Delegation(name_role(register, b)?)),
        Body::Link(b, t) => Some(Phrase::Link(name_role(register, b)?, register.spell(t)?)),
        Body::Intersection(b, c) => Some(Phrase::Intersection(
            name_role(register, b)?,
            name_role(register, c)?,
        )),
    }
}

pub(crate) fn name_credential<'a>(
    register: &'a Register,
    credential: &Credential,
) -> Option<Sentence<&'a [u8], Record>>
    ensures value { option_map (sentence_by (λ x. x.now)) result ≡ then_some (enrolled (names_only register.now) credential.now) (named (names_only register.now) credential.now) }
    ensures short { IfSome result (λ s. length (spelled (sentence_by (λ x. x.now) s)) ≤ 154) }
    ensures numbers { OnSome result (BodyFits credential.now.body) }
{
    let head = name_role(register, credential.head)?;
    let body = name_body(register, credential.body)?;
    Some(Sentence { head, body })
}
