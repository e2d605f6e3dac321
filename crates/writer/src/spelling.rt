// A statement put into a draft, word by word.
ghost use Rattle.std.specs.Prelude.{◌≡◌, ◌+◌, ◌≤◌, ◌++◌, length};
ghost use Rattle.arrayvec.specs.ArrayVec.{array_vec_len};
ghost use Rattle.words.specs.Split.{after};
ghost use Rattle.reader.specs.Sentences.{role_by, phrase_by, sentence_by};
ghost use Rattle.reader.specs.Spelling.{role_word, body_words, weight_words, spelled};

use arrayvec::ArrayVec;
use book::store::NAME_LENGTH;
use credential::Record;
use itoa::Buffer;
use reader::{Phrase, RoleText, Sentence};

// The longest statement is `A.r <- B.s & C.t`: three roles, and 7 bytes between them.
pub const CAPACITY: usize = 3 * (2 * NAME_LENGTH + 1) + 7;

// A text that is being made up. No `Display`: `fmt::Write` promises nothing of when a write fails.
type Draft = ArrayVec<u8, CAPACITY>;

fn push_role(draft: &mut Draft, role: RoleText<&[u8]>)
    requires { array_vec_len draft.old + length (role_word (role_by (λ x. x.now) role)) ≤ CAPACITY }
    ensures { draft.new.items ≡ draft.old.items ++ role_word (role_by (λ x. x.now) role.entry) }
{
    draft.try_extend_from_slice(role.entity).unwrap();
    draft.push(b'.');
    draft.try_extend_from_slice(role.name).unwrap();
}

fn push_weight(draft: &mut Draft, weight: Record)
    requires { array_vec_len draft.old + length (after 32 (weight_words weight)) ≤ CAPACITY }
    ensures { draft.new.items ≡ draft.old.items ++ after 32 (weight_words weight) }
{
    let mut digits = Buffer::new();
    draft.try_extend_from_slice(b" : ").unwrap();
    draft
        .try_extend_from_slice(digits.format(weight.ceiling).as_bytes())
        .unwrap();
    draft.push(b' ');
    draft
        .try_extend_from_slice(digits.format(weight.distance).as_bytes())
        .unwrap();
}

// The words of a body, a space before each.
fn push_body(draft: &mut Draft, body: Phrase<&[u8], Record>)
    requires { array_vec_len draft.old + length (after 32 (body_words weight_words (phrase_by (λ x. x.now) body))) ≤ CAPACITY }
    ensures { draft.new.items ≡ draft.old.items ++ after 32 (body_words weight_words (phrase_by (λ x. x.now) body.entry)) }
{
    draft.push(b' ');
    match body {
        Phrase::Member(x, weight) => {
            draft.try_extend_from_slice(x).unwrap();
            push_weight(draft, weight);
        }
        Phrase::Delegation(b) => push_role(draft, b),
        Phrase::Link(b, t) => {
            push_role(draft, b);
            draft.push(b'.');
            draft.try_extend_from_slice(t).unwrap();
        }
        Phrase::Intersection(b, c) => {
            push_role(draft, b);
            draft.try_extend_from_slice(b" & ").unwrap();
            push_role(draft, c);
        }
    }
}

pub(crate) fn spell(sentence: Sentence<&[u8], Record>) -> Draft
    requires { length (spelled (sentence_by (λ x. x.now) sentence)) ≤ CAPACITY }
    ensures { result.items ≡ spelled (sentence_by (λ x. x.now) sentence.entry) }
{
    let mut draft = Draft::new();
    push_role(&mut draft, sentence.head);
    draft.try_extend_from_slice(b" <-").unwrap();
    push_body(&mut draft, sentence.body);
    draft
}
