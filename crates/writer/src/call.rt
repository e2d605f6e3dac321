ghost use Rattle.std.specs.Prelude.{◌≡◌, ◌≤◌, true, length, take, IfOk, IfSome};
ghost use Rattle.std.specs.Bool.{then_some};
ghost use Rattle.std.specs.Option.{option_map};
ghost use Rattle.book.specs.declared.store.Book.{Book as AnyBook};
ghost use Rattle.book.specs.Plain.{enrolled};
ghost use Rattle.book.specs.Kept.{plain};
ghost use Rattle.writer.specs.Written.{said, text, room_answer, answer, unless_refused, over, after, ReadAgain};

use crate::names::name_credential;
use crate::refusal::WriteRefusal;
use crate::spelling::{CAPACITY, spell};
use arrayvec::ArrayVec;
use book::Register;
use credential::Credential;

// The statement's text, nothing exactly where a number is not enrolled.
pub fn statement_text(
    register: &Register,
    credential: &Credential,
) -> Option<ArrayVec<u8, CAPACITY>>
    ensures value { (b : AnyBook) → option_map (λ t. t.items) result ≡ then_some (enrolled (plain register.now b) credential.now) (text (plain register.now b) credential.now) }
    ensures short { (b : AnyBook) → enrolled (plain register.now b) credential.now ≡ true → length (text (plain register.now b) credential.now) ≤ 154 }
    ensures read_back { (b : AnyBook) → IfSome result (λ t. ReadAgain (plain register.now b) credential.now t.items) }
{
    let sentence = name_credential(register, credential)?;
    Some(spell(sentence))
}

// Puts the statement at the start of the buffer, the rest as it was, and answers its length. A
// refusal changes nothing.
pub fn write(
    register: &Register,
    credential: &Credential,
    buffer: &mut [u8],
) -> Result<usize, WriteRefusal>
    ensures answers { (b : AnyBook) → said result ≡ answer (plain register.now b) credential.now buffer.old }
    ensures leaves { (b : AnyBook) → buffer.new ≡ after (plain register.now b) credential.now buffer.old }
    ensures holds { (b : AnyBook) → IfOk result (λ n. take n buffer.new ≡ text (plain register.now b) credential.now) }
    ensures within { IfOk result (λ n. n ≤ length buffer.new) }
    ensures short { (b : AnyBook) → enrolled (plain register.now b) credential.now ≡ true → length (text (plain register.now b) credential.now) ≤ 154 }
    ensures read_back { (b : AnyBook) → IfOk result (λ n. ReadAgain (plain register.now b) credential.now (take n buffer.new)) }
{
    let text = statement_text(register, credential).ok_or(WriteRefusal::NotEnrolled)?;
    place(text.as_slice(), buffer)
}

// Copies the text to the start of the buffer, if it has room.
fn place(text: &[u8], buffer: &mut [u8]) -> Result<usize, WriteRefusal>
    ensures answers { said result ≡ room_answer text.now buffer.old }
    ensures leaves { buffer.new ≡ unless_refused (said result) buffer.old (over text.now buffer.old) }
    ensures holds { IfOk result (λ n. take n buffer.new ≡ text.now) }
    ensures within { IfOk result (λ n. n ≤ length buffer.new) }
{
    let len = text.len();
    if buffer.len() < len {
        return Err(WriteRefusal::BufferTooShort);
    }
    buffer[..len].copy_from_slice(text);
    Ok(len)
}
