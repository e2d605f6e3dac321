// What is asked, decided over the register, its book and the slip.
ghost use Rattle.std.specs.Prelude.{◌≡◌, length};
ghost use Rattle.book.specs.Kept.{plain};
ghost use Rattle.source.specs.Slips.{presented};
ghost use Rattle.ruling.specs.Rulings.{verdict_by, RuledOn, Rules};

use crate::weights::{ToldScale, Weight};
use book::{Book, Register};
use credential::Entity;
use decision::{DecideRefusal, Request, Verdict, Work, decide_with_book};
use rules::{Reason, Step};
use scale::yes::Yes;
use scale::{Ceilings, Distances, Nearest};
use source::{Empty, Slip};

// How many cells `decide_asked` lends: arrays of fixed size, since no decision may want memory.
pub const CELLS: usize = 2048;

// What the lists hold before they are written.
const NO_ENTITY: Entity = Entity(0);

const NO_REASON: Reason = Reason {
    place: 0,
    middle: NO_ENTITY,
};

const NO_STEP: Step = Step {
    place: 0,
    member: NO_ENTITY,
    middle: NO_ENTITY,
    first: 0,
    second: 0,
};

// The word that names a scale.
#[derive(Clone, Copy)]
pub enum ScaleWord {
    Yes,
    Ceiling,
    Distance,
    Nearest,
}

// What is asked, by numbers, and on which scale.
#[derive(Clone, Copy)]
pub struct Asked {
    pub scale: ScaleWord,
    pub request: Request,
}

// A function and no `From`, since a verdict is another crate's type.
fn told<S: ToldScale>(verdict: Verdict<S>) -> Verdict<Weight>
    ensures { result ≡ verdict_by S.ToldScale.tells verdict }
{
    match verdict {
        Verdict::Granted {
            weight,
            steps,
            rounds,
        } => Verdict::Granted {
            weight: weight.tell(),
            steps,
            rounds,
        },
        Verdict::Denied { best, rounds } => Verdict::Denied {
            best: best.map(|weight| weight.tell()),
            rounds,
        },
    }
}

// Decides on the scale S, and tells the weights. The weight lists come from where the size of a weight is
// known.
fn decide_on<S: ToldScale>(
    register: &Register,
    book: &Book,
    slip: &Slip,
    request: Request,
    former: &mut [Option<S>],
    latest: &mut [Option<S>],
) -> Result<Verdict<Weight>, DecideRefusal>
    requires former { length former.old ≡ 2048 }
    requires latest { length latest.old ≡ 2048 }
    ensures { RuledOn S.Scale.meaning S.ToldScale.tells (plain register.now book.now) (presented slip.now) request result }
{
    let mut reasons = [NO_REASON; CELLS];
    let mut steps = [NO_STEP; CELLS];
    let work = Work {
        former,
        latest,
        reasons: &mut reasons,
        steps: &mut steps,
    };
    let verdict = decide_with_book(register, Empty, book, slip, request, work)?;
    Ok(told(verdict))
}

// Decides on the scale that is named, over the book joined with the slip. The three are lent apart: one struct
// of them would ask more of a caller, who may have several slips over one book.
pub fn decide_asked(
    register: &Register,
    book: &Book,
    slip: &Slip,
    asked: Asked,
) -> Result<Verdict<Weight>, DecideRefusal>
    ensures { Rules (plain register.now book.now) (presented slip.now) asked result }
{
    macro_rules! decided_on {
        ($scale:ty) => {{
            let mut former = [None::<$scale>; CELLS];
            let mut latest = [None::<$scale>; CELLS];
            decide_on(
                register,
                book,
                slip,
                asked.request,
                &mut former,
                &mut latest,
            )
        }};
    }
    match asked.scale {
        ScaleWord::Yes => decided_on!(Yes),
        ScaleWord::Ceiling => decided_on!(Ceilings),
        ScaleWord::Distance => decided_on!(Distances),
        ScaleWord::Nearest => decided_on!(Nearest),
    }
}
