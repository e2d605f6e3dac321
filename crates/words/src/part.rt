// A text as one part, a part cut at a separator, and the parts handed out one by one.
ghost use Rattle.std.specs.Prelude.{◌+◌, ◌^◌, ◌<◌, length};

// A part of a text and the byte where it starts, counted from 1.
#[derive(Clone, Copy)]
pub struct Part<'a> {
    pub text: &'a [u8],
    pub byte: usize,
    ghost fits: { byte + length text.now < 2 ^ 64 },
}

// The parts between single separators that are not handed out yet: those of `rest`.
#[derive(Clone, Copy)]
pub struct Parts<'a> {
    rest: Option<Part<'a>>,
    sep: u8,
}

impl<'a> Part<'a> {
    ghost use Rattle.std.specs.Prelude.{◌≡◌};
    ghost use Rattle.words.specs.Split.{split, placed, Splits};
    ghost use Rattle.words.specs.Cursor.{told, todo};

    // A whole text, from its first byte.
    pub fn whole(text: &'a [u8]) -> Part<'a>
        ensures { ((told result).text ≡ text.now) × ((told result).byte ≡ 1) }
    {
        Part { text, byte: 1 }
    }

    // The parts of this one between single separators.
    pub fn split(self, sep: u8) -> Parts<'a>
        ensures value { todo result ≡ placed self.entry.byte (split sep self.entry.text.now) }
        ensures law { Splits sep }
    {
        Parts {
            rest: Some(self),
            sep,
        }
    }
}

impl<'a> Parts<'a> {
    ghost use Rattle.std.specs.Prelude.{◌≡◌};
    ghost use Rattle.words.specs.Cursor.{todo, none};

    // Whether all parts are handed out.
    #[tactic(auto, using(crate::proofs::Left::none_of))]
    pub fn is_empty(&self) -> bool
        ensures { result ≡ none (todo self.now) }
    {
        self.rest.is_none()
    }
}

impl<'a> Iterator for Parts<'a> {
    ghost use Rattle.std.specs.Iterator.{YieldsFirstBy, item_count};
    ghost use Rattle.words.specs.Cursor.{told, todo};

    type Item = Part<'a>;

    ghost next_gives = { YieldsFirstBy told todo };

    ghost remaining = { item_count todo };

    // The part that no separator ends is the last one, also where it is empty.
    fn next(&mut self) -> Option<Part<'a>> {
        let rest = self.rest.take()?;
        let Some(n) = rest.text.iter().position(|b| *b == self.sep) else {
            return Some(rest);
        };
        self.rest = Some(Part {
            text: &rest.text[n + 1..],
            byte: rest.byte + n + 1,
        });
        Some(Part {
            text: &rest.text[..n],
            byte: rest.byte,
        })
    }
}
