// An input cut into its lines.
use reader::Line;
use words::{Part, Parts};

// The lines of an input that are not handed out yet.
#[derive(Drop)]
pub(crate) struct Lines<'a> {
    parts: Parts<'a>,
}

impl<'a> Lines<'a> {
    ghost use Rattle.std.specs.Prelude.{◌≡◌};
    ghost use Rattle.session.specs.Transcript.{lines};
    ghost use Rattle.session.specs.Turns.{left_lines};

    pub(crate) fn of(input: &'a [u8]) -> Lines<'a>
        ensures { left_lines result ≡ lines input.now }
    {
        Lines {
            parts: Part::whole(input).split(b'\n'),
        }
    }
}

impl<'a> Iterator for Lines<'a> {
    ghost use Rattle.std.specs.Iterator.{YieldsFirstBy, item_count};
    ghost use Rattle.session.specs.Turns.{told_line, left_lines};

    type Item = Line<'a>;

    ghost next_gives = { YieldsFirstBy told_line left_lines };

    ghost remaining = { item_count left_lines };

    // Nothing after the last line feed is no line.
    fn next(&mut self) -> Option<Line<'a>> {
        let text = self.parts.next()?.text;
        let ended = !self.parts.is_empty();
        if !ended && text.is_empty() {
            return None;
        }
        Some(Line { text, ended })
    }
}
