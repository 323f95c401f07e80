// An input, line by line.
ghost use Rattle.std.specs.Iterator.{YieldsFirstRef, item_count};
ghost use Rattle.std.specs.Prelude.{◌≡◌, ◌+◌, ◌<◌, ◌==◌, ◌∷◌, length, take, drop, position};
ghost use Rattle.frames.specs.Lines.{lines_of, first_length_of};
ghost use Rattle.frames.specs.Held.{lines_left};

// The lines of an input, without their line feeds, one after another.
#[derive(Debug, Drop)]
pub struct Lines<'a> {
    rest: &'a [u8],
}

impl<'a> Lines<'a> {
    pub fn new(input: &'a [u8]) -> Lines<'a>
        ensures { lines_left result ≡ lines_of input.now }
    {
        Lines { rest: input }
    }
}

impl<'a> Iterator for Lines<'a> {
    type Item = &'a [u8];

    ghost next_gives = { YieldsFirstRef lines_left };

    ghost remaining = { item_count lines_left };

    fn next(&mut self) -> Option<&'a [u8]> {
        if self.rest.is_empty() {
            return None;
        }
        let (line, rest) = first_line(self.rest);
        self.rest = rest;
        Some(line)
    }
}

// The first line of an input, without its line feed, and what comes after that.
#[tactic(auto, using(crate::proofs::LineLaws::cut_at, crate::proofs::LineLaws::uncut))]
pub fn first_line(input: &[u8]) -> (&[u8], &[u8])
    ensures line { result.0.now ≡ take (first_length_of input.now) input.now }
    ensures rest { result.1.now ≡ drop (first_length_of input.now + 1) input.now }
    ensures lines { 0 < length input.now → lines_of input.now ≡ result.0.now ∷ lines_of result.1.now }
    ensures shorter { 0 < length input.now → length result.1.now < length input.now }
{
    match first_feed(input) {
        Some(end) => (&input[..end], &input[end + 1..]),
        // The last line needs no line feed.
        None => (input, &[]),
    }
}

// The place of the first line feed.
fn first_feed(input: &[u8]) -> Option<usize>
    ensures { result ≡ position (λ character. character == 10) input.now }
{
    input.iter().position(|character| *character == b'\n')
}
