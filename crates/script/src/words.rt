// The words of a line, which stand between blanks.
ghost use Rattle.std.specs.Prelude.{◌≡◌, ◌≤◌, length};
ghost use Rattle.std.specs.Bool.{beq};
ghost use Rattle.std.specs.List.{prefix_len};
ghost use Rattle.std.specs.Iterator.{YieldsFirstRef, item_count};
ghost use Rattle.script.specs.Words.{is_blank, words_of};

// Is the byte a space, a tab or a carriage return?
fn is_blank(b: u8) -> bool
    ensures { result ≡ is_blank b }
{
    matches!(b, b' ' | b'\t' | b'\r')
}

// How many bytes at the front are blank, or with `blank` false how many are not.
fn front_len(bytes: &[u8], blank: bool) -> usize
    ensures value { result ≡ prefix_len (λ b. beq (is_blank b) blank) bytes.now }
    ensures bound { result ≤ length bytes.now }
{
    bytes.iter().take_while(|b| is_blank(**b) == blank).count()
}

// The words of a line, in order.
#[derive(Drop)]
pub(crate) struct Words<'a> {
    line: &'a [u8],
}

impl<'a> Words<'a> {
    pub(crate) fn new(line: &'a [u8]) -> Words<'a>
        ensures { result.line.now ≡ line.now }
    {
        Words { line }
    }
}

impl<'a> Iterator for Words<'a> {
    type Item = &'a [u8];

    ghost next_gives = { YieldsFirstRef (λ s. words_of s.line.now) };

    ghost remaining = { item_count (λ s. words_of s.line.now) };

    fn next(&mut self) -> Option<&'a [u8]> {
        let (_, line) = self.line.split_at(front_len(self.line, true));
        let (word, rest) = line.split_at(front_len(line, false));
        // Before the test, so that blanks at a line's end are gone through once, however often a word is asked for.
        self.line = rest;
        if word.is_empty() { None } else { Some(word) }
    }
}
