// The words of a line, one after another, each behind one space.
ghost use Rattle.std.specs.Prelude.{◌≡◌, []};
ghost use Rattle.std.specs.Iterator.{YieldsFirstRef, item_count};
ghost use Rattle.script.specs.Script.{words_of};
ghost use Rattle.script.specs.Taken.{taken};

use reader::reader::solid_len;

#[derive(Clone, Copy)]
pub struct Words<'a> {
    pub bytes: &'a [u8],
}

impl<'a> Words<'a> {
    // The next word; none behind the last.
    pub fn next_word(&mut self) -> Option<&'a [u8]>
        ensures word { words_of self.old.bytes.now ≡ taken result (words_of self.new.bytes.now) }
        ensures finished { result ≡ None → words_of self.new.bytes.now ≡ [] }
    {
        self.next()
    }
}

impl<'a> Iterator for Words<'a> {
    type Item = &'a [u8];

    ghost next_gives = { YieldsFirstRef (λ s. words_of s.bytes.now) };

    ghost remaining = { item_count (λ s. words_of s.bytes.now) };

    fn next(&mut self) -> Option<&'a [u8]> {
        let (_, behind) = self.bytes.split_first()?;
        let (word, rest) = behind.split_at(solid_len(behind));
        self.bytes = rest;
        Some(word)
    }
}
