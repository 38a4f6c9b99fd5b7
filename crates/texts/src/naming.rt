// Names made from words, and back.
ghost use Rattle.std.specs.Prelude.{◌≡◌, ◌≤◌, length};
ghost use Rattle.texts.specs.Seen.{name_seen};

use crate::name::Name;
use few::Few;
use reader::token::Word;

impl Name {
    pub fn new(word: &[u8]) -> Name
        requires { length word.now ≤ 8 }
        ensures { name_seen result ≡ word.now }
    {
        let mut bytes = Few::new(0);
        for b in word {
            // There is room for eight.
            let _ = bytes.push(*b);
        }
        Name { bytes }
    }

    pub fn text(&self) -> &[u8]
        ensures { result.now ≡ name_seen self.now }
    {
        self.bytes.as_slice()
    }
}

impl From<Word<'_>> for Name {
    ghost from_gives = { λ word name. name_seen name ≡ word.part.text.now };

    fn from(word: Word<'_>) -> Name {
        Name::new(word.part.text)
    }
}
