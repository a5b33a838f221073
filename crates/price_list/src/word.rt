// The word that the program is started with.
ghost use Rattle.std.specs.Prelude.{◌≡◌};
ghost use Rattle.text.specs.Ascii.{ascii};
ghost use Rattle.price_list.specs.Word.{same as word_same, taken as word_taken};

pub(crate) fn is_short(word: &[u8]) -> bool
    ensures { result ≡ word_same word.now (ascii "short") }
{
    word == b"short".as_slice()
}

// Of so many words, the program's own name among them: none more, or the one that it takes.
pub(crate) fn taken(words: usize, short: bool) -> bool
    ensures { result ≡ word_taken words short }
{
    words < 2 || words == 2 && short
}
