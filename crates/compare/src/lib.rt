// Whether a text begins with a word's line, compared in place.

#![tactic(auto)]

ghost use Rattle.std.specs.Prelude.{◌≡◌};
ghost use Rattle.common.specs.Lists.{begins};
ghost use Rattle.mnemonic.specs.Mnemonic.{text_line};
ghost use Rattle.compare.specs.Rest.{Stripped, Strips, then-strip};

use mnemonic::walk::{Sink, line};

// A sink that strips its bytes from a text: what is left of the text, if it has begun with them.
#[derive(Drop)]
struct Rest<'a> {
    text: Option<&'a [u8]>,
}

impl Sink for Rest<'_> {
    ghost takes = { λ s bytes t. Strips s.text bytes t.text };

    #[inline(always)]
    fn part(&mut self, bytes: &[u8]) {
        if let Some(text) = self.text {
            self.text = text.strip_prefix(bytes);
        }
    }

    ghost joined = { λ s t u. then-strip s.text t.text u.text };
}

// What is left of a text behind a word's line, if it begins with that line.
pub fn strip_line(text: &[u8], word: u16) -> Option<&[u8]>
    ensures { Stripped text.now (text_line word) result }
{
    let mut rest = Rest { text: Some(text) };
    line(&mut rest, word);
    rest.text
}

// Whether a text begins with a word's line.
pub fn begins_with_line(text: &[u8], word: u16) -> bool
    ensures { result ≡ begins (text_line word) text.now }
{
    strip_line(text, word).is_some()
}
