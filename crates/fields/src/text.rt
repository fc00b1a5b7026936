// Text of a fixed number of columns, byte for byte as the row has it.
ghost use Rattle.fields.specs.Bytes.{text, trimmed};
ghost use Rattle.std.specs.Prelude.{◌≡◌};

use crate::bytes::BLANK;
use std::fmt;

// Compared byte by byte.
#[derive(Clone, Copy, PartialEq, Eq, PartialOrd, Ord)]
pub struct Text<const N: usize> {
    bytes: [u8; N],
}

impl<const N: usize> Text<N> {
    // The text in the columns of a field; all blanks, where there are fewer than N.
    #[tactic(auto, using(std::proofs::lemmas::Bool::Decides::nat_tests), unfolding(crate::specs::Bytes::text))]
    pub fn read(columns: &[u8]) -> Text<N>
        ensures { result.bytes ≡ text N columns.now }
    {
        match columns.first_chunk::<N>() {
            Some(bytes) => Text { bytes: *bytes },
            None => Text { bytes: [BLANK; N] },
        }
    }

    pub fn bytes(&self) -> &[u8]
        ensures { result.now ≡ self.now.bytes }
    {
        &self.bytes
    }

    // The text without the blanks at its end.
    #[tactic(auto, using(crate::proofs::Trims::trimmed_more, crate::proofs::Trims::trimmed_done))]
    pub fn trimmed(&self) -> &[u8]
        ensures { result.now ≡ trimmed self.now.bytes }
    {
        let mut text: &[u8] = &self.bytes;
        while let [rest @ .., BLANK] = text {
            text = rest;
        }
        text
    }
}

// The text without the blanks at its end, in UTF-8.
impl<const N: usize> fmt::Display for Text<N> {
    fn fmt<W: fmt::Write>(&self, f: &mut fmt::Formatter<W>) -> fmt::Result {
        self.trimmed()
            .iter()
            .try_for_each(|byte| f.write_char(char::from(*byte)))
    }
}
