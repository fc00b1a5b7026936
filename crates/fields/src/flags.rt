// Key flags and amendment flags.
ghost use Rattle.fields.specs.Flags.{amended, key_flag, stays};
ghost use Rattle.std.specs.Prelude.{◌≡◌};

use crate::bytes::number;

// What a row says of its record as a whole.
#[derive(Clone, Copy, PartialEq, Eq, Debug)]
pub enum KeyFlag {
    // 0: the record goes on, amended only where an amendment flag says so
    NoAmendment,
    // 1: the record is new
    New,
    // 2: the record goes
    Deletion,
}

impl KeyFlag {
    // It reads the columns' bytes, and any other number than 1 and 2 counts as 0: a public `From<u8>` or `TryFrom<u8>` would
    // offer that to all.
    #[tactic(auto, using(std::proofs::lemmas::Bool::Decides::nat_tests), unfolding(crate::specs::Flags::key_flag))]
    pub fn read(bytes: &[u8]) -> KeyFlag
        ensures { result ≡ key_flag bytes.now }
    {
        match number(bytes) {
            1 => KeyFlag::New,
            2 => KeyFlag::Deletion,
            _ => KeyFlag::NoAmendment,
        }
    }

    // Whether the record is there from the first day on.
    pub fn stays(self) -> bool
        ensures { result ≡ stays self }
    {
        match self {
            KeyFlag::NoAmendment | KeyFlag::New => true,
            KeyFlag::Deletion => false,
        }
    }
}

// Whether an amendment flag counts 3.
#[tactic(auto, using(std::proofs::lemmas::Bool::Decides::nat_tests), unfolding(crate::specs::Flags::amended))]
pub fn is_amended(bytes: &[u8]) -> bool
    ensures { result ≡ amended bytes.now }
{
    number(bytes) == 3
}
