ghost use Rattle.std.specs.Prelude.{◌≡◌};
ghost use Rattle.dimacs_text.specs.Texts.{word_of, place_of};

/// Why a text is refused, and at which place. Places count bytes from 0.
#[derive(Clone, Copy, Debug, PartialEq, Eq)]
pub enum Refusal {
    /// The token, the comment or the byte at this place is none that may stand there.
    BadToken { place: u64 },
    /// The number at this place is greater than the limit on variables.
    VarTooLarge { place: u64 },
    /// With the literal at this place there are more literals than the limit.
    TooManyLits { place: u64 },
    /// The text ends here in a clause, a parity, a header or a command.
    Truncated { place: u64 },
    /// The text has more bytes than this limit.
    TooLong { place: u64 },
}

impl Refusal {
    /// The word for it in the text that is written.
    pub(crate) fn word(&self) -> &'static str
        ensures { result.now ≡ word_of self.now }
    {
        match self {
            Refusal::BadToken { .. } => "bad-token",
            Refusal::VarTooLarge { .. } => "var-too-large",
            Refusal::TooManyLits { .. } => "too-many-lits",
            Refusal::Truncated { .. } => "truncated",
            Refusal::TooLong { .. } => "too-long",
        }
    }

    /// Where it is, in bytes from the start of the text.
    pub fn place(&self) -> u64
        ensures { result ≡ place_of self.now }
    {
        match self {
            Refusal::BadToken { place }
            | Refusal::VarTooLarge { place }
            | Refusal::TooManyLits { place }
            | Refusal::Truncated { place }
            | Refusal::TooLong { place } => *place,
        }
    }
}

/// Why a reader gave up.
#[derive(Clone, Copy, Debug, PartialEq, Eq)]
pub enum ReadError {
    /// The text is refused, however it goes on.
    Refused(Refusal),
    /// Memory ran out.
    Memory,
}
