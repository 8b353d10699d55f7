ghost use Rattle.std.specs.Prelude.{◌≡◌, ◌<◌, ◌^◌};

use sat_lits::ClauseId;

/// The id of a clause in four bytes, as it stands in occurrence lists.
#[derive(Clone, Copy, Debug, PartialEq, Eq)]
pub struct ShortId(pub u32);

impl ShortId {
    /// An id below 4294967296, as every id of a `ClauseStore` is, in short.
    pub fn of(id: ClauseId) -> ShortId
        requires { id.0 < 2 ^ 32 }
        ensures { result.0 ≡ id.0 }
    {
        ShortId(id.0 as u32)
    }

    /// The id that it is short for.
    pub fn whole(self) -> ClauseId
        ensures { result.0 ≡ self.0 }
    {
        ClauseId(u64::from(self.0))
    }
}
