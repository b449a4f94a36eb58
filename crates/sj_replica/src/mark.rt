//! What a cell is at a memory node.

ghost use Rattle.std.specs.Prelude.{◌≡◌};
ghost use Rattle.sj_replica.specs.Mark.{is_coming_by, is_entry, is_leaving, is_leaving_by, is_valid};

use sj_base::ids::Worker;

/// What a cell is at a node.
#[derive(Clone, Copy, Debug, Default, PartialEq, Eq)]
pub enum Mark {
    /// It has no copy there.
    #[default]
    Invalid,
    /// The claim of a worker brings a copy.
    Coming(Worker),
    /// It has a copy there.
    Valid,
    /// It has a copy there that the claim of a worker evicts, and that is still valid.
    Leaving(Worker),
}

impl Mark {
    /// Whether there is a copy. Constant time.
    pub fn is_there(self) -> bool
        ensures { result ≡ is_valid self }
    {
        matches!(self, Mark::Valid | Mark::Leaving(_))
    }

    /// Whether the node has an entry for the cell: there is a copy that stays, or one that comes. Constant time.
    pub fn is_entry_mark(self) -> bool
        ensures { result ≡ is_entry self }
    {
        matches!(self, Mark::Valid | Mark::Coming(_))
    }

    /// Whether there is a copy that leaves. Constant time.
    pub fn is_leaving(self) -> bool
        ensures { result ≡ is_leaving self }
    {
        matches!(self, Mark::Leaving(_))
    }

    /// Whether there is a copy that leaves by the claim of this worker. Constant time.
    pub fn is_leaving_by(self, w: Worker) -> bool
        ensures { result ≡ is_leaving_by w self }
    {
        match self {
            Mark::Leaving(v) => v == w,
            Mark::Invalid | Mark::Coming(_) | Mark::Valid => false,
        }
    }

    /// Whether a copy comes by the claim of this worker. Constant time.
    pub fn is_coming_by(self, w: Worker) -> bool
        ensures { result ≡ is_coming_by w self }
    {
        match self {
            Mark::Coming(v) => v == w,
            Mark::Invalid | Mark::Leaving(_) | Mark::Valid => false,
        }
    }
}
