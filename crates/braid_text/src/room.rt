ghost use Rattle.std.specs.Prelude.{◌≡◌};
ghost use Rattle.braid_text.specs.Rooms.{which_name, limit_of};

/// What there is room for in a resource beside its updates, or what an update needs.
#[derive(Clone, Copy, Debug, PartialEq, Eq)]
pub struct Room {
    /// Versions.
    pub versions: u64,
    /// Elements: inserted characters, the deleted ones too.
    pub elements: u64,
    /// Deletion marks: pairs of an element and a version that deletes it.
    pub deletions: u64,
    /// Identifiers in the frontier. The room is for the whole frontier, and so is the need.
    pub width: u64,
}

/// The most that a replica has of one resource.
pub const REPLICA_LIMITS: Room = Room {
    versions: 524_288,
    elements: 33_554_432,
    deletions: 67_108_864,
    width: 2_000,
};

impl Room {
    /// How many of one kind there may be. There is one resource.
    pub fn of(self, which: Which) -> u64
        ensures value { result ≡ limit_of self which }
    {
        match which {
            Which::Resources => 1,
            Which::Versions => self.versions,
            Which::Elements => self.elements,
            Which::Deletions => self.deletions,
            Which::Width => self.width,
        }
    }
}

/// What there is too little room for.
#[derive(Clone, Copy, Debug, PartialEq, Eq)]
pub enum Which {
    /// Resources of a book. A resource's own answers never name it.
    Resources,
    Versions,
    Elements,
    Deletions,
    Width,
}

impl Which {
    /// Its name, as it is printed and sent. It takes no memory.
    pub fn name(self) -> &'static str
        ensures value { result.now ≡ which_name self }
    {
        match self {
            Which::Resources => "resources",
            Which::Versions => "versions",
            Which::Elements => "elements",
            Which::Deletions => "deletions",
            Which::Width => "width",
        }
    }
}
