ghost use Rattle.std.specs.Prelude.{◌≡◌};
ghost use Rattle.ficus_ids.specs.Kind.{kind_word, sort_of};

/// What an object is. The kinds of files differ in how a conflict of their versions is resolved.
#[derive(Clone, Copy, Debug, PartialEq, Eq)]
pub enum Kind {
    /// A directory.
    Dir,
    /// A file whose conflicts only a user settles.
    Plain,
    /// A file of lines, whose versions are joined as a set of lines.
    Lines,
    /// A file of one number, the greatest of which wins.
    Max,
    /// A file of which every version is kept, one after the other.
    Keep,
    /// A symbolic link: a text that is fixed when it is made, and never followed.
    Symlink,
}

/// What an object is for, which is what else than a word and a resolver tells kinds apart.
#[derive(Clone, Copy, Debug, PartialEq, Eq)]
pub enum Sort {
    /// Entries lie in it.
    Directory,
    /// It has versions, which are written, settled and resolved.
    Versioned,
    /// It has one text, from its making on.
    Fixed,
}

/// The most bytes of a text that stays: the text of a symbolic link has 1 to so many.
pub const FIXED_LIMIT: usize = 1024;

impl Kind {
    /// The word for it in scripts and answers.
    pub fn word(self) -> &'static str
        ensures { result.now ≡ kind_word self }
    {
        match self {
            Kind::Dir => "dir",
            Kind::Plain => "plain",
            Kind::Lines => "lines",
            Kind::Max => "max",
            Kind::Keep => "keep",
            Kind::Symlink => "symlink",
        }
    }

    /// What an object of the kind is for.
    pub fn sort(self) -> Sort
        ensures { result ≡ sort_of self }
    {
        match self {
            Kind::Dir => Sort::Directory,
            Kind::Plain | Kind::Lines | Kind::Max | Kind::Keep => Sort::Versioned,
            Kind::Symlink => Sort::Fixed,
        }
    }
}
