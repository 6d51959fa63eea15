use ficus_path::PathDraft;

/// Room for the paths of a line, which are two at most. It is some kilobytes large, and made once for a script.
#[derive(Drop)]
pub(crate) struct LinePaths {
    pub(crate) first: PathDraft,
    pub(crate) second: PathDraft,
}

impl LinePaths {
    /// Room with nothing read into it.
    pub(crate) fn new() -> LinePaths {
        LinePaths {
            first: PathDraft::new(),
            second: PathDraft::new(),
        }
    }
}
