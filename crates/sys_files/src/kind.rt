//! Whose tree it is.

#[derive(Clone, Copy)]
pub enum Kind {
    /// That of `patch`: whatever stands at a name is there, and a link is its text.
    Patch,
    /// That of a stack of patches, which has saves, and makes no links.
    Stack,
    /// That of another tool.
    Other,
}

impl Kind {
    pub fn is_patch(self) -> bool {
        matches!(self, Kind::Patch)
    }

    pub fn is_stack(self) -> bool {
        matches!(self, Kind::Stack)
    }
}
