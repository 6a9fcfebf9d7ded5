//! Where a fault of a policy file stands.
use cv_io::Text;
use policy_file::{ItemKind, Version};

/// Where a fault stands in the text of a policy file, and what the operator is shown of what stands there.
#[derive(Debug, Drop)]
pub struct Place {
    /// The line, from 1; 0 where it isn't known.
    pub line: u64,
    /// The column of a fault of the syntax, from 1; of other faults 0.
    pub column: u64,
    /// The kind of item that stands there; none for the file's own keys.
    pub item: Option<ItemKind>,
    /// The version that the file is in, where it names one.
    pub version: Option<Version>,
    /// The value as it is written, at most 40 characters of it; of a fault of the syntax what the reader of TOML says.
    pub written: Text,
    /// What could stand there in its place, where names are wanted.
    pub others: Text,
    /// The value is such as is wanted, so that another item has to have it.
    pub taken: bool,
}
