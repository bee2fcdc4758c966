//! What is called of a file.

#[derive(Clone, Copy, Debug, PartialEq, Eq)]
pub enum Call {
    Read,
    Write,
    /// A cut to a length.
    Shorten,
    Sync,
}
