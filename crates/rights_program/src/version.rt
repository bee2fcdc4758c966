//! The version of the program and of its packages. It is written in no other file.

/// The line that `--version` prints.
pub const VERSION: &[u8] = b"rights-site 0.1.0\n";
