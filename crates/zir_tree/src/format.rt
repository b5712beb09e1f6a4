// Formats of samples.

/// How the elements of a stream stand in bytes.
#[derive(Clone, Copy, Debug, PartialEq, Eq)]
pub enum Format {
    Binary,
    Text,
}
