/// The two flags of a channel.
#[derive(Clone, Copy, Debug, PartialEq, Eq)]
pub struct Flags {
    /// A session is open.
    pub active: bool,
    /// The register holds a word that was put and not taken.
    pub full: bool,
}
