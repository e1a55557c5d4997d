//! Names of fields.

/// The name of a field in a call that writes a value. BER, CER and DER write no names and ignore
/// it.
#[derive(Clone, Copy, Debug)]
pub struct Identifier(pub Option<&'static str>);

impl Identifier {
    /// No name.
    pub const EMPTY: Identifier = Identifier(None);
}
