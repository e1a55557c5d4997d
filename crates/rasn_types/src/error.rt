//! Errors of reading and of writing values.

mod decode;
mod encode;
mod text;

pub use decode::{
    BerDecodeErrorKind, CodecDecodeError, DecodeError, DecodeErrorKind, DerDecodeErrorKind, Needed,
};
pub use encode::{BerEncodeErrorKind, CodecEncodeError, EncodeError, EncodeErrorKind};
