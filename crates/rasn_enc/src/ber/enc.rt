//! The encoder, which writes values one after the other.
ghost use Rattle.std.specs.Prelude.{◌≡◌, ◌≤◌, ◌⊎◌, length, IfOk, IfErr, OnOk, OnErr, false, true};
ghost use Rattle.rasn_types.specs.Truth.{IsWhether};
ghost use Rattle.rasn_types.specs.Shapes.{Admits};
ghost use Rattle.rasn_types.specs.Errors.{IsEncodeOutOfMemory};
ghost use Rattle.rasn_enc.specs.Errors.{FailsAtSize};
ghost use Rattle.rasn_enc.specs.View.{started, AreTagsInOrder};
ghost use Rattle.rasn_enc.specs.Primitive.{IsAllocError, IsOrderError};
ghost use Rattle.rasn_enc.specs.Order.{FallsBetween};
ghost use Rattle.rasn_enc.specs.Closures.{FailsAtTags};

pub mod alternatives;
mod any;
mod bit_string;
mod boolean;
mod character_string;
mod choice;
mod config;
mod constructed;
mod default;
mod enumerated;
mod extensible;
mod extension;
mod fixed_octet_string;
mod integer;
mod named_bits;
mod null;
mod object_identifier;
mod octet_string;
mod optional;
pub mod parts;
mod prefix;
mod primitive;
mod real;
mod segments;
mod sequence;
mod sequence_of;
mod set;
mod set_of;
pub mod set_parts;
mod time;
mod unknown;
mod writer;

pub use config::EncoderOptions;
pub use object_identifier::object_identifier_as_bytes;
use rasn_types::error::{BerEncodeErrorKind, CodecEncodeError, EncodeError, EncodeErrorKind};
use rasn_types::types::{Codec, Constraints, Tag};
use std::alloc::Global;
use std::fmt;
use std::marker::Model;
use writer::deferred_headers::DeferredHeader;
pub use writer::leading_tag::leading_tag;
use writer::{Open, ValueList};

/// The number of octets that `Encoder::new` and the entry points reserve before anything is
/// written.
pub const INITIAL_CAPACITY: usize = 1024;

/// An encoder of values. To contracts it is the rule and the octets written so far, with a list for
/// each value that is still open. The names that its calls take (`Identifier`) are ignored: no rule
/// of X.690 writes them.
#[derive(Drop)]
pub struct Encoder {
    alloc: Global,
    rule: Codec,
    /// The octets written, one value after the other, without those of deferred headers.
    gathered: Vec<u8>,
    /// The deferred headers, in the order of their places.
    headers: Vec<DeferredHeader>,
    /// The last list, to which values are appended: the contents of the innermost open value, or
    /// the output.
    list: ValueList,
    /// The open values around the innermost one, the outermost first.
    around: Vec<Open>,
    /// The innermost open value. It isn't in `around`, so that a single open value needs no
    /// allocation.
    innermost: Option<Open>,
}

impl Model for Encoder {
    ghost use Rattle.std.specs.Prelude.{map};
    ghost use Rattle.rasn_enc.specs.View.{View};

    ghost Value = { View };

    ghost use Rattle.rasn_enc.specs.Buffer.Lists.{tags_of};
    ghost use Rattle.rasn_enc.specs.Buffer.OpenValues.{frame_in, Chain, opens, IsInnermost};
    ghost use Rattle.rasn_enc.specs.Buffer.Cuts.{list_from, Sound};

    ghost view = { λ e. record { rule = e.rule; below = map (frame_in e.gathered.items e.headers.items) (opens e.around.items e.innermost); last = record { octets = list_from e.gathered.items e.headers.items e.list.start e.list.first; tags = tags_of e.list.tags } } };

    ghost invariant = { λ e. Sound e.gathered.items e.headers.items e.list.start e.list.first e.list.measured × Chain e.gathered.items e.headers.items 0 0 (opens e.around.items e.innermost) e.list.start e.list.first × IsInnermost e.around.items e.innermost };
}

/// Shows the rules and the number of octets in the last list.
impl fmt::Debug for Encoder {
    fn fmt<W: fmt::Write>(&self, f: &mut fmt::Formatter<W>) -> fmt::Result {
        f.debug_struct("Encoder")
            .field("codec", &self.codec())
            .field("written", &self.last_len())
            .finish()
    }
}

impl Encoder {
    /// Makes an encoder with an empty output.
    ///
    /// # Errors
    /// `OutOfMemory` if 1024 octets can't be reserved.
    #[inline(always)]
    pub fn new(alloc: Global, options: EncoderOptions) -> Result<Encoder, EncodeError>
        ensures ok { IfOk result (λ e. e ≡ started options false) }
        ensures memory_alone { IfErr result (IsAllocError options) }
    {
        Encoder::new_with_buffer(alloc, options, Vec::new(alloc))
    }

    /// Makes an encoder of the components of a SET. Its output keeps their outermost tags, which
    /// must be in ascending order (X.690 9.3, 10.3).
    ///
    /// # Errors
    /// `OutOfMemory` if 1024 octets can't be reserved.
    pub fn new_set(alloc: Global, options: EncoderOptions) -> Result<Encoder, EncodeError>
        ensures ok { IfOk result (λ e. e ≡ started options true) }
        ensures memory_alone { IfErr result (IsAllocError options) }
    {
        let rule = options.current_codec();
        match Vec::with_capacity(alloc, INITIAL_CAPACITY) {
            Ok(buffer) => Ok(Encoder::empty(alloc, rule, buffer, true)),
            Err(_) => Err(out_of_memory(rule)),
        }
    }

    /// Makes an encoder that writes its output into this vector, replacing what it holds.
    ///
    /// # Errors
    /// `OutOfMemory` if 1024 octets can't be reserved.
    #[inline(always)]
    pub fn new_with_buffer(
        alloc: Global,
        options: EncoderOptions,
        buffer: Vec<u8>,
    ) -> Result<Encoder, EncodeError>
        ensures ok { IfOk result (λ e. e ≡ started options false) }
        ensures memory_alone { IfErr result (IsAllocError options) }
    {
        let mut buffer = buffer;
        buffer.clear();
        match buffer.reserve(INITIAL_CAPACITY) {
            Ok(()) => Ok(Encoder::over(alloc, options, buffer)),
            Err(_) => Err(out_of_memory(options.current_codec())),
        }
    }

    /// Makes an encoder that writes its output into this vector, replacing what it holds. Unlike
    /// `new_with_buffer`, this call reserves nothing, so it can't fail.
    #[inline(always)]
    pub fn over(alloc: Global, options: EncoderOptions, buffer: Vec<u8>) -> Encoder
        ensures { result ≡ started options false }
    {
        Encoder::empty(alloc, options.current_codec(), buffer, false)
    }

    /// Returns the rules by which the encoder writes.
    pub fn codec(&self) -> Codec
        ensures { result ≡ self.now.rule }
    {
        self.rule
    }

    /// Returns the encoder's allocator.
    pub fn alloc(&self) -> Global {
        self.alloc
    }

    /// Returns the octets written. If a value is still open, they are the contents of the innermost
    /// open value.
    ///
    /// # Errors
    /// `SetOutOfOrder` if the output keeps tags and one of them is below the one before it;
    /// otherwise only `OutOfMemory`.
    #[inline(always)]
    pub fn output(self) -> Result<Vec<u8>, EncodeError>
        ensures ok { IfOk result (λ v. v.items ≡ self.last.octets) }
        ensures order { OnOk result (AreTagsInOrder self) }
        ensures fails { IfErr result (λ e. IsAllocError self.rule e ⊎ FailsAtTags self e) }
        ensures memory { IfErr result (λ e. IsEncodeOutOfMemory e.kind → AreTagsInOrder self) }
    {
        if self.kept_tags_out_of_order() {
            return Err(out_of_order(self.codec()));
        }
        self.rendered()
    }

    /// Checks that a size is within the bounds of the constraints.
    ///
    /// # Errors
    /// `SizeConstraintNotSatisfied` with the size and its bounds if it isn't.
    #[inline(always)]
    pub fn check_size(&self, constraints: &Constraints, size: usize) -> Result<(), EncodeError>
        ensures ok { OnOk result (Admits ◌≤◌ constraints.now.size size) }
        ensures fails { IfErr result (FailsAtSize constraints.now size self.now.rule) }
    {
        if constraints.admits_size(size) {
            return Ok(());
        }
        Err(EncodeError {
            kind: EncodeErrorKind::SizeConstraintNotSatisfied {
                size,
                expected: constraints.size_bounds(),
            },
            codec: self.codec(),
        })
    }
}

fn out_of_order(codec: Codec) -> EncodeError
    ensures { IsOrderError codec result }
{
    EncodeError {
        kind: EncodeErrorKind::CodecSpecific {
            inner: CodecEncodeError::Ber(BerEncodeErrorKind::SetOutOfOrder),
        },
        codec,
    }
}

fn out_of_memory(codec: Codec) -> EncodeError
    ensures { IsAllocError codec result }
{
    EncodeError {
        kind: EncodeErrorKind::OutOfMemory,
        codec,
    }
}
