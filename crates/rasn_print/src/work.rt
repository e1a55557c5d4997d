//! What is done with each message.
ghost use Rattle.std.specs.Prelude.{◌≡◌, false, Some, IfOk, IsTrue, slice_get};
ghost use Rattle.rasn_types.specs.declared.types.codec.Codec.TheVariants.{Ber, Der};
ghost use Rattle.rasn_lint.specs.LocalTimes.{IsFirstIn};
ghost use Rattle.rasn_print.specs.declared.types.MessageType.{MessageType};
ghost use Rattle.rasn_print.specs.declared.command_line.Work.TheVariants.{Check, Encode, Normalise};
ghost use Rattle.rasn_print.specs.Verdicts.{IsVerdict, IsDerVerdict, IsRefusal, IsInForm, IsEncoded, HasNoLocalTime, opens_of};

use crate::command_line::{Call, Work};
use crate::dump::{End, Entries, deeper_at};
use crate::exact::exact_numbers;
use crate::example::example_of;
use crate::fingerprint::fingerprint_line;
use crate::guess::{Likeness, likeness_of};
use crate::known::{Candidates, Known};
use crate::offsets::offsets_text;
use crate::page::list::{Listed, Nest, list};
use crate::page::page_data;
use crate::printer::large::LARGE;
use crate::printer::line_text;
use crate::printer::object::{laid_out, object_text};
use crate::query::{part_at, row_text};
use crate::reading::{check, read_alone, remainder, show};
use crate::reason::{ADVICE, Reason, path_of};
use crate::refusal_text::{extra_from, text_of};
use crate::similar::meant_by;
use crate::types::{KnownType, MessageType};
use crate::values::error_after;
use base64::engine::general_purpose::STANDARD;
use rasn_dynamic::{Refusal, WriteError, decode};
use rasn_json::{EncodeJsonError, JsonError, Layout, encode, to_json};
use rasn_lint::{Departure, LintError, OpenTypes, check as check_der, lint, local_time};
use rasn_schema::{Type, TypeId, Value, View, part_type, type_at};
use rasn_text::{Escaping, is_hidden, visible};
use rasn_types::error::{BerDecodeErrorKind, CodecDecodeError, DecodeErrorKind};
use rasn_types::types::{Codec, Hexadecimal, Tag};
use std::alloc::{AllocError, Global};
use std::{fmt, str};

/// How many encodings may be in one another in a message of which all departures are listed: each
/// of those in open types has its path.
const LINTED: usize = 256;

/// Says, after why a local time is refused, how it is taken.
const NO_ZONE: &str = ": it has no zone; --local utc counts it as one of UTC";

/// Says, after why octets aren't written, where the fault is.
const UNWRITTEN: &str = ", in the octets that would be written";

/// What every message is worked on with.
#[derive(Clone, Copy)]
pub struct Context<'a> {
    pub alloc: Global,
    pub call: &'a Call,
    /// The types that messages may be of: the one that the call or a label names, or all that are
    /// tried, the first of which that reads a message is its type.
    pub known: &'a Known<'a>,
    /// Whether names are in bold.
    pub is_colored: bool,
}

/// In which form a message was handed over, and its octets.
#[derive(Clone, Copy)]
pub struct Input<'a> {
    pub octets: &'a [u8],
    /// The label of its block of PEM.
    pub label: Option<&'a str>,
    /// Whether it was in hexadecimal or base64.
    pub is_text: bool,
    /// The text that is before it, if it is JSON.
    pub before: &'a str,
}

impl<'a> Input<'a> {
    /// Returns octets that are in no block of PEM and were no text.
    pub(crate) fn of(octets: &'a [u8]) -> Input<'a> {
        Input {
            octets,
            label: None,
            is_text: false,
            before: "",
        }
    }

    /// Returns octets that were text.
    pub(crate) fn text(octets: &'a [u8]) -> Input<'a> {
        Input {
            is_text: true,
            ..Input::of(octets)
        }
    }

    /// Returns the octets of a block of PEM with this label.
    pub(crate) fn labelled(octets: &'a [u8], label: &'a str) -> Input<'a> {
        Input {
            label: Some(label),
            ..Input::of(octets)
        }
    }
}

/// What is printed for a message.
#[derive(Drop)]
pub enum Answer {
    /// These octets.
    Done(Vec<u8>),
    /// The lines of a large message of this type, which are made as they are written.
    Large(Shown),
    /// A line for each departure from DER, of which there is one at least.
    Departures(Vec<Reason>),
    /// Why it is refused.
    Refused(Reason),
}

/// The type of a message that is shown part by part.
#[derive(Drop)]
pub struct Shown {
    pub(crate) candidates: Candidates,
    pub(crate) root: TypeId,
    pub(crate) rule: Codec,
    /// The name of the type.
    pub(crate) name: String,
    /// The lines after those of the value.
    pub(crate) end: String,
}

/// What is printed, unless memory runs out.
type Answered = Result<Answer, AllocError>;

/// Returns what is printed for a message: of the type that decides it, or of the first of the known
/// types that reads it.
///
/// # Errors
/// `AllocError` if memory runs out.
pub fn answer_to(context: &Context<'_>, input: &Input<'_>) -> Result<Answer, AllocError> {
    let known = context.known;
    if let (Candidates::Named | Candidates::Labelled(_), Some(of)) = (
        known.candidates,
        known.types.first(),
    ) {
        return answer_by(context, &type_of(context, of), input);
    }
    answer_by_trial(context, input)
}

/// Returns whether the first of the known types reads a message.
///
/// # Errors
/// `AllocError` if memory runs out.
pub(crate) fn is_of_first(context: &Context<'_>, input: &Input<'_>) -> Result<bool, AllocError> {
    let Some(of) = context.known.types.first() else {
        return Ok(false);
    };
    let wanted = as_tried(context, &type_of(context, of));
    match check(context.alloc, &wanted, input.octets) {
        Ok(()) => Ok(true),
        Err(found) if found.error.is_out_of_memory() => Err(AllocError),
        Err(_) => Ok(false),
    }
}

/// Returns what is printed for a message that the first of the known types reads.
///
/// # Errors
/// `AllocError` if memory runs out.
pub(crate) fn answer_of_first(context: &Context<'_>, input: &Input<'_>) -> Answered {
    match context.known.types.first() {
        Some(of) => answer_as(context, &type_of(context, of), input),
        None => answer_by_trial(context, input),
    }
}

/// Returns a known type, with the rules of the call or its own.
fn type_of<'a>(context: &Context<'a>, of: &KnownType<'a>) -> MessageType<'a> {
    MessageType::new(&context.known.schema, of, context.call.rule)
}

/// Returns what is printed for a message of the first type that reads it, or else why it is refused
/// as the one by whose parts most of it is read.
fn answer_by_trial(context: &Context<'_>, input: &Input<'_>) -> Answered {
    let alloc = context.alloc;
    if input.octets.is_empty() {
        return refused_for(
            alloc,
            &"no octets; --help says in which forms messages are read",
        );
    }
    for of in &context.known.types {
        let wanted = type_of(context, of);
        match check(alloc, &as_tried(context, &wanted), input.octets) {
            Ok(()) => return answer_as(context, &wanted, input),
            Err(refusal) if refusal.error.is_out_of_memory() => return Err(AllocError),
            Err(_) => {}
        }
    }
    match closest_to(context, input.octets)? {
        Some(wanted) => answer_as(context, &wanted, input),
        None => {
            let text = format!(in alloc; "none of the known messages; {ADVICE}")?;
            refused_for(alloc, &text)
        }
    }
}

/// Returns the first of the types by whose parts most is read of octets that none reads, if any is.
fn closest_to<'a>(
    context: &Context<'a>,
    octets: &[u8],
) -> Result<Option<MessageType<'a>>, AllocError> {
    let (mut most, mut closest) = (Likeness::NONE, None);
    for of in &context.known.types {
        let wanted = type_of(context, of);
        let found = likeness_of(context.alloc, &wanted, octets)?;
        if found.is_more_than(&most) {
            most = found;
            closest = Some(wanted);
        }
    }
    Ok(closest)
}

/// Returns a type with the rules by which a message is tried: `lint` reads by BER.
fn as_tried<'a>(context: &Context<'_>, wanted: &MessageType<'a>) -> MessageType<'a> {
    let mut tried = *wanted;
    if context.call.work == Work::Lint {
        tried.rule = Codec::Ber;
    }
    tried
}

/// Returns what is printed for a message that seems to be of this type.
fn answer_as(context: &Context<'_>, wanted: &MessageType<'_>, input: &Input<'_>) -> Answered {
    match answer_by(context, wanted, input)? {
        Answer::Refused(reason) => {
            let mut reason = reason;
            reason.guess = Some(String::from_str(context.alloc, wanted.name)?);
            Ok(Answer::Refused(reason))
        }
        answer => Ok(answer),
    }
}

/// Returns what is printed for a message of this type.
fn answer_by(context: &Context<'_>, wanted: &MessageType<'_>, input: &Input<'_>) -> Answered
    ensures der { context.now.call.now.work ≡ Check → wanted.now.rule ≡ Der → IfOk result (IsDerVerdict (opens_of wanted.now.holds_open context.now.call.now.open_types) wanted.now input.now.octets.now) }
    ensures other { context.now.call.now.work ≡ Check → (wanted.now.rule ≡ Der → ⊥) → IfOk result (IsVerdict wanted.now input.now.octets.now) }
    ensures encoded { context.now.call.now.work ≡ Encode → wanted.now.rule ≡ Der → IfOk result (IsEncoded (opens_of wanted.now.holds_open context.now.call.now.open_types) wanted.now input.now) }
    ensures zones { context.now.call.now.work ≡ Normalise → wanted.now.rule ≡ Ber → context.now.call.now.is_local_utc ≡ false → IfOk result (HasNoLocalTime wanted.now input.now.octets.now) }
{
    let message = Message {
        context,
        wanted,
        octets: input.octets,
        input,
    };
    match context.call.work {
        Work::Normalise => message.normalised(),
        Work::Lint => message.linted(),
        Work::Json => message.json(),
        Work::Encode => message.encoded(),
        Work::Example => message.example(),
        Work::Check if wanted.rule == Codec::Der => message.checked(),
        Work::Check => message.read(),
        Work::Get | Work::Table => message.queried(),
        Work::Show | Work::Types | Work::Dump => message.shown(),
    }
}

/// Returns the refusal for this reason.
fn refused_for<T: fmt::Display>(alloc: Global, reason: &T) -> Answered
    ensures { IfOk result IsRefusal }
{
    Ok(Answer::Refused(Reason::of(alloc, reason)?))
}

/// Returns a refusal for this reason, to which more is added.
fn explained(reason: Reason, more: &str) -> Answered
    ensures { IfOk result IsRefusal }
{
    let mut reason = reason;
    reason.text.push_str(more)?;
    Ok(Answer::Refused(reason))
}

/// A message that is worked on, with its type.
#[derive(Clone, Copy)]
struct Message<'m, 'input> {
    context: &'m Context<'m>,
    wanted: &'m MessageType<'m>,
    octets: &'input [u8],
    input: &'m Input<'input>,
}

impl Message<'_, '_> {
    /// Returns that it is refused.
    fn refused(&self, refusal: Refusal) -> Answered
        ensures { IfOk result IsRefusal }
    {
        Ok(Answer::Refused(self.reason_of(refusal)?))
    }

    /// Returns why it is refused. Of octets that a value has after its parts the place is that of
    /// the first of them.
    fn reason_of(&self, refusal: Refusal) -> Result<Reason, AllocError> {
        let mut refusal = refusal;
        if refusal.error.is_out_of_memory() {
            return Err(AllocError);
        }
        let alloc = self.context.alloc;
        let mut entries = Entries::new(alloc, self.octets);
        let text = self.text_of(&mut entries, &refusal, &None)?;
        refusal.offset = self.first_of(&refusal);
        let shown = refusal.with_names(self.wanted.schema, self.wanted.root);
        Ok(Reason {
            guess: None,
            path: path_of(alloc, &shown, &refusal)?,
            byte: Some(refusal.offset),
            text,
        })
    }

    /// Returns where what is refused begins.
    fn first_of(&self, refusal: &Refusal) -> usize {
        let octets = self.octets.get(refusal.offset..).unwrap_or(&[]);
        if let DecodeErrorKind::UnexpectedExtraData { length } = &refusal.error.kind {
            if *length < octets.len() {
                let extra = extra_from(self.context.alloc, octets, *length);
                return refusal.offset.saturating_add(extra);
            }
        }
        refusal.offset
    }

    /// Returns the text of a refusal, in words for a terminal. The next of the encodings isn't after
    /// its place.
    fn text_of(
        &self,
        entries: &mut Entries<'_>,
        refusal: &Refusal,
        inner: &Option<Vec<usize>>,
    ) -> Result<String, AllocError> {
        let offset = refusal.offset;
        let end = if matches!(refusal.error.kind, DecodeErrorKind::Incomplete { .. }) {
            entries.end_at(offset, self.levels_of(refusal, inner))?
        } else {
            End::Input
        };
        text_of(
            self.context.alloc,
            &refusal.error,
            self.octets.get(offset..).unwrap_or(&[]),
            end,
        )
    }

    /// Returns in how many encodings the one is that is refused: inside an open type there are
    /// these indices on the way to it.
    fn levels_of(&self, refusal: &Refusal, inner: &Option<Vec<usize>>) -> usize {
        if refusal.is_cut {
            return usize::MAX;
        }
        let types = self.wanted.schema.types();
        let mut id = self.wanted.root;
        let mut levels = 0usize;
        for step in &refusal.steps {
            let Some(ty) = type_at(types, id) else {
                break;
            };
            if !matches!(ty, Type::Choice { .. }) {
                levels = levels.saturating_add(1);
            }
            id = part_type(ty, *step).unwrap_or(id);
        }
        match (inner, type_at(types, id)) {
            (Some(indices), Some(Type::Any { tag })) if *tag != Tag::EOC => {
                levels.saturating_add(indices.len()).saturating_add(1)
            }
            (Some(indices), _) => levels.saturating_add(indices.len()),
            (None, _) => levels,
        }
    }

    /// Returns whether open types are looked into: if no part is of one, no parts are listed for that.
    fn open_types(&self) -> OpenTypes
        ensures { result ≡ opens_of self.now.wanted.now.holds_open self.now.context.now.call.now.open_types }
    {
        if self.wanted.holds_open {
            self.context.call.open_types
        } else {
            OpenTypes::Unexamined
        }
    }

    /// Returns nothing for a message of DER, and else what is to be mended first. Inside an open
    /// type the path goes on by indices.
    fn checked(&self) -> Answered
        ensures { IfOk result (IsDerVerdict (opens_of self.now.wanted.now.holds_open self.now.context.now.call.now.open_types) self.now.wanted.now self.now.octets.now) }
    {
        let (alloc, wanted) = (self.context.alloc, self.wanted);
        match check_der(
            alloc,
            wanted.schema,
            wanted.root,
            self.octets,
            self.open_types(),
        ) {
            Ok(()) => Ok(Answer::Done(Vec::new(alloc))),
            Err(departure) if departure.refusal.error.is_out_of_memory() => Err(AllocError),
            Err(departure) => self.departed(departure),
        }
    }

    /// Returns nothing for a message, and else why it is refused.
    fn read(&self) -> Answered
        ensures { IfOk result (IsVerdict self.now.wanted.now self.now.octets.now) }
    {
        let alloc = self.context.alloc;
        match check(alloc, self.wanted, self.octets) {
            Ok(()) => Ok(Answer::Done(Vec::new(alloc))),
            Err(refusal) if refusal.error.is_out_of_memory() => Err(AllocError),
            Err(refusal) => self.refused(refusal),
        }
    }

    /// Returns what is to be mended first in a message that isn't DER, of which this is a
    /// departure: the first one that `lint` lists, since the reader of DER has the place of the
    /// enclosing value where what a value holds isn't in its place.
    fn departed(&self, found: Departure) -> Answered
        ensures { IfOk result IsRefusal }
    {
        if found.inner.is_some() {
            return self.refused_at(&found);
        }
        if is_refused_by_all(&found.refusal.error.kind) {
            return self.refused(found.refusal);
        }
        let (alloc, (_, schema, root)) = (self.context.alloc, self.wanted.parts());
        match lint(alloc, schema, root, self.octets, OpenTypes::Unexamined) {
            Ok(list) => match list.first() {
                Some(first) => self.refused_at(first),
                None => self.refused_at(&found),
            },
            Err(_) => self.refused(found.refusal),
        }
    }

    /// Returns that it is refused for a departure.
    fn refused_at(&self, departure: &Departure) -> Answered
        ensures { IfOk result IsRefusal }
    {
        if departure.refusal.error.is_out_of_memory() {
            return Err(AllocError);
        }
        let mut entries = Entries::new(self.context.alloc, self.octets);
        Ok(Answer::Refused(self.departure(&mut entries, departure)?))
    }

    /// Returns a departure, without what departs, as a reason. The next of the encodings isn't after
    /// its place.
    fn departure(
        &self,
        entries: &mut Entries<'_>,
        departure: &Departure,
    ) -> Result<Reason, AllocError> {
        let (_, schema, root) = self.wanted.parts();
        let refusal = &departure.refusal;
        Ok(Reason {
            guess: None,
            path: path_of(
                self.context.alloc,
                &departure.place_with_names(schema, root),
                refusal,
            )?,
            byte: Some(refusal.offset),
            text: self.text_of(entries, refusal, &departure.inner)?,
        })
    }

    /// Returns everything of a message of BER that departs from DER: a line for each departure.
    fn linted(&self) -> Answered {
        let (alloc, octets) = (self.context.alloc, self.octets);
        let (_, schema, root) = self.wanted.parts();
        if check_der(alloc, schema, root, octets, self.open_types()).is_ok() {
            return Ok(Answer::Done(Vec::new(alloc)));
        }
        if let Some(offset) = deeper_at(alloc, octets, LINTED)? {
            let mut reason = Reason::of(alloc, &"")?;
            reason.byte = Some(offset);
            reason.text = format!(in alloc; "more than {LINTED} encodings in one another")?;
            return Ok(Answer::Refused(reason));
        }
        match lint(alloc, schema, root, octets, self.context.call.open_types) {
            Ok(list) if list.is_empty() => Ok(Answer::Done(Vec::new(alloc))),
            Ok(list) => self.departures(list),
            Err(LintError::OutOfMemory) => Err(AllocError),
            Err(LintError::Refused(refusal)) => self.refused(refusal),
            Err(LintError::Remainder(count)) => {
                self.refused(remainder(alloc, self.wanted, octets, count))
            }
        }
    }

    /// Returns a line for each departure, with what departs and the section of X.690.
    fn departures(&self, list: Vec<Departure>) -> Answered {
        let (alloc, (_, schema, root)) = (self.context.alloc, self.wanted.parts());
        let mut lines = Vec::new(alloc);
        let mut entries = Entries::new(alloc, self.octets);
        for departure in list {
            let mut reason = self.departure(&mut entries, &departure)?;
            let shown = departure.with_names(schema, root);
            let (place, whole) = (shown.place.to_string(alloc)?, shown.to_string(alloc)?);
            let rule = whole.as_str().strip_prefix(place.as_str()).unwrap_or("");
            reason.text.push_str(rule)?;
            lines.push(reason)?;
        }
        Ok(Answer::Departures(lines))
    }

    /// Returns it as text or the parts of it, in colour if that is asked for.
    fn shown(&self) -> Answered {
        let (alloc, call) = (self.context.alloc, self.context.call);
        if call.has_json {
            return self.shown_as_json();
        }
        if call.has_html {
            return self.shown_on_page();
        }
        if self.octets.len() >= LARGE && !call.has_offsets {
            return self.shown_in_parts();
        }
        let shown = if call.has_offsets {
            offsets_text(alloc, self.context.known, self.wanted, self.octets)
        } else {
            show(alloc, self.context.known, self.wanted, self.octets)
        };
        match shown {
            Ok(text) => {
                let mut text = text;
                if !call.has_offsets {
                    let line = fingerprint_line(alloc, self.wanted, self.octets)?;
                    text.push_str(line.as_str())?;
                }
                let text = lines_shown(alloc, self.context.is_colored, text)?;
                Ok(Answer::Done(text.into_bytes()))
            }
            Err(refusal) => self.refused(refusal),
        }
    }

    /// Returns what is shown of it as JSON: in one line if a line holds a message.
    fn shown_as_json(&self) -> Answered {
        let (context, wanted) = (self.context, self.wanted);
        match read_alone(context.alloc, wanted, self.octets) {
            Ok(value) => {
                let layout = context.call.layout();
                let text = object_text(context.alloc, context.known, wanted, &value, layout)?;
                json_line(context.alloc, text)
            }
            Err(refusal) => self.refused(refusal),
        }
    }

    /// Returns its data for a page, with what departs from DER.
    fn shown_on_page(&self) -> Answered {
        let (alloc, wanted) = (self.context.alloc, self.wanted);
        let mut listed = Listed::new(alloc, self.context.known, wanted)?;
        if let Some(refusal) = list(&mut listed, wanted.root, self.octets, Nest::WHOLE)? {
            return self.refused(refusal);
        }
        let reasons = self.faults()?;
        let (octets, reasons) = (self.octets, reasons.as_slice());
        let data = page_data(alloc, octets, wanted.name, Some(&listed), reasons)?;
        Ok(Answer::Done(data))
    }

    /// Returns what departs from DER, or why it is refused.
    fn faults(&self) -> Result<Vec<Reason>, AllocError> {
        match self.linted()? {
            Answer::Departures(reasons) => Ok(reasons),
            Answer::Refused(reason) => {
                let mut reasons = Vec::new(self.context.alloc);
                reasons.push(reason)?;
                Ok(reasons)
            }
            Answer::Done(_) | Answer::Large(_) => Ok(Vec::new(self.context.alloc)),
        }
    }

    /// Returns that its lines are made as they are written.
    fn shown_in_parts(&self) -> Answered {
        let (context, wanted) = (self.context, self.wanted);
        match check(context.alloc, wanted, self.octets) {
            Ok(()) => Ok(Answer::Large(Shown {
                candidates: context.known.candidates,
                root: wanted.root,
                rule: wanted.rule,
                name: String::from_str(context.alloc, wanted.name)?,
                end: fingerprint_line(context.alloc, wanted, self.octets)?,
            })),
            Err(refusal) => self.refused(refusal),
        }
    }

    /// Returns the values of the parts that are asked for: a line for each, or a row of a table, which
    /// has nothing for a part that is absent.
    fn queried(&self) -> Answered {
        let (alloc, call) = (self.context.alloc, self.context.call);
        let is_table = call.work == Work::Table;
        let value = match read_alone(alloc, self.wanted, self.octets) {
            Ok(value) => value,
            Err(refusal) => return self.refused(refusal),
        };
        let view = self.wanted.schema.view(self.wanted.root, &value);
        let mut cells = Vec::new(alloc);
        for path in &call.paths {
            let cell = match part_at(alloc, &view, path.as_str())? {
                Some(part) => self.cell_of(path.as_str(), &part)?,
                None if is_table => Ok(String::new(alloc)),
                None => {
                    let text = format!(in alloc; "the message has no part {path}")?;
                    return refused_for(alloc, &text);
                }
            };
            match cell {
                Ok(cell) => cells.push(cell)?,
                Err(error) => return refused_for(alloc, &error),
            }
        }
        if is_table {
            return Ok(Answer::Done(row_text(alloc, call, cells.as_slice())?.into_bytes()));
        }
        let mut lines = cells.as_slice().join(alloc, "\n")?;
        lines.push('\n')?;
        Ok(Answer::Done(lines.into_bytes()))
    }

    /// Returns the value of a part in a line, in which nothing is hidden: as JSON if that is asked
    /// for, or if it holds others.
    fn cell_of(
        &self,
        path: &str,
        part: &View<'_, '_>,
    ) -> Result<Result<String, JsonError>, AllocError> {
        let (alloc, call) = (self.context.alloc, self.context.call);
        if !call.has_json {
            if let Some(text) = line_text(alloc, self.context.known, path, part)? {
                return Ok(Ok(visible(alloc, Escaping::Line, text.as_str())?));
            }
        }
        match to_json(
            alloc,
            part.schema,
            part.type_id,
            part.value,
            Layout::Compact,
        ) {
            Ok(text) => Ok(Ok(printed(alloc, Escaping::Json, text)?)),
            Err(error) if error.is_out_of_memory() => Err(AllocError),
            Err(error) => Ok(Err(error)),
        }
    }

    /// Returns it as JSON: in one line if a line holds a message.
    fn json(&self) -> Answered {
        match read_alone(self.context.alloc, self.wanted, self.octets) {
            Ok(value) => self.json_of(&value),
            Err(refusal) => self.refused(refusal),
        }
    }

    /// Returns a value of its type as JSON.
    fn json_of(&self, value: &Value<'_>) -> Answered {
        let (alloc, (_, schema, root)) = (self.context.alloc, self.wanted.parts());
        let (layout, is_exact) = (
            self.context.call.layout(),
            self.context.call.has_exact_numbers,
        );
        let first = if is_exact { Layout::Compact } else { layout };
        match to_json(alloc, schema, root, value, first) {
            Ok(text) if is_exact => {
                let text = exact_numbers(alloc, text.as_str())?;
                json_line(alloc, laid_out(alloc, text, layout)?)
            }
            Ok(text) => json_line(alloc, text),
            Err(error) if error.is_out_of_memory() => Err(AllocError),
            Err(error) => refused_for(alloc, &error),
        }
    }

    /// Returns a value of its type as JSON that `encode` encodes.
    fn example(&self) -> Answered {
        let (alloc, (_, schema, root)) = (self.context.alloc, self.wanted.parts());
        match example_of(alloc, schema, root)? {
            Some(value) => self.json_of(&value),
            None => refused_for(
                alloc,
                &"no value of the type is small enough for an example",
            ),
        }
    }

    /// Returns the octets of the message whose JSON is read.
    fn encoded(&self) -> Answered
        ensures { self.now.wanted.now.rule ≡ Der → IfOk result (IsEncoded (opens_of self.now.wanted.now.holds_open self.now.context.now.call.now.open_types) self.now.wanted.now self.now.input.now) }
    {
        let (alloc, (rule, schema, root)) = (self.context.alloc, self.wanted.parts());
        let Ok(text) = str::from_utf8(self.octets) else {
            return refused_for(alloc, &"not UTF-8");
        };
        match encode(alloc, rule, schema, root, text) {
            Ok(octets) => match rule {
                Codec::Der => self.written(octets),
                Codec::Ber | Codec::Cer => in_form(alloc, self.input, octets),
            },
            Err(error) if error.is_out_of_memory() => Err(AllocError),
            Err(error) => self.not_encoded(error),
        }
    }

    /// Returns octets that were encoded under DER in the form of the input. They are refused as by
    /// `check`, since those of an open type are what the JSON has.
    fn written(&self, octets: Vec<u8>) -> Answered
        ensures { IfOk result (IsEncoded (opens_of self.now.wanted.now.holds_open self.now.context.now.call.now.open_types) self.now.wanted.now self.now.input.now) }
    {
        let written = Message {
            context: self.context,
            wanted: self.wanted,
            octets: &octets,
            input: self.input,
        };
        match written.checked()? {
            Answer::Refused(reason) => explained(reason, UNWRITTEN),
            Answer::Done(_) | Answer::Large(_) | Answer::Departures(_) => {
                in_form(self.context.alloc, self.input, octets)
            }
        }
    }

    /// Returns why JSON isn't encoded, with the name that was probably meant by one that isn't known.
    fn not_encoded(&self, error: EncodeJsonError) -> Answered
        ensures { IfOk result IsRefusal }
    {
        let (alloc, wanted) = (self.context.alloc, self.wanted);
        match error {
            EncodeJsonError::Json(error) => {
                let meant = meant_by(alloc, wanted.schema.types(), wanted.root, &error)?;
                let error = error_after(self.input.before, error);
                refused_for(alloc, &format!(in alloc; "{error}{meant}")?)
            }
            EncodeJsonError::Encode(error) => refused_for(alloc, &error),
        }
    }

    /// Returns its DER octets, if DER reads these as the same value. A local time is refused, which
    /// is no instant in UTC (X.680 46.3), unless the call says that it counts as one.
    fn normalised(&self) -> Answered
        ensures { self.now.wanted.now.rule ≡ Ber → self.now.context.now.call.now.is_local_utc ≡ false → IfOk result (HasNoLocalTime self.now.wanted.now self.now.octets.now) }
    {
        match self.local_time() {
            Ok(None) => self.normal(),
            Ok(Some(refusal)) => explained(self.reason_of(refusal)?, NO_ZONE),
            Err(refusal) => self.refused(refusal),
        }
    }

    /// Returns its DER octets, if DER reads these as the same value.
    fn normal(&self) -> Answered {
        match read_alone(self.context.alloc, self.wanted, self.octets) {
            Ok(value) => self.normal_of(&value),
            Err(refusal) => self.refused(refusal),
        }
    }

    /// Returns the refusal of the first local time of the message, which BER alone has, unless the
    /// call says what such a time counts as.
    fn local_time(&self) -> Result<Option<Refusal>, Refusal>
        ensures { self.now.wanted.now.rule ≡ Ber → self.now.context.now.call.now.is_local_utc ≡ false → IfOk result (IsFirstIn self.now.wanted.now.schema.now.types.items Ber self.now.wanted.now.root.0 self.now.octets.now) }
    {
        let (rule, schema, root) = self.wanted.parts();
        match rule {
            Codec::Ber if !self.context.call.is_local_utc => {
                local_time(self.context.alloc, rule, schema, root, self.octets)
            }
            Codec::Ber | Codec::Cer | Codec::Der => Ok(None),
        }
    }

    /// Returns the DER octets of a value of its type, if DER reads these as the same value.
    fn normal_of(&self, value: &Value<'_>) -> Answered {
        let (alloc, (_, schema, root)) = (self.context.alloc, self.wanted.parts());
        match rasn_dynamic::encode(alloc, Codec::Der, schema, root, value) {
            Ok(octets) => {
                if is_read_back(alloc, self.wanted, value, &octets)? {
                    return in_form(alloc, self.input, octets);
                }
                refused_for(alloc, &"the value isn't read back from its DER octets")
            }
            Err(error) => {
                if is_out_of_memory(&error) {
                    return Err(AllocError);
                }
                refused_for(alloc, &error)
            }
        }
    }
}

/// Returns JSON as it is printed, with the end of its line.
fn json_line(alloc: Global, text: String) -> Answered {
    let mut text = printed(alloc, Escaping::Json, text)?;
    text.push('\n')?;
    Ok(Answer::Done(text.into_bytes()))
}

/// Returns whether BER refuses octets for which the reader of DER has such an error, so that no list
/// of departures has a place for it.
fn is_refused_by_all(kind: &DecodeErrorKind) -> bool {
    matches!(
        kind,
        DecodeErrorKind::Incomplete { .. }
            | DecodeErrorKind::UnexpectedExtraData { .. }
            | DecodeErrorKind::UnexpectedEmptyInput
            | DecodeErrorKind::NoValidChoice { .. }
            | DecodeErrorKind::MissingField { .. }
            | DecodeErrorKind::CodecSpecific {
                inner: CodecDecodeError::Ber(BerDecodeErrorKind::MismatchedTag { .. }),
            }
    )
}

/// Returns whether memory ran out.
fn is_out_of_memory(error: &WriteError) -> bool {
    match error {
        WriteError::Encode(error) => error.is_out_of_memory(),
        WriteError::Unfit { .. } => false,
    }
}

/// Returns whether DER reads the octets, alone, as this value of the type.
fn is_read_back(
    alloc: Global,
    wanted: &MessageType<'_>,
    value: &Value<'_>,
    octets: &[u8],
) -> Result<bool, AllocError> {
    match decode(alloc, Codec::Der, wanted.schema, wanted.root, octets) {
        Ok(again) => Ok(again.means_same(value)),
        Err(error) => {
            if error.is_out_of_memory() {
                return Err(AllocError);
            }
            Ok(false)
        }
    }
}

/// Returns lines as they are printed, which most are as they are.
pub(crate) fn printed(
    alloc: Global,
    escaping: Escaping,
    text: String,
) -> Result<String, AllocError> {
    if text.chars().any(|it| it != '\n' && is_hidden(it)) {
        return visible(alloc, escaping, text.as_str());
    }
    Ok(text)
}

/// Returns lines as they are printed, in colour if that is asked for.
pub(crate) fn lines_shown(
    alloc: Global,
    is_colored: bool,
    text: String,
) -> Result<String, AllocError> {
    let text = printed(alloc, Escaping::Lines, text)?;
    if is_colored {
        return colored(alloc, text.as_str());
    }
    Ok(text)
}

/// Returns a text in which the name that begins each line is in bold (ECMA-48 8.3.117).
fn colored(alloc: Global, text: &str) -> Result<String, AllocError> {
    let mut shown = String::new(alloc);
    for line in text.lines() {
        match line.split_once(": ") {
            Some((name, value)) => writeln!(shown, "\x1b[1m{name}\x1b[0m: {value}")?,
            None => writeln!(shown, "\x1b[1m{line}\x1b[0m")?,
        }
    }
    Ok(shown)
}

/// Returns octets in the form of an input: as a block of PEM (RFC 7468 2), a line of hexadecimal
/// digits, or as they are.
fn in_form(alloc: Global, input: &Input<'_>, octets: Vec<u8>) -> Answered
    ensures { IfOk result (IsInForm input.now octets.items) }
{
    let text = match input.label {
        Some(label) => {
            let label = visible(alloc, Escaping::Line, label)?;
            let lines = base64_lines(alloc, &octets)?;
            format!(in alloc; "-----BEGIN {label}-----\n{lines}\n-----END {label}-----\n")?
        }
        None if input.is_text => {
            let shown = Hexadecimal::new(&octets);
            format!(in alloc; "{shown}\n")?
        }
        None => return Ok(Answer::Done(octets)),
    };
    Ok(Answer::Done(text.into_bytes()))
}

/// Returns octets in base64, with 64 symbols in each line but the last.
fn base64_lines(alloc: Global, octets: &[u8]) -> Result<String, AllocError> {
    let mut text = String::new(alloc);
    for (index, symbol) in STANDARD.encode(alloc, octets)?.chars().enumerate() {
        if index > 0 && index % 64 == 0 {
            text.push('\n')?;
        }
        text.push(symbol)?;
    }
    Ok(text)
}
