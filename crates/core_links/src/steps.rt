//! The places of a reader of a link text, and the effect of a byte at each (RFC 6690, section 2). Each byte is looked
//! at once.

ghost use Rattle.std.specs.Prelude.{◌≡◌};
ghost use Rattle.core_links.specs.Links as grammar;
ghost use Rattle.core_links.specs.Steps as spec;

/// The place of a reader.
#[derive(Debug, Clone, Copy, PartialEq, Eq, Drop)]
pub enum ReaderPlace {
    /// At the front of the text.
    Start,
    /// After a `,`, and spaces perhaps.
    BeforeLink,
    /// Between `<` and `>`.
    Target,
    /// Right after a target, or after a value in quotes.
    After,
    /// After spaces that `;` or `,` must follow.
    Spaces,
    /// After a `;`, and spaces perhaps.
    BeforeName,
    Name,
    /// After `=`.
    BeforeValue,
    /// In a value without quotes.
    Token,
    /// Between quotes.
    Quoted,
    /// Between quotes, after `\`.
    Escape,
}

/// An act of a reader on a byte.
#[derive(Debug, Clone, Copy, PartialEq, Eq, Drop)]
pub enum ByteUse {
    /// Nothing is kept of it.
    Skip,
    /// It is of the target.
    Target,
    /// It is of a parameter's name.
    Name,
    /// A value begins after it.
    BeginValue,
    /// It is of a value.
    Value,
    /// A parameter has ended, if one had begun.
    EndParam,
    /// A link has ended.
    EndLink,
}

/// The place of a reader after a byte, and its act on the byte.
#[derive(Debug, Clone, Copy, PartialEq, Eq, Drop)]
pub struct Step {
    pub place: ReaderPlace,
    pub act: ByteUse,
}

/// A step.
fn goes(place: ReaderPlace, act: ByteUse) -> Option<Step>
    ensures { result ≡ spec.goes place act }
{
    Some(Step { place, act })
}

/// A byte of a target: a visible one but `<` and `>`.
fn is_target_byte(byte: u8) -> bool
    ensures { result ≡ grammar.is_target_byte byte }
{
    matches!(byte, b'!'..=b'~') && !matches!(byte, b'<' | b'>')
}

/// A byte of a parameter's name.
fn is_name_byte(byte: u8) -> bool
    ensures { result ≡ grammar.is_name_byte byte }
{
    byte.is_ascii_alphanumeric() || matches!(byte, b'*' | b'-' | b'_' | b'.')
}

/// A byte of a value without quotes.
fn is_token_byte(byte: u8) -> bool
    ensures { result ≡ grammar.is_token_byte byte }
{
    matches!(byte, b'!'..=b'~') && !matches!(byte, b'"' | b';' | b',' | b'<' | b'>' | b'\\')
}

/// A byte that has `\` before it in quotes.
fn is_escaped(byte: u8) -> bool
    ensures { result ≡ grammar.is_escaped byte }
{
    matches!(byte, b'"' | b'\\')
}

/// A byte that stands for itself in quotes.
fn is_quoted_byte(byte: u8) -> bool
    ensures { result ≡ grammar.is_quoted_byte byte }
{
    byte >= b' ' && !is_escaped(byte)
}

fn step_start(byte: u8) -> Option<Step>
    ensures { result ≡ spec.step_start byte }
{
    if byte == b'<' {
        return goes(ReaderPlace::Target, ByteUse::Skip);
    }
    None
}

fn step_before_link(byte: u8) -> Option<Step>
    ensures { result ≡ spec.step_before_link byte }
{
    if byte == b' ' {
        return goes(ReaderPlace::BeforeLink, ByteUse::Skip);
    }
    step_start(byte)
}

fn step_target(byte: u8) -> Option<Step>
    ensures { result ≡ spec.step_target byte }
{
    if is_target_byte(byte) {
        return goes(ReaderPlace::Target, ByteUse::Target);
    }
    if byte == b'>' {
        return goes(ReaderPlace::After, ByteUse::Skip);
    }
    None
}

fn step_after(byte: u8) -> Option<Step>
    ensures { result ≡ spec.step_after byte }
{
    match byte {
        b' ' => goes(ReaderPlace::Spaces, ByteUse::Skip),
        b';' => goes(ReaderPlace::BeforeName, ByteUse::EndParam),
        b',' => goes(ReaderPlace::BeforeLink, ByteUse::EndLink),
        _ => None,
    }
}

fn step_before_name(byte: u8) -> Option<Step>
    ensures { result ≡ spec.step_before_name byte }
{
    if is_name_byte(byte) {
        return goes(ReaderPlace::Name, ByteUse::Name);
    }
    if byte == b' ' {
        return goes(ReaderPlace::BeforeName, ByteUse::Skip);
    }
    None
}

fn step_name(byte: u8) -> Option<Step>
    ensures { result ≡ spec.step_name byte }
{
    if is_name_byte(byte) {
        return goes(ReaderPlace::Name, ByteUse::Name);
    }
    if byte == b'=' {
        return goes(ReaderPlace::BeforeValue, ByteUse::BeginValue);
    }
    step_after(byte)
}

fn step_before_value(byte: u8) -> Option<Step>
    ensures { result ≡ spec.step_before_value byte }
{
    if is_token_byte(byte) {
        return goes(ReaderPlace::Token, ByteUse::Value);
    }
    if byte == b'"' {
        return goes(ReaderPlace::Quoted, ByteUse::Skip);
    }
    None
}

fn step_token(byte: u8) -> Option<Step>
    ensures { result ≡ spec.step_token byte }
{
    if is_token_byte(byte) {
        return goes(ReaderPlace::Token, ByteUse::Value);
    }
    step_after(byte)
}

fn step_quoted(byte: u8) -> Option<Step>
    ensures { result ≡ spec.step_quoted byte }
{
    if is_quoted_byte(byte) {
        return goes(ReaderPlace::Quoted, ByteUse::Value);
    }
    match byte {
        b'"' => goes(ReaderPlace::After, ByteUse::Skip),
        b'\\' => goes(ReaderPlace::Escape, ByteUse::Skip),
        _ => None,
    }
}

fn step_escape(byte: u8) -> Option<Step>
    ensures { result ≡ spec.step_escape byte }
{
    if is_escaped(byte) {
        return goes(ReaderPlace::Quoted, ByteUse::Value);
    }
    None
}

/// The step that a byte makes at a place, if it may stand there.
pub fn step_at(place: ReaderPlace, byte: u8) -> Option<Step>
    ensures { result ≡ spec.step_at place byte }
{
    match place {
        ReaderPlace::Start => step_start(byte),
        ReaderPlace::BeforeLink => step_before_link(byte),
        ReaderPlace::Target => step_target(byte),
        ReaderPlace::After => step_after(byte),
        ReaderPlace::Spaces => step_after(byte),
        ReaderPlace::BeforeName => step_before_name(byte),
        ReaderPlace::Name => step_name(byte),
        ReaderPlace::BeforeValue => step_before_value(byte),
        ReaderPlace::Token => step_token(byte),
        ReaderPlace::Quoted => step_quoted(byte),
        ReaderPlace::Escape => step_escape(byte),
    }
}

/// A link text may end at this place. Each place is listed, since with `_` the definition of the contract doesn't
/// compute.
pub fn may_end(place: ReaderPlace) -> bool
    ensures { result ≡ spec.may_end place }
{
    match place {
        ReaderPlace::Start => true,
        ReaderPlace::BeforeLink => false,
        ReaderPlace::Target => false,
        ReaderPlace::After => true,
        ReaderPlace::Spaces => false,
        ReaderPlace::BeforeName => false,
        ReaderPlace::Name => true,
        ReaderPlace::BeforeValue => false,
        ReaderPlace::Token => true,
        ReaderPlace::Quoted => false,
        ReaderPlace::Escape => false,
    }
}
