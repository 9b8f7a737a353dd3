//! The text of a line that is being written, after the bytes of its vector.
ghost use Rattle.std.specs.Prelude.{◌≡◌, [], ◌∷◌, ◌++◌, decimal};
ghost use Rattle.std.specs.Prelude.{IfOk, OnOk, IsUtf8};
ghost use Rattle.std.specs.List.{list_all};
ghost use Rattle.json.specs.Print.{escape, quoted};
ghost use Rattle.json.specs.Run.{is_plain};
ghost use Rattle.serde_json.specs.Written.{compact_text};
ghost use Rattle.osn_request.specs.Json.{signed};

use itoa::Buffer;
use json::Writer;
use std::alloc::{AllocError, Global};
use std::marker::Model;

/// A text that is written piece by piece after the bytes of a vector, which do not change.
#[derive(Drop)]
pub(crate) struct LineWriter {
    alloc: Global,
    bytes: Vec<u8>,
    start: usize,
}

impl Model for LineWriter {
    ghost use Rattle.osn_service.specs.LineWriterInside.{Line, line_in, IsLine};

    ghost Value = { Line };

    ghost view = { line_in };

    ghost invariant = { IsLine };
}

impl LineWriter {
    /// Returns a writer without text, after these bytes.
    pub(crate) fn new(alloc: Global, bytes: Vec<u8>) -> LineWriter
        ensures before { result.before ≡ bytes.items }
        ensures text { result.text ≡ [] }
    {
        let start = bytes.len();
        LineWriter {
            alloc,
            bytes,
            start,
        }
    }

    /// Returns the bytes with the text after them.
    pub(crate) fn into_bytes(self) -> Vec<u8>
        ensures items { result.items ≡ self.before ++ self.text }
        ensures utf8 { IsUtf8 self.text }
    {
        self.bytes
    }

    /// Returns the bytes without the text.
    pub(crate) fn into_before(self) -> Vec<u8>
        ensures { result.items ≡ self.before }
    {
        let LineWriter {
            mut bytes,
            start,
            ..
        } = self;
        bytes.truncate(start);
        bytes
    }

    /// Returns the allocator.
    pub(crate) fn alloc(&self) -> Global {
        self.alloc
    }

    /// Writes bytes that are a text.
    pub(crate) fn push_bytes(&mut self, bytes: &[u8]) -> Result<(), AllocError>
        requires { IsUtf8 bytes.now }
        ensures text { OnOk result (self.new.text ≡ self.old.text ++ bytes.now) }
        ensures before { self.new.before ≡ self.old.before }
    {
        self.bytes.extend_from_slice(bytes)
    }

    /// Writes a text as it is.
    pub(crate) fn push(&mut self, text: &str) -> Result<(), AllocError>
        ensures text { OnOk result (self.new.text ≡ self.old.text ++ text.now) }
        ensures before { self.new.before ≡ self.old.before }
    {
        self.push_bytes(text.as_bytes())
    }

    /// Writes `front` and a number.
    pub(crate) fn push_number(&mut self, front: &str, number: u32) -> Result<(), AllocError>
        ensures text { OnOk result
            (self.new.text ≡ self.old.text ++ (front.now ++ decimal number)) }
        ensures before { self.new.before ≡ self.old.before }
    {
        self.push(front)?;
        let mut buffer = Buffer::new();
        self.push(buffer.format(number))
    }

    /// Writes `front` and a number that may be negative.
    pub(crate) fn push_signed(&mut self, front: &str, number: i64) -> Result<(), AllocError>
        ensures text { OnOk result
            (self.new.text ≡ self.old.text ++ (front.now ++ compact_text (signed number))) }
        ensures before { self.new.before ≡ self.old.before }
    {
        self.push(front)?;
        let mut buffer = Buffer::new();
        self.push(buffer.format(number))
    }

    /// Writes `front` and a text as a JSON string.
    pub(crate) fn push_text(&mut self, front: &str, text: &str) -> Result<(), AllocError>
        ensures text { OnOk result
            (self.new.text ≡ self.old.text ++ (front.now ++ quoted text.now)) }
        ensures before { self.new.before ≡ self.old.before }
    {
        self.push(front)?;
        let bytes = text.as_bytes();
        if is_plain_text(bytes) {
            self.push_plain(bytes)
        } else {
            self.push_quoted(text)
        }
    }

    /// Writes a text that needs no escape, between quotation marks.
    pub(crate) fn push_plain(&mut self, bytes: &[u8]) -> Result<(), AllocError>
        requires utf8 { IsUtf8 bytes.now }
        requires plain { escape bytes.now ≡ bytes.now }
        ensures text { OnOk result (self.new.text ≡ self.old.text ++ quoted bytes.now) }
        ensures before { self.new.before ≡ self.old.before }
    {
        self.push_quotation_mark()?;
        self.push_bytes(bytes)?;
        self.push_quotation_mark()
    }

    fn push_quotation_mark(&mut self) -> Result<(), AllocError>
        ensures text { OnOk result (self.new.text ≡ self.old.text ++ 34 ∷ []) }
        ensures before { self.new.before ≡ self.old.before }
    {
        self.bytes.push(b'"')?;
        Ok(())
    }

    /// Writes a text with its escapes, between quotation marks.
    fn push_quoted(&mut self, text: &str) -> Result<(), AllocError>
        ensures text { OnOk result (self.new.text ≡ self.old.text ++ quoted text.now) }
        ensures before { self.new.before ≡ self.old.before }
    {
        let bytes = quoted_bytes(self.alloc, text)?;
        self.push_bytes(bytes.as_slice())
    }
}

/// Returns a text as a JSON string, with its escapes and its quotation marks.
fn quoted_bytes(alloc: Global, text: &str) -> Result<Vec<u8>, AllocError>
    ensures { IfOk result (λ bytes. bytes.items ≡ quoted text.now) }
{
    let mut writer = Writer::new(Vec::new(alloc));
    writer.string(text)?;
    Ok(writer.into_inner())
}

/// Returns whether no byte of a text needs an escape.
fn is_plain_text(text: &[u8]) -> bool
    ensures { result ≡ list_all is_plain text.now }
{
    text.iter().all(|byte| is_plain_byte(*byte))
}

fn is_plain_byte(byte: u8) -> bool
    ensures { result ≡ is_plain byte }
{
    !(byte == b'"' || byte == b'\\' || byte < b' ')
}
