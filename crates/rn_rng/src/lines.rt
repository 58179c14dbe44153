// Lines of XML, which are written one by one up to a limit.
ghost use Rattle.std.specs.Prelude.{◌≡◌, ◌++◌, [], None, codes, string_bytes, encode_utf8, IfOk, IfErr};
ghost use Rattle.rn_rng.specs.Layout as layout;
ghost use Rattle.rn_rng.specs.Layout.{attribute_text, attributes_text, end_tag, escaped, in_element, indent, tag_front};
ghost use Rattle.rn_rng.specs.inside.Views.{attribute_view, holder_view, optional_view, tag_attributes};
ghost use Rattle.rn_rng.specs.inside.Writes.{IsHindrance, Writes, stop_behind};

use crate::escapes::{Holder, is_plain};
use crate::tag::{Attribute, Tag};
use crate::xml_fault::XmlFault;
use std::alloc::Global;

/// The most bytes of an XML text. URIs are repeated at each use, so it may be longer than its schema by any factor.
pub const MAX_XML: usize = 67_108_864;

/// The most levels by which a line is indented, each by two spaces.
const MAX_LEVEL: usize = 32;

/// The level of what an element of this level holds.
pub(crate) fn deeper(level: usize) -> usize
    ensures { result ≡ layout.deeper level }
{
    if level < MAX_LEVEL {
        level + 1
    } else {
        MAX_LEVEL
    }
}

/// Why no more is written.
#[derive(Clone, Copy, PartialEq, Eq)]
pub(crate) enum XmlStop {
    /// The text would have more than [`MAX_XML`] bytes.
    TooLarge,
    Memory,
}

/// A text that is written up to a limit. Once it is stopped nothing more is written.
#[derive(Drop)]
pub(crate) struct Writer {
    pub text: String,
    pub stopped: Option<XmlStop>,
}

impl Writer {
    /// A text of no bytes.
    pub fn new(alloc: Global) -> Writer
        ensures text { string_bytes result.text ≡ [] }
        ensures goes { result.stopped ≡ None }
    {
        Writer {
            text: String::new(alloc),
            stopped: None,
        }
    }

    /// The text, or why there is none.
    pub fn finish(self) -> Result<String, XmlFault>
        ensures ok { IfOk result (λ text. (self.stopped ≡ None) × (text ≡ self.text)) }
        ensures err { IfErr result (IsHindrance self) }
    {
        match self.stopped {
            Some(XmlStop::Memory) => Err(XmlFault::Memory),
            Some(XmlStop::TooLarge) => Err(XmlFault::TooLarge),
            None => Ok(self.text),
        }
    }

    /// Stops if there was no memory for what was to be appended, or if the text has become too large.
    #[inline(always)]
    fn note_append(&mut self, appended: bool)
        ensures { self.new ≡ record self.old { stopped = stop_behind appended self.old } }
    {
        if !appended {
            self.stopped = Some(XmlStop::Memory);
        } else if self.text.len() > MAX_XML {
            self.stopped = Some(XmlStop::TooLarge);
        }
    }

    /// Appends a text as it is.
    #[inline(always)]
    pub fn put(&mut self, text: &str)
        ensures { Writes text.now self.old self.new }
    {
        if self.stopped.is_none() {
            let appended = self.text.push_str(text).is_ok();
            self.note_append(appended);
        }
    }

    /// Appends a character as it is.
    fn put_char(&mut self, c: char)
        ensures { Writes (encode_utf8 c) self.old self.new }
    {
        if self.stopped.is_none() {
            let appended = self.text.push(c).is_ok();
            self.note_append(appended);
        }
    }

    /// Appends a text with references for what is not itself in XML.
    fn put_escaped(&mut self, holder: Holder, text: &str)
        ensures { Writes (escaped (holder_view holder) text.now) self.old self.new }
    {
        if is_plain(text) {
            self.put(text);
        } else {
            self.put_references(holder, text);
        }
    }

    /// Appends a text character by character.
    fn put_references(&mut self, holder: Holder, text: &str)
        ensures { Writes (escaped (holder_view holder) text.now) self.old self.new }
    {
        for c in text.chars() {
            self.put_reference(holder, c);
        }
    }

    /// Appends a character, or the reference for it.
    fn put_reference(&mut self, holder: Holder, c: char)
        ensures { Writes (escaped (holder_view holder) (encode_utf8 c)) self.old self.new }
    {
        match holder.reference(c) {
            Some(reference) => self.put(reference),
            None => self.put_char(c),
        }
    }

    /// Appends the indent of a level.
    fn put_indent(&mut self, level: usize)
        ensures { Writes (indent level) self.old self.new }
    {
        for done in 0..level {
            self.put("  ");
        }
    }

    /// Appends an attribute with the space before it.
    fn put_attribute(&mut self, attribute: &Attribute<'_>)
        ensures { Writes (attribute_text (attribute_view attribute.now)) self.old self.new }
    {
        self.put(" ");
        self.put(attribute.name);
        self.put("=\"");
        self.put_escaped(Holder::Attribute, attribute.prefix);
        self.put_escaped(Holder::Attribute, attribute.value);
        self.put("\"");
    }

    /// Appends an attribute, if there is one.
    fn put_optional(&mut self, attribute: &Option<Attribute<'_>>)
        ensures { Writes (attributes_text (optional_view attribute.now)) self.old self.new }
    {
        match attribute {
            Some(attribute) => self.put_attribute(attribute),
            None => {}
        }
    }

    /// Appends the indent and the front of a tag: all but its end.
    fn put_front(&mut self, level: usize, tag: &Tag<'_>)
        ensures { Writes (tag_front level tag.now.element.now (tag_attributes tag.now))
            self.old self.new }
    {
        self.put_indent(level);
        self.put("<");
        self.put(tag.element);
        self.put_optional(&tag.first);
        self.put_optional(&tag.second);
    }

    /// Appends the line of a start tag.
    pub fn open(&mut self, level: usize, tag: &Tag<'_>)
        ensures { Writes (tag_front level tag.now.element.now (tag_attributes tag.now)
            ++ codes ">\n") self.old self.new }
    {
        self.put_front(level, tag);
        self.put(">\n");
    }

    /// Appends the line of an end tag.
    pub fn close(&mut self, level: usize, element: &str)
        ensures { Writes (indent level ++ end_tag element.now) self.old self.new }
    {
        self.put_indent(level);
        self.put_end(element);
    }

    /// Appends an end tag and the end of its line.
    fn put_end(&mut self, element: &str)
        ensures { Writes (end_tag element.now) self.old self.new }
    {
        self.put("</");
        self.put(element);
        self.put(">\n");
    }

    /// Appends the line of an element without content.
    pub fn empty(&mut self, level: usize, tag: &Tag<'_>)
        ensures { Writes (tag_front level tag.now.element.now (tag_attributes tag.now)
            ++ codes "/>\n") self.old self.new }
    {
        self.put_front(level, tag);
        self.put("/>\n");
    }

    /// Appends the line of a start tag without attributes.
    #[inline(never)]
    pub fn open_bare(&mut self, level: usize, element: &str)
        ensures { Writes (tag_front level element.now [] ++ codes ">\n") self.old self.new }
    {
        self.open(level, &Tag::bare(element));
    }

    /// Appends the line of an element without attributes and content.
    #[inline(never)]
    pub fn empty_bare(&mut self, level: usize, element: &str)
        ensures { Writes (tag_front level element.now [] ++ codes "/>\n") self.old self.new }
    {
        self.empty(level, &Tag::bare(element));
    }

    /// Appends the line of an element that holds two texts, one after the other.
    pub fn line(&mut self, level: usize, tag: &Tag<'_>, prefix: &str, text: &str)
        ensures { Writes (tag_front level tag.now.element.now (tag_attributes tag.now)
            ++ (codes ">" ++ (escaped in_element (prefix.now ++ text.now)
            ++ end_tag tag.now.element.now))) self.old self.new }
    {
        self.put_front(level, tag);
        self.put(">");
        self.put_escaped(Holder::Element, prefix);
        self.put_escaped(Holder::Element, text);
        self.put_end(tag.element);
    }
}
