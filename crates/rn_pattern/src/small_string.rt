// Texts that lie in the value itself where they are short.
ghost use Rattle.std.specs.Prelude.{◌≡◌, ◌≤◌, IfOk, IsOk, length};
ghost use Rattle.std.specs.Str.{IsUtf8};

use std::alloc::{AllocError, Global};
use std::marker::Model;
use std::rc::RcStr;
use std::str;

/// The length in bytes of the longest text that lies in the value.
const ROOM: usize = 22;

/// A text of at most so many bytes. Contracts see its bytes.
#[derive(Drop)]
struct ShortString {
    len: u8,
    bytes: [u8; ROOM],
}

impl Model for ShortString {
    ghost use Rattle.std.specs.Prelude.{◌≡◌, ◌≤◌, length, take, IsUtf8};
    ghost use Rattle.rn_text.specs.Texts.{Text};

    ghost Value = { Text };

    ghost view = { λ s. take s.len s.bytes };

    ghost invariant = { λ s. (s.len ≤ 22) × (length s.bytes ≡ 22) × ∥ IsUtf8 (take s.len s.bytes) ∥₁ };
}

impl ShortString {
    /// The text, which is short enough.
    #[inline(always)]
    fn new(text: &str) -> ShortString
        requires { length text.now ≤ 22 }
        ensures { result ≡ text.now }
    {
        let mut bytes = [0; ROOM];
        bytes[..text.len()].copy_from_slice(text.as_bytes());
        ShortString {
            len: text.len() as u8,
            bytes,
        }
    }

    /// The same text.
    #[inline(always)]
    fn copy(&self) -> ShortString
        ensures { result ≡ self.now }
    {
        ShortString {
            len: self.len,
            bytes: self.bytes,
        }
    }

    /// The text.
    #[inline(always)]
    fn as_str(&self) -> &str
        ensures is { result.now ≡ self.now }
        ensures utf8 { IsUtf8 result.now }
    {
        unsafe { str::from_utf8_unchecked(&self.bytes[..self.len as usize]) }
    }
}

/// A text in place, or one that is shared.
#[derive(Drop)]
enum Held {
    Short(ShortString),
    Long(RcStr),
}

/// A text in UTF-8. Up to 22 bytes lie in the value itself; a longer text is shared by its copies. Contracts see its
/// bytes.
#[derive(Drop)]
pub struct SmallString {
    held: Held,
}

impl Model for SmallString {
    ghost use Rattle.rn_text.specs.Texts.{Text};
    ghost use Rattle.rn_pattern.specs.inside.HeldText.{held_bytes};

    ghost Value = { Text };

    ghost view = { λ s. held_bytes s.held };
}

impl SmallString {
    /// A copy of the text. One of up to 22 bytes asks for no memory.
    #[inline(always)]
    pub fn from_str(alloc: Global, text: &str) -> Result<SmallString, AllocError>
        ensures is { IfOk result (λ s. s ≡ text.now) }
        ensures in_place { length text.now ≤ 22 → IsOk result }
    {
        let held = if text.len() <= ROOM {
            Held::Short(ShortString::new(text))
        } else {
            Held::Long(RcStr::from_str(alloc, text)?)
        };
        Ok(SmallString { held })
    }

    /// The text.
    #[inline(always)]
    pub fn as_str(&self) -> &str
        ensures is { result.now ≡ self.now }
        ensures utf8 { IsUtf8 result.now }
    {
        match &self.held {
            Held::Short(text) => text.as_str(),
            Held::Long(text) => text.as_str(),
        }
    }

    /// A copy of the text, which shares the memory of a long one.
    pub fn try_clone(&self) -> Result<SmallString, AllocError>
        ensures { IfOk result (λ s. s ≡ self.now) }
    {
        let held = match &self.held {
            Held::Short(text) => Held::Short(text.copy()),
            Held::Long(text) => Held::Long(text.clone()?),
        };
        Ok(SmallString { held })
    }
}
