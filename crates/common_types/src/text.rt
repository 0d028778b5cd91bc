//! Short texts, stored inline.

ghost use Rattle.std.specs.Prelude.{◌≡◌, ◌≤◌, length};
ghost use Rattle.common_types.specs.Text.{text_within};

use arrayvec::ArrayVec;
use std::marker::Model;

/// At most `N` bytes, stored inline: no call of it allocates.
#[derive(Drop)]
pub struct Text<const N: usize> {
    bytes: ArrayVec<u8, N>,
}

impl<const N: usize> Model for Text<N> {
    ghost use Rattle.std.specs.Prelude.{List, ℕ};

    ghost Value = { List ℕ };

    ghost view = { λ t. t.bytes.items };
}

impl<const N: usize> Text<N> {
    /// The text of these bytes, unless there are more than `N`.
    pub fn from_bytes(bytes: &[u8]) -> Option<Text<N>>
        ensures { result ≡ text_within N bytes.now }
    {
        let mut copy = ArrayVec::new();
        match copy.try_extend_from_slice(bytes) {
            Ok(()) => Some(Text { bytes: copy }),
            Err(_) => None,
        }
    }

    /// The bytes.
    pub fn as_bytes(&self) -> &[u8]
        ensures value { result.now ≡ self.now }
        ensures short { length result.now ≤ N }
    {
        self.bytes.as_slice()
    }

    /// Other bytes in place of its own.
    pub fn set(&mut self, bytes: &[u8])
        requires { length bytes.now ≤ N }
        ensures { self.new ≡ bytes.now }
    {
        self.bytes.clear();
        let _ = self.bytes.try_extend_from_slice(bytes);
    }

    /// A copy of the text.
    pub fn copy(&self) -> Text<N>
        ensures { result ≡ self.now }
    {
        let mut bytes = ArrayVec::new();
        let _ = bytes.try_extend_from_slice(self.as_bytes());
        Text { bytes }
    }
}
