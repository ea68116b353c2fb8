//! The bytes of short texts.
ghost use Rattle.std.specs.Prelude.{◌≤◌};

/// How many bytes lie in the value itself: one more would make each text a word larger.
pub(crate) const INLINE: usize = 30;

/// A few bytes.
#[derive(Clone, Copy, Debug)]
pub(crate) struct Short {
    bytes: [u8; INLINE],
    len: u8,
    ghost fits: { len ≤ 30 },
}

impl Short {
    ghost use Rattle.std.specs.Prelude.{◌≡◌, ◌≤◌, ◌∷◌, [], length};
    ghost use Rattle.bz_items.specs.Texts.{short_bytes};

    /// A copy of these bytes.
    #[inline(always)]
    pub fn new(bytes: &[u8]) -> Short
        requires { length bytes.now ≤ 30 }
        ensures { short_bytes result ≡ bytes.now }
    {
        match bytes {
            [one] => Short::of_one(*one),
            _ => Short::of_several(bytes),
        }
    }

    /// One byte by itself, which needs no call.
    #[inline(always)]
    fn of_one(byte: u8) -> Short
        ensures { short_bytes result ≡ byte ∷ [] }
    {
        let mut bytes = [0u8; INLINE];
        bytes[0] = byte;
        Short { bytes, len: 1 }
    }

    #[inline(always)]
    fn of_several(text: &[u8]) -> Short
        requires { length text.now ≤ 30 }
        ensures { short_bytes result ≡ text.now }
    {
        let mut bytes = [0u8; INLINE];
        bytes[..text.len()].copy_from_slice(text);
        Short {
            bytes,
            len: text.len() as u8,
        }
    }

    /// The bytes.
    #[inline(always)]
    pub fn as_slice(&self) -> &[u8]
        ensures { result.now ≡ short_bytes self.now }
    {
        &self.bytes[..self.len as usize]
    }
}
