ghost use Rattle.std.specs.Prelude.{◌≡◌, ◌↔◌, IsTrue, IfOk};

use bz_items::{Gap, Text};
use bz_token::Class;
use std::alloc::AllocError;

/// A token with the gap before it: spaces, newlines and comments.
pub struct Leaf {
    pub class: Class,
    pub gap: Gap,
    pub token: Text,
}

impl Drop for Leaf {
    #[inline(always)]
    fn drop(self) {
        let Leaf {
            class: _,
            gap: _,
            token: _,
        } = self;
    }
}

impl Leaf {
    /// An equal leaf. The error: a growth was refused.
    pub fn copy(&self) -> Result<Leaf, AllocError>
        ensures { IfOk result (λ leaf. leaf ≡ self.now) }
    {
        Ok(Leaf {
            class: self.class,
            gap: self.gap.copy()?,
            token: self.token.copy()?,
        })
    }

    /// Whether the other leaf has the same class, gap and token.
    pub fn equals(&self, other: &Leaf) -> bool
        ensures { IsTrue result ↔ (self.now ≡ other.now) }
    {
        self.class == other.class && self.gap.equals(&other.gap) && self.token.equals(&other.token)
    }
}
