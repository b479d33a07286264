ghost use Rattle.std.specs.Prelude.{◌≡◌, ◌==◌, ◌↔◌, ◌≤◌, ◌-◌, IfOk, IsTrue, length, take, drop, nat_eq, refl, Some};
ghost use Rattle.std.proofs.Common.{rules};
ghost use Rattle.std.specs.Cmp.{partial_equiv_from_equiv};
ghost use Rattle.std.specs.Cmp.Lexicographic.{pointwise, slice_cmp, nat_list_eq_equiv, nat_list_cmp_total, texts_ties, texts_po};
ghost use Rattle.std.specs.Cmp.Rules.{hashing};
ghost use Rattle.std.specs.Hash as fed;
ghost use Rattle.std.specs.Ordering.{nat_cmp};

use std::alloc::{AllocError, Global};
use std::cmp::Ordering;
use std::fmt;
use std::fmt::{Debug, Formatter, Write};
use std::hash::{Hash, Hasher};
use std::marker::Model;
use std::rc::RcSlice;

/// A text by its bytes, which contracts see as their list. It is a part of bytes that other texts
/// share: a clone or a part of it copies none.
#[derive(Clone, Drop)]
pub struct Text {
    shared: RcSlice<u8>,
    start: u32,
    end: u32,
}

impl Model for Text {
    ghost use Rattle.std.specs.Prelude.{List, ℕ, ◌<◌, ◌≤◌, ◌^◌, length, slice_range};
    ghost use Rattle.std.specs.Rc.{rc_slice_items};

    ghost Value = { List ℕ };

    ghost view = { λ t. slice_range (rc_slice_items t.shared) t.start t.end };

    ghost invariant = { λ t. (t.start ≤ t.end) × (t.end ≤ length (rc_slice_items t.shared)) × (t.end < 2 ^ 32) };
}

impl Text {
    /// A text of the bytes, which are not copied. Bytes that no `u32` counts are want of memory.
    pub fn from_vec(bytes: Vec<u8>) -> Result<Text, AllocError>
        ensures { IfOk result (λ text. text ≡ bytes.items) }
    {
        let Ok(end) = u32::try_from(bytes.len()) else {
            return Err(AllocError);
        };
        Ok(Text {
            shared: RcSlice::from_vec(bytes)?,
            start: 0,
            end,
        })
    }

    /// A text with the bytes of the slice.
    pub fn from_slice(alloc: Global, bytes: &[u8]) -> Result<Text, AllocError>
        ensures { IfOk result (λ text. text ≡ bytes.now) }
    {
        Text::from_vec(Vec::from_slice(alloc, bytes)?)
    }

    /// The bytes from `start` to `end`, which are shared with this text.
    pub fn part(&self, start: usize, end: usize) -> Result<Text, AllocError>
        requires ordered { start ≤ end }
        requires within { end ≤ length self.now }
        ensures { IfOk result (λ part. part ≡ take (end - start) (drop start self.now)) }
    {
        Ok(Text {
            shared: self.shared.clone()?,
            start: self.start + start as u32,
            end: self.start + end as u32,
        })
    }

    /// The bytes of the text.
    pub fn as_slice(&self) -> &[u8]
        ensures { result.now ≡ self.now }
    {
        &self.shared.as_slice()[self.start as usize..self.end as usize]
    }

    /// The bytes of the text, copied.
    pub fn to_vec(&self, alloc: Global) -> Result<Vec<u8>, AllocError>
        ensures { IfOk result (λ bytes. bytes.items ≡ self.now) }
    {
        Vec::from_slice(alloc, self.as_slice())
    }

    /// The number of bytes.
    pub fn len(&self) -> usize
        ensures { result ≡ length self.now }
    {
        (self.end - self.start) as usize
    }

    /// Whether the text is exactly these bytes.
    pub fn is(&self, bytes: &[u8]) -> bool
        ensures { IsTrue result ↔ (self.now ≡ bytes.now) }
    {
        self.as_slice() == bytes
    }

    /// Whether the text has no bytes.
    pub fn is_empty(&self) -> bool
        ensures { result ≡ (length self.now == 0) }
    {
        self.start == self.end
    }
}

impl PartialEq for Text {
    ghost eq = { pointwise nat_eq };

    ghost laws = { partial_equiv_from_equiv nat_list_eq_equiv };

    fn eq(&self, other: &Text) -> bool {
        self.as_slice() == other.as_slice()
    }
}

impl Eq for Text {
    ghost laws = { nat_list_eq_equiv };
}

impl PartialOrd for Text {
    ghost partial_cmp = { λ x y. Some (slice_cmp nat_cmp x y) };

    ghost laws = { texts_po };

    fn partial_cmp(&self, other: &Text) -> Option<Ordering> {
        Some(self.cmp(other))
    }
}

impl Ord for Text {
    ghost cmp = { slice_cmp nat_cmp };

    ghost total = { nat_list_cmp_total };

    ghost matches_partial_cmp = { λ x y. refl };

    ghost matches_eq = { texts_ties };

    fn cmp(&self, other: &Text) -> Ordering {
        self.as_slice().cmp(&other.as_slice())
    }
}

impl Hash for Text {
    ghost hash_input = { fed.slice fed.u8 };

    ghost respects_eq = { Prim.search (hashing, rules) };

    fn hash<H: Hasher>(&self, state: &mut H) {
        self.as_slice().hash(state);
    }
}

impl Debug for Text {
    fn fmt<W: Write>(&self, f: &mut Formatter<W>) -> fmt::Result {
        f.debug_list().slice(self.as_slice()).finish()
    }
}

#[cfg(test)]
mod tests {
    use crate::{Seq, Text};
    use std::test::Fail;

    #[test]
    fn texts_and_lists_compare_by_content(rt: HostRuntime) -> Result<(), Fail> {
        let short = Text::from_slice(rt.alloc(), b"ab")?;
        let long = Text::from_slice(rt.alloc(), b"abc")?;
        assert!(rt; short.is(b"ab") && !short.is(b"abc") && !long.is(b"ab"));
        assert!(rt; short == short.clone()? && short < long);
        assert_eq!(rt; long.len(), 3);
        assert_eq!(rt; long.as_slice(), b"abc".as_slice());
        assert!(rt; !long.is_empty());
        let shared = Text::from_vec(b"xyzabc".to_vec(rt.alloc())?)?;
        let part = shared.part(2, 5)?;
        assert!(rt; part.part(1, 3)? == short && part.part(3, 3)?.is_empty());
        assert_eq!(rt; part.to_vec(rt.alloc())?.as_slice(), b"zab".as_slice());
        let numbers: Seq<u32> = Seq {
            list: vec![in rt.alloc(); 1, 2]?,
        };
        assert_eq!(rt; numbers.len(), 2);
        assert_eq!(rt; numbers.as_slice(), [1, 2].as_slice());
        assert!(rt; !numbers.is_empty() && numbers == numbers.clone()?);
        Ok(())
    }
}
