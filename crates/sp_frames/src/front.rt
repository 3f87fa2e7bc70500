//! The bytes of a frame that stand before its last field, in place.
ghost use Rattle.std.specs.Prelude.{◌≡◌, ◌+◌, ◌*◌, ◌≤◌, ◌++◌, [], List, ℕ, length};
ghost use Rattle.std.specs.List.{flat_map};
ghost use Rattle.sp_frames.specs.Fields.{le16, le32, le64};
ghost use Rattle.sp_frames.specs.Grammar.{header_bytes};

use crate::header::Header;
use arrayvec::ArrayVec;
use std::marker::Model;

/// At most so many bytes stand there: a header, and the eight words of a call.
const ROOM: usize = 88;

/// A header and numbers as bytes. They lie in place and take no memory.
#[derive(Drop)]
pub struct Front {
    items: ArrayVec<u8, ROOM>,
}

impl Model for Front {
    ghost Value = { List ℕ };

    ghost view = { λ f. f.items.items };
}

impl Front {
    /// No bytes.
    pub fn none() -> Front
        ensures { result ≡ [] }
    {
        Front {
            items: ArrayVec::new(),
        }
    }

    /// The bytes, in order.
    pub fn slice(&self) -> &[u8]
        ensures { result.now ≡ self.now }
    {
        self.items.as_slice()
    }

    /// Puts bytes behind the others.
    pub fn put(&mut self, bytes: &[u8])
        requires { length self.old + length bytes.now ≤ 88 }
        ensures bytes { self.new ≡ self.old ++ bytes.now }
        ensures count { length self.new ≡ length self.old + length bytes.now }
    {
        if self.items.try_extend_from_slice(bytes).is_err() {
            unreachable!();
        }
    }

    /// Puts the eight bytes of a number behind the others.
    #[tactic(auto, unfolding(crate::specs::Fields::le64))]
    pub fn put_u64(&mut self, n: u64)
        requires { length self.old + 8 ≤ 88 }
        ensures bytes { self.new ≡ self.old ++ le64 n }
        ensures count { length self.new ≡ length self.old + 8 }
    {
        self.put(&n.to_le_bytes());
    }

    /// Puts the four bytes of a number behind the others.
    #[tactic(auto, unfolding(crate::specs::Fields::le32))]
    pub fn put_u32(&mut self, n: u32)
        requires { length self.old + 4 ≤ 88 }
        ensures bytes { self.new ≡ self.old ++ le32 n }
        ensures count { length self.new ≡ length self.old + 4 }
    {
        self.put(&n.to_le_bytes());
    }

    /// Puts the two bytes of a number behind the others.
    #[tactic(auto, unfolding(crate::specs::Fields::le16))]
    pub fn put_u16(&mut self, n: u16)
        requires { length self.old + 2 ≤ 88 }
        ensures bytes { self.new ≡ self.old ++ le16 n }
        ensures count { length self.new ≡ length self.old + 2 }
    {
        self.put(&n.to_le_bytes());
    }

    /// Puts words behind the others.
    pub fn put_words(&mut self, words: &[u64])
        requires { length self.old + 8 * length words.now ≤ 88 }
        ensures bytes { self.new ≡ self.old ++ flat_map le64 words.now }
        ensures count { length self.new ≡ length self.old + 8 * length words.now }
    {
        for word in words {
            self.put_u64(*word);
        }
    }

    /// Puts a header behind the others.
    pub fn put_header(&mut self, h: &Header)
        requires { length self.old + 24 ≤ 88 }
        ensures bytes { self.new ≡ self.old ++ header_bytes h.now }
        ensures count { length self.new ≡ length self.old + 24 }
    {
        self.put_u64(h.len);
        self.put_u64(h.number);
        self.put_u16(h.class);
        self.put_u16(h.kind);
        self.put_u32(h.word);
    }
}
