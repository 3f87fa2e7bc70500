ghost use Rattle.std.specs.Prelude.{◌≡◌, true, map};
ghost use Rattle.sp_copy.specs.Delivering.{Piece, answer_after, deliver, put_piece};

use crate::mem::Mem;
use sp_base::{Answer, Errno};

/// Something with bytes and the address that they are written to.
///
/// The bytes are lent, so that they are copied once, into the caller's memory.
pub trait Placed {
    ghost use Rattle.sp_copy.specs.Delivering.{Piece};

    ghost piece: { Self → Piece };

    /// The address of the first byte.
    fn addr(&self) -> u64
        ensures { result ≡ (piece self.now).addr };

    /// The bytes.
    fn bytes(&self) -> &[u8]
        ensures { result.now ≡ (piece self.now).bytes };
}

/// What an answered call writes, under way into its caller's memory.
#[derive(Debug, Drop)]
pub struct Delivery {
    /// The memory, with every piece so far that could be written.
    pub mem: Mem,
    /// Whether every piece so far was written.
    pub whole: bool,
}

impl Delivery {
    /// The delivery into a memory, before its first piece.
    pub fn into(mem: Mem) -> Delivery
        ensures { result ≡ record { mem = mem; whole = true } }
    {
        Delivery { mem, whole: true }
    }

    /// Writes a piece where it lies wholly in one writable part; takes no memory.
    pub fn put(&mut self, addr: u64, bytes: &[u8])
        ensures { self.new ≡ put_piece self.old (record { addr = addr; bytes = bytes.now }) }
    {
        if self.mem.write(addr, bytes).is_err() {
            self.whole = false;
        }
    }

    /// The caller's answer: the kernel's, or EFAULT with its place where a piece wasn't written.
    pub fn answer(&self, answer: Answer) -> Answer
        ensures { result ≡ answer_after self.now.whole answer }
    {
        if self.whole {
            return answer;
        }
        Answer {
            err: Errno::Efault.number(),
            ret0: 0,
            ret1: 0,
            place: answer.place,
        }
    }
}

/// Writes the pieces of a call that was answered so, in order, and gives what its caller then sees.
///
/// Each piece that lies wholly in one writable part is written. Where one doesn't, the answer becomes
/// EFAULT with both values 0 and the same place; the others are written all the same.
pub fn deliver<P: Placed>(pieces: &[P], answer: Answer, mem: Mem) -> (Answer, Mem)
    ensures { result ≡ deliver (map P.piece pieces.now) answer mem }
{
    let mut delivery = Delivery::into(mem);
    for piece in pieces {
        delivery.put(piece.addr(), piece.bytes());
    }
    (delivery.answer(answer), delivery.mem)
}
