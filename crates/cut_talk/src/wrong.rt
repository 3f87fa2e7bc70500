//! What goes wrong in a conversation.

use sp_base::NoMemory;

/// Why a row has no answer, in words.
#[derive(Clone, Copy, Debug)]
pub struct Wrong(pub &'static str);

impl From<NoMemory> for Wrong {
    fn from(_e: NoMemory) -> Wrong {
        Wrong("out of memory")
    }
}
