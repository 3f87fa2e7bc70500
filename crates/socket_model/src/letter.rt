use crate::address::Address;
use sp_base::Octets;

/// A message to a datagram socket: the address that its sender had, and its bytes, at most 8,192.
#[derive(Debug, Drop)]
pub struct Letter {
    pub sender: Address,
    pub bytes: Octets,
}
