ghost use Rattle.std.specs.Prelude.{◌≡◌, ◌+◌, ◌≤◌, ◌++◌, length, vec_len, vec_capacity};

use std::mem;

/// A vector, and these octets behind those that it has, in memory that there is.
pub fn with_octets(octets: Vec<u8>, more: &[u8]) -> Vec<u8>
    requires { vec_len octets + length more.now ≤ vec_capacity octets }
    ensures items { result.items ≡ octets.items ++ more.now }
    ensures len { vec_len result ≡ vec_len octets + length more.now }
    ensures capacity { vec_capacity result ≡ vec_capacity octets }
{
    let mut all = octets;
    append_octets(&mut all, more);
    all
}

/// Appends octets in memory that there is, and takes no other.
#[inline(always)]
pub fn append_octets(octets: &mut Vec<u8>, more: &[u8])
    requires { vec_len octets.old + length more.now ≤ vec_capacity octets.old }
    ensures items { octets.new.items ≡ octets.old.items ++ more.now }
    ensures len { vec_len octets.new ≡ vec_len octets.old + length more.now }
    ensures capacity { vec_capacity octets.new ≡ vec_capacity octets.old }
{
    // A vector of its own is appended to as a block.
    let none = Vec::new(*octets.allocator());
    let mut all = mem::replace(octets, none);
    for octet in more {
        all.push_reserved(*octet);
    }
    *octets = all;
}
