//! Addresses, facilities and user data, as CALL, ACCEPT, CLEAR and CLEAR CONFIRMATION have them.
ghost use Rattle.std.specs.Prelude.{◌≡◌, ◌≤◌, ◌/◌, ◌+◌, drop, length, take};
ghost use Rattle.x25_packet.specs.Block.{block_at, called_in, calling_in, fields_at, hold_addresses};
ghost use Rattle.x25_packet.specs.Block.{optional_at, plain_block};
ghost use Rattle.x25_packet.specs.Narrowing.{digits_behind, taken_at};
ghost use Rattle.x25_packet.specs.Grammar.{Gives, block_of, fields_of};
ghost use Rattle.x25_packet.specs.Grammar.{optional_block};

use crate::classes::are_facilities;
use crate::digits::hold_digits;
use crate::error::PacketError;
use crate::facilities::Facilities;
use crate::form::Forms;
use crate::halves::Halves;

/// The most octets of a facility field, section 7.1.
const FIELD_OCTETS: usize = 109;

/// A facility field, and the user data behind it.
#[derive(Clone, Copy, Debug)]
pub struct Fields<'a> {
    pub facilities: &'a [u8],
    pub user: &'a [u8],
}

/// Addresses, and what may follow them.
///
/// `called` and `calling` say how many half octets each address has: digits, or where the packet's A bit is 1 the type
/// of address, the numbering plan and then digits. `addresses` has both, the called address first, two half octets to
/// an octet.
#[derive(Clone, Copy, Debug)]
pub struct Block<'a> {
    pub called: u8,
    pub calling: u8,
    pub addresses: &'a [u8],
    pub fields: Option<Fields<'a>>,
}

/// Whether octets are a facility field and user data, or why they aren't.
#[inline(always)]
fn check_fields(forms: Forms, most: usize, octets: &[u8]) -> Result<(), PacketError>
    ensures { Gives (λ _. fields_at octets.now) result (fields_of forms most octets.now) }
{
    let [size, rest @ ..] = octets else {
        return match forms {
            Forms::Written => Err(PacketError::TooShort),
            Forms::Any => Ok(()),
        };
    };
    let size = usize::from(*size);
    if matches!(forms, Forms::Any) && size > FIELD_OCTETS {
        return Err(PacketError::TooLong);
    }
    if rest.len() < size {
        return Err(PacketError::TooShort);
    }
    let (facilities, user) = rest.split_at(size);
    match forms {
        Forms::Written => {
            Facilities::of(facilities)?;
        }
        Forms::Any => {
            if !are_facilities(facilities) {
                return Err(PacketError::BadParameter);
            }
        }
    }
    if user.len() > most {
        return Err(PacketError::TooLong);
    }
    Ok(())
}

/// Whether the half octets behind the first `count` are 0, and where A is 0 all are digits.
fn hold_addresses(a: bool, count: usize, octets: &[u8]) -> bool
    requires { length octets.now ≡ (count + 1) / 2 }
    ensures { result ≡ hold_addresses a count octets.now }
{
    if !a {
        return hold_digits(count, octets);
    }
    octets.get(count / 2).copied().unwrap_or(0) % 16 == 0
}

/// Whether octets are a block with at most `most` octets of user data, in the format that the A bit says, or why they
/// are none.
#[inline(always)]
pub(crate) fn check_block(
    forms: Forms,
    a: bool,
    most: usize,
    octets: &[u8],
) -> Result<(), PacketError>
    ensures { Gives (λ _. block_at a octets.now) result (block_of forms a most octets.now) }
{
    let (called, calling, octets) = if a {
        let [called, calling, octets @ ..] = octets else {
            return Err(PacketError::TooShort);
        };
        (*called, *calling, octets)
    } else {
        let [lengths, octets @ ..] = octets else {
            return Err(PacketError::TooShort);
        };
        (*lengths % 16, *lengths / 16, octets)
    };
    let count = usize::from(called) + usize::from(calling);
    let size = (count + 1) / 2;
    if octets.len() < size {
        return Err(PacketError::TooShort);
    }
    let (addresses, rest) = octets.split_at(size);
    if !hold_addresses(a, count, addresses) {
        return Err(PacketError::BadDigit);
    }
    check_fields(forms, most, rest)?;
    Ok(())
}

/// The same where there are octets.
pub(crate) fn check_optional_block(
    forms: Forms,
    a: bool,
    most: usize,
    octets: &[u8],
) -> Result<(), PacketError>
    ensures { Gives (λ _. optional_at a octets.now) result (optional_block forms a most octets.now) }
{
    if octets.is_empty() {
        return Ok(());
    }
    check_block(forms, a, most, octets)?;
    Ok(())
}

/// The first `count` octets, all where there are fewer, and what is behind them.
fn front<'a>(count: usize, octets: &'a [u8]) -> (&'a [u8], &'a [u8])
    ensures { (result.0.now ≡ take count octets.now) × (result.1.now ≡ drop count octets.now) }
{
    octets.split_at(count.min(octets.len()))
}

impl<'a> Block<'a> {
    /// The block that octets are, in the format that the A bit says. What they lack isn't there.
    pub fn of(a: bool, octets: &'a [u8]) -> Block<'a>
        ensures { plain_block result ≡ block_at a octets.now }
    {
        let (called, calling, octets) = if a {
            match octets {
                [called, calling, octets @ ..] => (*called, *calling, octets),
                _ => (0, 0, &octets[..0]),
            }
        } else {
            match octets {
                [lengths, octets @ ..] => (*lengths % 16, *lengths / 16, octets),
                [] => (0, 0, octets),
            }
        };
        let size = (usize::from(called) + usize::from(calling) + 1) / 2;
        let (addresses, rest) = front(size, octets);
        let fields = match rest {
            [] => None,
            [size, rest @ ..] => {
                let (facilities, user) = front(usize::from(*size), rest);
                Some(Fields { facilities, user })
            }
        };
        Block {
            called,
            calling,
            addresses,
            fields,
        }
    }

    /// The half octets of the called address.
    pub fn called_halves(&self) -> Halves<'a>
        ensures { result ≡ called_in (plain_block self.now) }
    {
        Halves::of(self.addresses, 0, self.called)
    }

    /// The half octets of the calling address.
    pub fn calling_halves(&self) -> Halves<'a>
        ensures { result ≡ calling_in (plain_block self.now) }
    {
        Halves::of(self.addresses, usize::from(self.called), self.calling)
    }

    /// The digits behind the type and the plan of an address, which begins at the half octet `start`.
    fn digits_behind(&self, start: u8, count: u8) -> Halves<'a>
        requires { length self.now.addresses.now ≤ (self.now.called + self.now.calling + 1) / 2 }
        ensures { result ≡ digits_behind (plain_block self.now) start count }
    {
        let total = usize::from(self.called) + usize::from(self.calling);
        if !hold_digits(total, self.addresses) || count < 2 || count > 17 {
            return Halves::of(&[], 0, 0);
        }
        Halves::of(self.addresses, usize::from(start) + 2, count - 2)
    }

    /// What a station takes an address for that begins at the half octet `start`.
    pub(crate) fn taken(&self, a: bool, start: u8, count: u8) -> Halves<'a>
        requires { length self.now.addresses.now ≤ (self.now.called + self.now.calling + 1) / 2 }
        ensures { result ≡ taken_at a (plain_block self.now) start count }
    {
        if a {
            self.digits_behind(start, count)
        } else {
            Halves::of(self.addresses, usize::from(start), count)
        }
    }
}
