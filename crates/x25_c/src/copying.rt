//! Octets that a C program takes.
ghost use Rattle.std.specs.Prelude.{◌≡◌, length, map};
ghost use Rattle.x25_c.specs.Copying.{Copies};
ghost use Rattle.x25_c.specs.Event.{figure};

/// Copies octets to the front of a room, where they fit, and answers how many there are.
pub(crate) fn copy(octets: &[u8], room: &mut [u8]) -> usize
    ensures copied { Copies octets.now room.old room.new }
    ensures count { result ≡ length octets.now }
{
    if octets.len() <= room.len() {
        room[..octets.len()].copy_from_slice(octets);
    }
    octets.len()
}

fn figure(digit: u8) -> u8
    ensures { result ≡ figure digit }
{
    digit.wrapping_add(48)
}

/// Writes digits as figures.
fn write_figures(digits: &[u8], places: &mut [u8])
    requires { length places.old ≡ length digits.now }
    ensures { places.new ≡ map figure digits.now }
{
    for place in 0..digits.len() {
        places[place] = figure(digits[place]);
    }
}

/// Copies digits as figures, as `copy` does.
pub(crate) fn copy_figures(digits: &[u8], room: &mut [u8]) -> usize
    ensures copied { Copies (map figure digits.now) room.old room.new }
    ensures count { result ≡ length digits.now }
{
    if digits.len() <= room.len() {
        write_figures(digits, &mut room[..digits.len()]);
    }
    digits.len()
}
