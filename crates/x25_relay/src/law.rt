ghost use Rattle.x25_relay.specs.laws.RecutLaw.{RecutCarries, RecutIsOfSize, FewAreKept};

/// Packets that are sent on as they come, in packets of another size, carry the same messages, in order; each with M =
/// 1 is full, none has more octets than the size, and at most one packet of octets is kept.
pub fn recut_packets_carry_the_same()
    ensures carries { RecutCarries }
    ensures size { RecutIsOfSize }
    ensures few { FewAreKept }
{}
