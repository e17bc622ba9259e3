ghost use Rattle.x25_handshakes.specs.laws.LawsBelow.{Laws};
ghost use Rattle.x25_handshakes.specs.laws.TwoLayers.{OfAnyTwoLayers, LayersKeepOrder};
ghost use Rattle.x25_handshakes.specs.laws.TwoPeers.{OfAnyTwoPeers, KeepOrder};
ghost use Rattle.x25_handshakes.specs.rows.PeerRows.{LatePeerMoves, PeerLayerMoves};

/// What the laws of a circuit say of proposals and answers, which those of two layers rest on.
fn laws_below()
    ensures { Laws }
{
    x25_circuit::values_are_agreed();
}

/// Any two ends of a call in p4, whatever stations they are, that keep the rules of `PeerStretch` and `PeerTransfer`
/// (docs/PEER.md), over lines that keep order: data, flow control, interrupts, and RESET of either end at any moment,
/// which an end may also take before what stands in front of it. While both count the resets alike, also where an end
/// or both have left that stretch, each took a beginning of the data packets that the other sent in it, all where all
/// is acknowledged, and what is acknowledged was taken; and so of interrupts. The packet in front of an end is one that
/// it expects. ITU-T X.25 (10/96), sections 4.3 and 4.4.
pub fn two_peers_keep_order()
    ensures { OfAnyTwoPeers KeepOrder }
{}

/// Any two packet layers that keep the rules of `PeerLayer` and those below it, in either role, over lines that keep
/// order, from the links' set-up on, as long as both are up: restarts, calls, clears, resets, data, interrupts. The
/// counts of restarts differ by one at most, and so do, while these agree, those of the clears of a channel, and within
/// a call those of its resets. While all agree, each end took a beginning of the data packets, of the interrupts and of
/// the calls that the other sent there. An end that is ahead has taken nothing yet, and the other takes nothing more.
/// ITU-T X.25 (10/96), sections 3.3 and 4.
pub fn two_layers_keep_order()
    ensures { OfAnyTwoLayers LayersKeepOrder }
{
    laws_below();
}

/// Worked rows. A peer takes a data packet and says nothing, sends one of its own that acknowledges none, which is
/// handed up, and acknowledges later. A peer confirms our RESTART and calls, our user accepts, and its message is
/// handed up.
pub fn peers_move()
    ensures late { LatePeerMoves }
    ensures layer { PeerLayerMoves }
{
    x25_circuit::values_are_agreed();
}
