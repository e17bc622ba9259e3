//! The peers of docs/PEER.md keep the rules of a channel and of a link: each law is the contract of a function that
//! does nothing.
ghost use Rattle.x25_possible_peers.specs.laws.AsPeers.{ChannelRulesArePeers};
ghost use Rattle.x25_possible_peers.specs.laws.LayerAsPeers.{RestartRulesArePeers};
ghost use Rattle.x25_possible_peers.specs.laws.LayerPeers.{NoLayerPeerIsTold};
ghost use Rattle.x25_possible_peers.specs.laws.LinkAsPeers.{LinkRulesArePeers};
ghost use Rattle.x25_possible_peers.specs.laws.LinkPeers.{LinkStepsAreAllowed, NoLinkPeerIsTold};
ghost use Rattle.x25_possible_peers.specs.laws.Peers.{DeedsAreSends, NoPeerIsTold, PacketsAreTaken};

/// What a peer does by itself on a channel between two restarts, and what it makes of each packet that comes, is what
/// an end may send and take by the rules of a channel.
pub fn peers_keep_the_rules()
    ensures deeds { DeedsAreSends }
    ensures takes { PacketsAreTaken }
{}

/// On a channel, in each state: what an end may send and take by the rules of a channel is what a peer does, and what
/// has a name in `SendsBeyond` and `TakesBeyond`.
pub fn channel_rules_are_those_of_peers()
    ensures { ChannelRulesArePeers }
{}

/// The same of all channels at once, over RESTART and its confirmation.
pub fn restart_rules_are_those_of_peers()
    ensures { RestartRulesArePeers }
{}

/// From a restart on no rule is told of such a peer, whatever the other end sends.
pub fn peers_stay_untold()
    ensures { NoPeerIsTold }
{
    x25_possible::innocents_stay_untold();
}

/// The same of a whole packet layer, on each channel: over restarts, and whatever it does on the others.
pub fn layer_peers_stay_untold()
    ensures { NoLayerPeerIsTold }
{
    x25_possible::innocents_stay_untold();
}

/// Each step of a peer on the link, over any number of set-ups, is what an end may send and take by the rules of a
/// link. It is in no session as it sends DM, and out as it sends FRMR and as it answers DISC, and its numbers go one by
/// one when they go for the first time.
pub fn link_peers_keep_the_rules()
    ensures { LinkStepsAreAllowed }
{}

/// On a link, wherever a peer stands: what an end may send, take and answer by the rules of a link a peer does, which
/// may leave its session first, but for SABM where that isn't patient.
pub fn link_rules_are_those_of_peers()
    ensures { LinkRulesArePeers }
{}

/// No rule of order is told of such a peer, nor that numbers are left out, whatever the other end sends, with room on
/// the way, or where nothing comes behind which 64 frames were sent.
pub fn link_peers_stay_untold()
    ensures { NoLinkPeerIsTold }
{
    x25_possible_links::innocents_stay_untold();
}
