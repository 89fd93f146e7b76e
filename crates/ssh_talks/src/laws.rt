//! Laws of many channels, for every order of calls and deliveries.

ghost use Rattle.ssh_talks.specs.Making.{AskingAdds, HearingLowers};
ghost use Rattle.ssh_talks.specs.Talks.{ChannelsAreTalks, ChannelsCome, ChannelsEnd, ChannelsFinish, ChannelsFlow, NoPacketRefused, NoPayloadRefused};

/// Each channel that a side opened is a talk of two ends that may have come of its opening, whatever else happens on
/// other channels. Each channel that a side accepted is the other end of such a talk.
#[tactic(auto, using(crate::proofs::Talking::channels_are_talks))]
pub fn channels_are_talks()
    ensures { ChannelsAreTalks }
{}

/// On each channel, both ways, what came is a front of what was written, and no more bytes went out than the other
/// side's window and the reads that it told of.
#[tactic(auto, using(crate::proofs::Flowing::channels_flow))]
pub fn channels_flow()
    ensures { ChannelsFlow }
{}

/// No packet that comes is out of place, none is for a channel that isn't there, and none brings too much.
#[tactic(auto, using(crate::proofs::Flowing::no_packet_refused))]
pub fn no_packet_refused()
    ensures { NoPacketRefused }
{}

/// Where nothing is on the way, all that was written on a channel that nobody closed came, as far as the windows allow.
#[tactic(auto, using(crate::proofs::Flowing::channels_come))]
pub fn channels_come()
    ensures { ChannelsCome }
{}

/// On each channel an end of data came only where the other end's caller ended it. Where both ends said close, one of
/// both callers closed it.
#[tactic(auto, using(crate::proofs::Flowing::channels_end))]
pub fn channels_end()
    ensures { ChannelsEnd }
{}

/// Where nothing is on the way, and all that an end wrote came, its close closed the channel at both ends. Its end of
/// data came, where neither end was closed.
#[tactic(auto, using(crate::proofs::Flowing::channels_finish))]
pub fn channels_finish()
    ensures { ChannelsFinish }
{}

/// Each payload that comes is read as the packet that was written, and none is refused.
pub fn no_payload_refused()
    ensures { NoPayloadRefused }
{}

/// A side that hears the next packet can send as many messages less as it makes, over all channels at once. So two
/// sides that only hear come to an end.
pub fn hearing_lowers()
    ensures { HearingLowers }
{}

/// A request adds to what both sides can still send no more than the bytes that it writes, and at most eight messages
/// where it starts a channel.
pub fn asking_adds()
    ensures { AskingAdds }
{}
