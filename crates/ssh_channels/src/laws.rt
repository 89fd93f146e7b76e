//! Laws of channels, for every order of calls and deliveries.

ghost use Rattle.ssh_channels.specs.Formats.{ReadAgain};
ghost use Rattle.ssh_channels.specs.Laws.{AllComes, AllEnds, ComesInOrder, KeepsWindows, NothingRefused, OnlyCalled, SettleEnds};

/// What an end received is a front of what was written to the other end.
pub fn comes_in_order()
    ensures { ComesInOrder }
{}

/// No more bytes go out than the other end's window and the reads that it told of.
pub fn keeps_windows()
    ensures { KeepsWindows }
{}

/// A packet that is written is read again.
pub fn read_again()
    ensures { ReadAgain }
{}

/// No message that comes is out of place, and none brings too much.
pub fn nothing_refused()
    ensures { NothingRefused }
{}

/// Once nothing is on the way, all that was written came, as far as the windows allow.
pub fn all_comes()
    ensures { AllComes }
{}

/// Where the ends only hear what is on the way, they come to an end: each message costs at least one byte that waits,
/// or one of at most three turns of an end.
pub fn settle_ends()
    ensures { SettleEnds }
{}

/// An end of data comes only where it was called for, and a channel is closed only where one of both closed it.
pub fn only_called()
    ensures { OnlyCalled }
{}

/// Once nothing is on the way and all that was written came, a close has closed the channel, and an end of data has
/// come.
pub fn all_ends()
    ensures { AllEnds }
{}
