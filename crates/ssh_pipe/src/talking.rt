//! The talk with the other side: pieces are read as they come, fed, and answered at once.

ghost use Rattle.std.specs.Prelude.{◌≡◌, ◌+◌, ◌^◌, ◌<◌, ◌≤◌, List, ℕ, [], ◌∷◌, None, true, false, IfErr, IfSome, OnOk, length};
ghost use Rattle.ssh_rules.specs.Standing.{Submitted};
ghost use Rattle.ssh_rules.specs.Valid.{is_good_payload};
ghost use Rattle.ssh_wire.specs.Outside.{Appends, AppendsFront, ReachesEnd, Rose, TakesFront};
ghost use Rattle.ssh_wire.specs.declared.error.Error.TheVariants.{Memory};
ghost use Rattle.ssh_pipe.specs.Desks.{first_of, first_said};
ghost use Rattle.ssh_pipe.specs.Notes.{TellsLines, exchange_notes, noted};
ghost use Rattle.ssh_pipe.specs.Talks.{Ends, HandsReplies, IsCutAt, IsEndFor, SaysFirst, TalksOn, TellsFault};
ghost use Rattle.ssh_pipe.specs.declared.end.TalkEnd.TheVariants.{Exhausted, InputEnded, Refused, SinkFailed, SourceFailed};

use crate::desk::{Desk, Reply};
use crate::end::TalkEnd;
use crate::notes::tell_exchanges;
use rand_core::Rng;
use ssh_kex::{Agreement, GroupLookup, Handed, HostKeys, Parts};
use ssh_rules::Asked;
use ssh_transport::Transport;
use ssh_wire::{Error, Sink, Source, write_all};
use std::alloc::Global;

/// How many bytes are read at once.
const PIECE: usize = 16384;

/// Talks until the input ends, the other side disconnects, something is refused, or a client's service is granted:
/// what is due is written, a piece is read and fed, and what it delivers is answered. Each exchange that is finished
/// is told.
pub fn talk<A: Agreement, H: HostKeys, G: GroupLookup, R: Rng, S: Source, K: Sink, N: Sink>(
    alloc: Global,
    transport: &mut Transport<'_>,
    parts: &mut Parts<A, H, G, R>,
    desk: &mut Desk,
    source: &mut S,
    sink: &mut K,
    notes: &mut N,
) -> TalkEnd
    requires live { transport.old.failed ≡ false }
    ensures talked { (bytes : List ℕ) × TakesFront bytes (S.left source.old) (S.left source.new)
        × Ends (⟦<Parts<A, H, G, R> as Handed>⟧.says transport.old.config parts.old)
        (⟦<Parts<A, H, G, R> as Handed>⟧.denies parts.old parts.new)
        (⟦<Parts<A, H, G, R> as Asked>⟧.distrusts parts.old parts.new) desk.old
        (first_said (first_of desk.old.side)) transport.old (K.held sink.old) bytes (K.held sink.new) result
        transport.new.state.records }
    ensures noted { TellsLines (exchange_notes 1 transport.new.state.records)
        (noted (N.held notes.old) (N.faults notes.old)) (noted (N.held notes.new) (N.faults notes.new)) }
    ensures whole { result ≡ InputEnded → ReachesEnd (S.left source.old) (S.left source.new) }
    ensures long { result ≡ Exhausted → IfSome (S.left source.old) (λ left. 2 ^ 64 ≤ length left + 1) }
    ensures source { TellsFault SourceFailed (S.faults source.old) (S.faults source.new) result }
    ensures sink { TellsFault SinkFailed (K.faults sink.old) (K.faults sink.new) result }
{
    match begin(alloc, transport, parts, desk) {
        Ok(()) => take_turns(alloc, transport, parts, desk, source, sink, notes),
        Err(error) => {
            tell_exchanges(alloc, transport, 0, notes);
            TalkEnd::Refused(error)
        }
    }
}

/// Takes turns until one ends the talk, and tells each exchange that is finished.
fn take_turns<A: Agreement, H: HostKeys, G: GroupLookup, R: Rng, S: Source, K: Sink, N: Sink>(
    alloc: Global,
    transport: &mut Transport<'_>,
    parts: &mut Parts<A, H, G, R>,
    desk: &mut Desk,
    source: &mut S,
    sink: &mut K,
    notes: &mut N,
) -> TalkEnd
    requires live { transport.old.failed ≡ false }
    ensures talked { (bytes : List ℕ) × TakesFront bytes (S.left source.old) (S.left source.new)
        × Ends (⟦<Parts<A, H, G, R> as Handed>⟧.says transport.old.config parts.old)
        (⟦<Parts<A, H, G, R> as Handed>⟧.denies parts.old parts.new)
        (⟦<Parts<A, H, G, R> as Asked>⟧.distrusts parts.old parts.new) desk.old [] transport.old
        (K.held sink.old) bytes (K.held sink.new) result transport.new.state.records }
    ensures noted { TellsLines (exchange_notes 1 transport.new.state.records)
        (noted (N.held notes.old) (N.faults notes.old)) (noted (N.held notes.new) (N.faults notes.new)) }
    ensures whole { result ≡ InputEnded → ReachesEnd (S.left source.old) (S.left source.new) }
    ensures long { result ≡ Exhausted → IfSome (S.left source.old) (λ left. 2 ^ 64 ≤ length left + 1) }
    ensures source { TellsFault SourceFailed (S.faults source.old) (S.faults source.new) result }
    ensures sink { TellsFault SinkFailed (K.faults sink.old) (K.faults sink.new) result }
{
    let mut told = tell_exchanges(alloc, transport, 0, notes);
    'turns: for _turn in 0..u64::MAX {
        let end = turn(alloc, transport, parts, desk, source, sink);
        told = tell_exchanges(alloc, transport, told, notes);
        match end {
            Some(end) => return end,
            None => {}
        }
    }
    TalkEnd::Exhausted
}

/// Submits what a side sends first.
fn begin<A: Agreement, H: HostKeys, G: GroupLookup, R: Rng>(
    alloc: Global,
    transport: &mut Transport<'_>,
    parts: &mut Parts<A, H, G, R>,
    desk: &Desk,
) -> Result<(), Error>
    requires live { transport.old.failed ≡ false }
    ensures memory { IfErr result (λ e. e ≡ Memory) }
    ensures sent { OnOk result (SaysFirst (⟦<Parts<A, H, G, R> as Handed>⟧.says transport.old.config parts.old)
        desk.now.side transport.old transport.new) }
    ensures live { OnOk result (transport.old.failed ≡ false → transport.new.failed ≡ false) }
    ensures config { OnOk result (transport.new.config ≡ transport.old.config) }
    ensures records { transport.new.state.records ≡ transport.old.state.records }
    ensures parts { (parts.new.agreement ≡ parts.old.agreement) × (parts.new.hosts ≡ parts.old.hosts)
        × (parts.new.groups ≡ parts.old.groups) }
{
    let first = desk.first(alloc)?;
    match first {
        Some(payload) => transport.submit(parts, payload.as_slice()),
        None => Ok(()),
    }
}

/// Writes what is due, reads a piece, and takes it; or tells why there is nothing more to be done.
fn turn<A: Agreement, H: HostKeys, G: GroupLookup, R: Rng, S: Source, K: Sink>(
    alloc: Global,
    transport: &mut Transport<'_>,
    parts: &mut Parts<A, H, G, R>,
    desk: &mut Desk,
    source: &mut S,
    sink: &mut K,
) -> Option<TalkEnd>
    requires live { transport.old.failed ≡ false }
    ensures more { result ≡ None → (piece : List ℕ) × TakesFront piece (S.left source.old) (S.left source.new)
        × TalksOn (⟦<Parts<A, H, G, R> as Handed>⟧.says transport.old.config parts.old) desk.old transport.old
        (K.held sink.old) piece desk.new transport.new (K.held sink.new) × (0 < length piece) }
    ensures ends { IfSome result (λ end. (piece : List ℕ) × TakesFront piece (S.left source.old) (S.left source.new)
        × Ends (⟦<Parts<A, H, G, R> as Handed>⟧.says transport.old.config parts.old)
        (⟦<Parts<A, H, G, R> as Handed>⟧.denies parts.old parts.new)
        (⟦<Parts<A, H, G, R> as Asked>⟧.distrusts parts.old parts.new) desk.old [] transport.old
        (K.held sink.old) piece (K.held sink.new) end transport.new.state.records) }
    ensures live { result ≡ None → transport.new.failed ≡ false }
    ensures unspent { IfSome result (λ end. end ≡ Exhausted → ⊥) }
    ensures whole { IfSome result (λ end. end ≡ InputEnded → ReachesEnd (S.left source.old) (S.left source.new)) }
    ensures source { IfSome result (TellsFault SourceFailed (S.faults source.old) (S.faults source.new)) }
    ensures sink { IfSome result (TellsFault SinkFailed (K.faults sink.old) (K.faults sink.new)) }
    ensures unfailed { result ≡ None → (S.faults source.new ≡ S.faults source.old)
        × (K.faults sink.new ≡ K.faults sink.old) }
    ensures config { result ≡ None → transport.new.config ≡ transport.old.config }
    ensures keeps { ⟦<Parts<A, H, G, R> as Handed>⟧.keeps parts.old parts.new }
{
    if send(transport, sink) {
        read_on(alloc, transport, parts, desk, source, sink)
    } else {
        Some(TalkEnd::SinkFailed)
    }
}

/// Reads a piece, and takes it, where nothing is due and the talk hasn't ended.
fn read_on<A: Agreement, H: HostKeys, G: GroupLookup, R: Rng, S: Source, K: Sink>(
    alloc: Global,
    transport: &mut Transport<'_>,
    parts: &mut Parts<A, H, G, R>,
    desk: &mut Desk,
    source: &mut S,
    sink: &mut K,
) -> Option<TalkEnd>
    requires live { transport.old.failed ≡ false }
    requires sent { transport.old.output ≡ [] }
    ensures more { result ≡ None → (piece : List ℕ) × TakesFront piece (S.left source.old) (S.left source.new)
        × TalksOn (⟦<Parts<A, H, G, R> as Handed>⟧.says transport.old.config parts.old) desk.old transport.old
        (K.held sink.old) piece desk.new transport.new (K.held sink.new) × (0 < length piece) }
    ensures ends { IfSome result (λ end. (piece : List ℕ) × TakesFront piece (S.left source.old) (S.left source.new)
        × Ends (⟦<Parts<A, H, G, R> as Handed>⟧.says transport.old.config parts.old)
        (⟦<Parts<A, H, G, R> as Handed>⟧.denies parts.old parts.new)
        (⟦<Parts<A, H, G, R> as Asked>⟧.distrusts parts.old parts.new) desk.old [] transport.old
        (K.held sink.old) piece (K.held sink.new) end transport.new.state.records) }
    ensures live { result ≡ None → transport.new.failed ≡ false }
    ensures unspent { IfSome result (λ end. end ≡ Exhausted → ⊥) }
    ensures whole { IfSome result (λ end. end ≡ InputEnded → ReachesEnd (S.left source.old) (S.left source.new)) }
    ensures source { IfSome result (TellsFault SourceFailed (S.faults source.old) (S.faults source.new)) }
    ensures sink { IfSome result (TellsFault SinkFailed (K.faults sink.old) (K.faults sink.new)) }
    ensures unfailed { result ≡ None → (S.faults source.new ≡ S.faults source.old)
        × (K.faults sink.new ≡ K.faults sink.old) }
    ensures config { result ≡ None → transport.new.config ≡ transport.old.config }
    ensures keeps { ⟦<Parts<A, H, G, R> as Handed>⟧.keeps parts.old parts.new }
{
    if desk.is_done() && !transport.inside() {
        return Some(TalkEnd::Granted);
    }
    let mut buffer = [0; PIECE];
    match source.read(&mut buffer) {
        Ok(0) => Some(TalkEnd::InputEnded),
        Ok(n) => take_piece(alloc, transport, parts, desk, &buffer[..n], sink),
        Err(_) => Some(TalkEnd::SourceFailed),
    }
}

/// Writes all of the output; whether the sink took it.
fn send<K: Sink>(transport: &mut Transport<'_>, sink: &mut K) -> bool
    ensures sent { result ≡ true → (transport.new ≡ record transport.old { output = [] })
        × Appends transport.old.output (K.held sink.old) (K.held sink.new) }
    ensures failed { result ≡ false → (transport.new ≡ transport.old)
        × AppendsFront transport.old.output (K.held sink.old) (K.held sink.new)
        × Rose (K.faults sink.old) (K.faults sink.new) }
    ensures unfailed { result ≡ true → K.faults sink.new ≡ K.faults sink.old }
{
    match write_all(sink, transport.output()) {
        Ok(()) => {
            let sent = transport.output().len();
            transport.consume_output(sent);
            true
        }
        Err(_) => false,
    }
}

/// Feeds a piece, and answers what it delivers. Where it is refused, what was due before is written.
fn take_piece<A: Agreement, H: HostKeys, G: GroupLookup, R: Rng, K: Sink>(
    alloc: Global,
    transport: &mut Transport<'_>,
    parts: &mut Parts<A, H, G, R>,
    desk: &mut Desk,
    piece: &[u8],
    sink: &mut K,
) -> Option<TalkEnd>
    requires live { transport.old.failed ≡ false }
    ensures more { result ≡ None
        → TalksOn (⟦<Parts<A, H, G, R> as Handed>⟧.says transport.old.config parts.old) desk.old transport.old
        (K.held sink.old) piece.now desk.new transport.new (K.held sink.new) }
    ensures live { result ≡ None → transport.new.failed ≡ false }
    ensures ends { IfSome result (λ end. Ends (⟦<Parts<A, H, G, R> as Handed>⟧.says transport.old.config parts.old)
        (⟦<Parts<A, H, G, R> as Handed>⟧.denies parts.old parts.new)
        (⟦<Parts<A, H, G, R> as Asked>⟧.distrusts parts.old parts.new) desk.old [] transport.old
        (K.held sink.old) piece.now (K.held sink.new) end transport.new.state.records) }
    ensures other { IfSome result (λ end. end ≡ InputEnded → ⊥) }
    ensures unspent { IfSome result (λ end. end ≡ Exhausted → ⊥) }
    ensures unread { IfSome result (λ end. end ≡ SourceFailed → ⊥) }
    ensures sink { IfSome result (TellsFault SinkFailed (K.faults sink.old) (K.faults sink.new)) }
    ensures unfailed { result ≡ None → K.faults sink.new ≡ K.faults sink.old }
    ensures config { result ≡ None → transport.new.config ≡ transport.old.config }
    ensures keeps { ⟦<Parts<A, H, G, R> as Handed>⟧.keeps parts.old parts.new }
{
    match transport.feed(parts, piece) {
        Ok(()) => answer_all(alloc, transport, parts, desk),
        Err(error) => {
            if send(transport, sink) {
                Some(refused(error))
            } else {
                Some(TalkEnd::SinkFailed)
            }
        }
    }
}

/// The end behind a refusal.
fn refused(error: Error) -> TalkEnd
    ensures { IsEndFor error result }
{
    match error {
        Error::Disconnect => TalkEnd::Disconnected,
        error => TalkEnd::Refused(error),
    }
}

/// Answers each payload that was delivered, in order; or tells why the talk ends.
fn answer_all<A: Agreement, H: HostKeys, G: GroupLookup, R: Rng>(
    alloc: Global,
    transport: &mut Transport<'_>,
    parts: &mut Parts<A, H, G, R>,
    desk: &mut Desk,
) -> Option<TalkEnd>
    requires live { transport.old.failed ≡ false }
    ensures answers { result ≡ None → HandsReplies (⟦<Parts<A, H, G, R> as Handed>⟧.says transport.old.config parts.old)
        desk.old (record transport.old { delivered = [] }) transport.old.delivered desk.new transport.new }
    ensures live { result ≡ None → transport.new.failed ≡ false }
    ensures config { result ≡ None → transport.new.config ≡ transport.old.config }
    ensures records { transport.new.state.records ≡ transport.old.state.records }
    ensures cut { IfSome result (IsCutAt desk.old transport.old.delivered) }
    ensures parts { (parts.new.agreement ≡ parts.old.agreement) × (parts.new.hosts ≡ parts.old.hosts)
        × (parts.new.groups ≡ parts.old.groups) }
{
    let delivered = transport.take_delivered();
    for payload in delivered.as_slice() {
        match answer_one(alloc, transport, parts, desk, payload.as_slice()) {
            Some(end) => return Some(end),
            None => {}
        }
    }
    None
}

/// Answers a payload.
fn answer_one<A: Agreement, H: HostKeys, G: GroupLookup, R: Rng>(
    alloc: Global,
    transport: &mut Transport<'_>,
    parts: &mut Parts<A, H, G, R>,
    desk: &mut Desk,
    payload: &[u8],
) -> Option<TalkEnd>
    requires live { transport.old.failed ≡ false }
    ensures answers { result ≡ None → HandsReplies (⟦<Parts<A, H, G, R> as Handed>⟧.says transport.old.config parts.old)
        desk.old transport.old (payload.now ∷ []) desk.new transport.new }
    ensures live { result ≡ None → transport.new.failed ≡ false }
    ensures config { result ≡ None → transport.new.config ≡ transport.old.config }
    ensures records { transport.new.state.records ≡ transport.old.state.records }
    ensures cut { IfSome result (IsCutAt desk.old (payload.now ∷ [])) }
    ensures parts { (parts.new.agreement ≡ parts.old.agreement) × (parts.new.hosts ≡ parts.old.hosts)
        × (parts.new.groups ≡ parts.old.groups) }
{
    match desk.reply_to(alloc, payload) {
        Ok(Reply::Silent) => None,
        Ok(Reply::Message(reply)) => submit(transport, parts, reply.as_slice()),
        Ok(Reply::NotServed) => Some(TalkEnd::NotServed),
        Ok(Reply::Bad(error)) => Some(TalkEnd::Refused(error)),
        Err(error) => Some(TalkEnd::Refused(error)),
    }
}

/// Submits a payload.
fn submit<A: Agreement, H: HostKeys, G: GroupLookup, R: Rng>(
    transport: &mut Transport<'_>,
    parts: &mut Parts<A, H, G, R>,
    payload: &[u8],
) -> Option<TalkEnd>
    requires live { transport.old.failed ≡ false }
    requires good { is_good_payload payload.now ≡ true }
    ensures sent { result ≡ None → Submitted (⟦<Parts<A, H, G, R> as Handed>⟧.says transport.old.config parts.old)
        transport.old payload.now transport.new }
    ensures records { transport.new.state.records ≡ transport.old.state.records }
    ensures memory { IfSome result (λ end. end ≡ Refused Memory) }
    ensures parts { (parts.new.agreement ≡ parts.old.agreement) × (parts.new.hosts ≡ parts.old.hosts)
        × (parts.new.groups ≡ parts.old.groups) }
{
    match transport.submit(parts, payload) {
        Ok(()) => None,
        Err(error) => Some(TalkEnd::Refused(error)),
    }
}
