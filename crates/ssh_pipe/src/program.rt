//! The top call of the program.

ghost use Rattle.std.specs.Prelude.{◌≡◌, ◌⊎◌, ◌≤◌, ◌+◌, ◌^◌, List, [], ℕ, Some, IfErr, IfOk, IfSome, length};
ghost use Rattle.std.specs.Process.{exit_status};
ghost use Rattle.ssh_wire.specs.Outside.{ReachesEnd, TakesFront};
ghost use Rattle.ssh_program.specs.Statuses.{want_of_memory};
ghost use Rattle.rand_chacha.specs.ChaCha.{of_seed};
ghost use Rattle.ssh_kex.specs.declared.exchange.FinishedExchange.{FinishedExchange};
ghost use Rattle.ssh_modp.specs.Hosts.{is_known};
ghost use Rattle.ssh_modp.specs.Rsa.{rsa_accepts};
ghost use Rattle.ssh_rules.specs.Standing.{IsNew};
ghost use Rattle.ssh_rules.specs.Valid.{config_fault};
ghost use Rattle.ssh_wire.specs.declared.error.ConfigFault.{ConfigFault};
ghost use Rattle.ssh_wire.specs.declared.error.Error.TheVariants.{InvalidConfig, Memory};
ghost use Rattle.ssh_pipe.specs.Desks.{HasAnswered};
ghost use Rattle.ssh_pipe.specs.Keys.{IsFaultyFile, IsSetUp};
ghost use Rattle.ssh_pipe.specs.Notes.{TellsLines, exchange_notes, noted};
ghost use Rattle.ssh_pipe.specs.Runs.{IsProgramRun, longest_file, ports};
ghost use Rattle.ssh_pipe.specs.Talks.{Talked, TellsFault};
ghost use Rattle.ssh_pipe.specs.declared.end.TalkEnd.TheVariants.{Exhausted, InputEnded, SinkFailed, SourceFailed};

use crate::command::{PipeCommand, command_of};
use crate::desk::Desk;
use crate::end::{TalkEnd, status_of};
use crate::notes::{tell, tell_end};
use crate::setup::{PipeParts, config_of, parts_of};
use crate::talking::talk;
use crate::told::RunTold;
use rand_chacha::ChaCha20Rng;
use ssh_kex::{Config, Handed, Parts};
use ssh_modp::{FieldAgreement, ModpGroups, RsaHosts, known_blob, private_key};
use ssh_program::{NO_COMMAND, SCRIPT_FAULTY, StdSource, WANT_OF_MEMORY, Word, words_of};
use ssh_rules::Asked;
use ssh_transport::Transport;
use ssh_wire::{Blob, Error, Side, Sink, Source};
use std::alloc::{AllocError, Global};
use std::env::Args;
use std::fs::File;
use std::io;
use std::process::ExitCode;
use std::random::RandomSource;
use std::rt::Files;

/// The longest file of a key, in bytes.
const LONGEST_FILE: usize = 65536;

const USAGE: &[u8] =
    b"usage: sshpipe server KEYFILE [LIMIT]\n       sshpipe client HOSTKEY.pub [LIMIT]\n";

/// Runs the command that the arguments name, and gives the exit status: 0 the talk came to its end, 1 what the other
/// side sent was refused, 2 the words are no command, 3 the key's file can't be read or isn't a key, 4 the source
/// failed, 5 the sink failed, 6 want of memory.
pub fn exit_code<R: Files + RandomSource, S: Source, K: Sink, N: Sink>(
    rt: &R,
    alloc: Global,
    arguments: io::Result<Args<Global>>,
    source: &mut S,
    sink: &mut K,
    notes: &mut N,
) -> ExitCode
    ensures status { exit_status result ≤ want_of_memory }
    ensures ran { IsProgramRun ⟦<Parts<FieldAgreement, RsaHosts, ModpGroups, ChaCha20Rng> as RunTold>⟧.runs arguments
        (ports (S.left source.old) (K.held sink.old) (S.faults source.old) (K.faults sink.old)
        (noted (N.held notes.old) (N.faults notes.old)))
        (ports (S.left source.new) (K.held sink.new) (S.faults source.new) (K.faults sink.new)
        (noted (N.held notes.new) (N.faults notes.new)))
        (exit_status result) }
{
    match words_of(alloc, arguments) {
        Ok(words) => ExitCode::from(run(rt, alloc, words.as_slice(), source, sink, notes)),
        Err(_) => ExitCode::from(WANT_OF_MEMORY),
    }
}

/// Runs the command that has these words, and gives the exit status.
fn run<R: Files + RandomSource, S: Source, K: Sink, N: Sink>(
    rt: &R,
    alloc: Global,
    words: &[Word],
    source: &mut S,
    sink: &mut K,
    notes: &mut N,
) -> u8
    ensures status { result ≤ want_of_memory }
    ensures ran { ⟦<Parts<FieldAgreement, RsaHosts, ModpGroups, ChaCha20Rng> as RunTold>⟧.runs words.now
        (ports (S.left source.old) (K.held sink.old) (S.faults source.old) (K.faults sink.old)
        (noted (N.held notes.old) (N.faults notes.old)))
        (ports (S.left source.new) (K.held sink.new) (S.faults source.new) (K.faults sink.new)
        (noted (N.held notes.new) (N.faults notes.new)))
        result }
{
    let Some(command) = command_of(words) else {
        tell(USAGE, notes);
        return NO_COMMAND;
    };
    let text = match key_file(rt, alloc, command.file) {
        Ok(Some(text)) => text,
        Ok(None) => {
            tell(b"sshpipe: the key's file can't be read\n", notes);
            return SCRIPT_FAULTY;
        }
        Err(_) => return WANT_OF_MEMORY,
    };
    let mut seed = [0; 32];
    if rt.fill_bytes(&mut seed).is_err() {
        tell(b"sshpipe: there are no random bytes\n", notes);
        return SCRIPT_FAULTY;
    }
    run_with_key(alloc, &command, text.as_slice(), seed, source, sink, notes)
}

/// Runs a command by the text of its key's file and a seed, and gives the exit status. Where the file isn't a key that
/// can be used, or memory is wanting, nothing is read, and nothing is written but a note.
pub fn run_with_key<S: Source, K: Sink, N: Sink>(
    alloc: Global,
    command: &PipeCommand<'_>,
    text: &[u8],
    seed: [u8; 32],
    source: &mut S,
    sink: &mut K,
    notes: &mut N,
) -> u8
    requires some { 1 ≤ command.now.limit }
    requires most { command.now.limit ≤ 2 ^ 30 }
    ensures status { result ≤ want_of_memory }
    ensures ran { ⟦<Parts<FieldAgreement, RsaHosts, ModpGroups, ChaCha20Rng> as RunTold>⟧.runs_with_key
        command.now.side command.now.limit text.now seed
        (ports (S.left source.old) (K.held sink.old) (S.faults source.old) (K.faults sink.old)
        (noted (N.held notes.old) (N.faults notes.old)))
        (ports (S.left source.new) (K.held sink.new) (S.faults source.new) (K.faults sink.new)
        (noted (N.held notes.new) (N.faults notes.new)))
        result }
{
    match set_up(alloc, command, text, seed) {
        Ok((config, mut parts)) => {
            let end = talk_as(
                alloc,
                command.side,
                &config,
                &mut parts,
                source,
                sink,
                notes,
            );
            tell_end(alloc, &end, notes);
            status_of(&end)
        }
        Err(Error::Memory) => WANT_OF_MEMORY,
        Err(_) => {
            tell(
                b"sshpipe: the key's file isn't an RSA key that can be used\n",
                notes,
            );
            SCRIPT_FAULTY
        }
    }
}

/// The bytes of a file; none where it can't be read, or has over 65536 bytes. AllocError.
fn key_file<R: Files>(rt: &R, alloc: Global, name: &str) -> Result<Option<Vec<u8>>, AllocError>
    ensures short { IfOk result (λ text. IfSome text (λ bytes. length bytes.items ≤ longest_file)) }
{
    let mut text = Vec::new(alloc);
    let Ok(file) = File::open(rt, name) else {
        return Ok(None);
    };
    let mut source = StdSource::new(file);
    let mut buffer = [0; 4096];
    'pieces: for _piece in 0..LONGEST_FILE {
        match source.read(&mut buffer) {
            Ok(0) => return Ok(Some(text)),
            Ok(n) => text.extend_from_slice(&buffer[..n])?,
            Err(_) => return Ok(None),
        }
        if text.len() > LONGEST_FILE {
            return Ok(None);
        }
    }
    Ok(None)
}

/// The configuration and the parts of a side, by the text of its key's file. SshEncoding where the file isn't a key of
/// that side; Memory.
pub fn set_up(
    alloc: Global,
    command: &PipeCommand<'_>,
    text: &[u8],
    seed: [u8; 32],
) -> Result<(Config, PipeParts), Error>
    requires some { 1 ≤ command.now.limit }
    requires most { command.now.limit ≤ 2 ^ 30 }
    ensures hosts { IfOk result (λ v. IsSetUp command.now.side text.now command.now.limit v.0 v.1.hosts) }
    ensures rng { IfOk result (λ v. v.1.rng ≡ of_seed seed) }
    ensures faulty { IfErr result (λ e. (e ≡ Memory) ⊎ IsFaultyFile command.now.side text.now) }
{
    match command.side {
        Side::Server => {
            let key = private_key(alloc, text)?;
            let config = config_of(alloc, Some(key.blob.as_slice()), command.limit)?;
            Ok((config, parts_of(Some(key), Vec::new(alloc), seed)))
        }
        Side::Client => {
            let blob = known_blob(alloc, text)?;
            let mut known: Vec<Blob> = Vec::new(alloc);
            known.push(blob)?;
            let config = config_of(alloc, None, command.limit)?;
            Ok((config, parts_of(None, known, seed)))
        }
    }
}

/// Talks as this side: a new one of this configuration is fed what is taken of the source, and what it writes goes into
/// the sink. Each exchange that a client finished was signed, under the hash of that exchange, by the key of a host
/// that is known (RFC 4253 section 8). The blob of that key and the signature stand in the reply that the client read,
/// and the signature passes the test of RFC 8017 (RFC 8332). A line is told for each exchange that was finished.
pub fn talk_as<S: Source, K: Sink, N: Sink>(
    alloc: Global,
    side: Side,
    config: &Config,
    parts: &mut PipeParts,
    source: &mut S,
    sink: &mut K,
    notes: &mut N,
) -> TalkEnd
    ensures talked { (bytes : List ℕ) × (finished : List FinishedExchange)
        × TakesFront bytes (S.left source.old) (S.left source.new) × Talked side config.now
        (⟦<Parts<FieldAgreement, RsaHosts, ModpGroups, ChaCha20Rng> as Handed>⟧.says config.now parts.old)
        (⟦<Parts<FieldAgreement, RsaHosts, ModpGroups, ChaCha20Rng> as Handed>⟧.denies parts.old parts.new)
        (⟦<Parts<FieldAgreement, RsaHosts, ModpGroups, ChaCha20Rng> as Asked>⟧.distrusts parts.old parts.new)
        rsa_accepts (is_known parts.old.hosts.known) (K.held sink.old) bytes (K.held sink.new) result finished
        × TellsLines (exchange_notes 1 finished) (noted (N.held notes.old) (N.faults notes.old))
        (noted (N.held notes.new) (N.faults notes.new)) }
    ensures whole { result ≡ InputEnded → ReachesEnd (S.left source.old) (S.left source.new) }
    ensures long { result ≡ Exhausted → IfSome (S.left source.old) (λ left. 2 ^ 64 ≤ length left + 1) }
    ensures source { TellsFault SourceFailed (S.faults source.old) (S.faults source.new) result }
    ensures sink { TellsFault SinkFailed (K.faults sink.old) (K.faults sink.new) result }
{
    match opened(alloc, side, config) {
        Ok((mut transport, mut desk)) => {
            talk(alloc, &mut transport, parts, &mut desk, source, sink, notes)
        }
        Err(error) => TalkEnd::Refused(error),
    }
}

/// A transport that has written its version line, and a desk.
fn opened<'c>(alloc: Global, side: Side, config: &'c Config) -> Result<(Transport<'c>, Desk), Error>
    ensures transport { IfOk result (λ v. IsNew side config.now v.0) }
    ensures side { IfOk result (λ v. v.1.side ≡ side) }
    ensures desk { IfOk result (λ v. HasAnswered v.1 []) }
    ensures err { IfErr result (λ e. (e ≡ Memory) ⊎ ((f : ConfigFault) × (config_fault side config.now ≡ Some f)
        × (e ≡ InvalidConfig f))) }
{
    let desk = Desk::new(alloc, side)?;
    let transport = match side {
        Side::Client => Transport::client(alloc, config)?,
        Side::Server => Transport::server(alloc, config)?,
    };
    Ok((transport, desk))
}
