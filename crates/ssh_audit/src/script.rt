//! Scripts of records: those of `run`, with the secrets, the wires and the lengths.

ghost use Rattle.std.specs.Prelude.{◌≡◌, Ok, Some, None, IfOk, IfErr, OnOk};
ghost use Rattle.ssh_lines.specs.Fields.{from_two, from_word, hex_of, number_of};
ghost use Rattle.ssh_lines.specs.LineFaults.{AreWrong, IsRefusal};
ghost use Rattle.ssh_lines.specs.declared.line_fault.LineFault.TheVariants.{Malformed};
ghost use Rattle.ssh_lines.specs.declared.script.ScriptError.TheVariants.{Memory};
ghost use Rattle.ssh_audit.specs.AuditScript.{AuditPlan, IsRecordOf, audit_script, finished_record, first_record, or_nothing, sent_of, with_wire};

use ssh_lines::{
    LineFault, LineForms, ScriptError, Words, hex_bytes, number, side_and_bytes, take_script,
};
use ssh_record::{SentPair, Transcript};
use ssh_script::{RunForms, SideSetup};
use ssh_wire::{Blob, Side};
use std::alloc::Global;

const SECRET: &[u8] = b"secret";

const WIRE: &[u8] = b"wire";

const SENT: &[u8] = b"sent";

/// What a script of a record says: how both sides are set up, and the record.
#[derive(Drop)]
pub struct AuditScript {
    pub client: SideSetup,
    pub server: SideSetup,
    pub transcript: Transcript,
}

/// Reads a script of a record, in one pass over the text, in linear time.
///
/// It is a script of `run`, as `ssh_script::parse_script` reads it, with three forms more, which stand anywhere:
/// `secret HEX`, for each exchange one, in their order; `wire SIDE HEX`, all that the side sent, at most once for a
/// side; and `sent N N`, how many bytes the client and the server had sent, once before the first step and once behind
/// each.
///
/// Fault names the first line that is none of these, counted from 1: NotBuilt where its first word is none of the
/// forms', Malformed where the words behind it are wrong, or where a side's wire is given again. A text over 67108864
/// bytes is TooLong, with the line 0. Memory where an allocation failed.
pub fn parse_audit(alloc: Global, text: &[u8]) -> Result<AuditScript, ScriptError>
    ensures read { IfOk result (λ script. (plan : AuditPlan) × (audit_script text.now ≡ Ok plan)
        × IsRecordOf plan script) }
    ensures fault { IfErr result (λ error. IsRefusal (audit_script text.now) error) }
{
    let mut forms = AuditForms::new(alloc)?;
    take_script(alloc, &mut forms, text)?;
    forms.finish(alloc)
}

/// The forms of `audit`, with what the lines so far said.
#[derive(Drop)]
pub struct AuditForms {
    run: RunForms,
    sent: Vec<SentPair>,
    secrets: Vec<Blob>,
    client: Option<Blob>,
    server: Option<Blob>,
}

impl AuditForms {
    /// The forms before the first line. Memory.
    pub fn new(alloc: Global) -> Result<AuditForms, ScriptError>
        ensures first { IfOk result (λ forms. ⟦<AuditForms as LineForms>⟧.said forms ≡ first_record) }
        ensures holds { IfOk result (λ forms. ⟦<AuditForms as LineForms>⟧.holds forms) }
        ensures err { IfErr result (λ e. e ≡ Memory) }
    {
        Ok(AuditForms {
            run: RunForms::new(alloc)?,
            sent: Vec::new(alloc),
            secrets: Vec::new(alloc),
            client: None,
            server: None,
        })
    }

    /// What all lines said. Memory.
    pub fn finish(self, alloc: Global) -> Result<AuditScript, ScriptError>
        requires { ⟦<AuditForms as LineForms>⟧.holds self }
        ensures said { IfOk result (IsRecordOf (finished_record (⟦<AuditForms as LineForms>⟧.said self))) }
        ensures err { IfErr result (λ e. e ≡ Memory) }
    {
        let script = self.run.finish(alloc)?;
        Ok(AuditScript {
            client: script.client,
            server: script.server,
            transcript: Transcript {
                steps: script.steps,
                sent: self.sent,
                secrets: self.secrets,
                client: or_nothing(alloc, self.client),
                server: or_nothing(alloc, self.server),
            },
        })
    }

    /// Keeps a side's wire. Malformed where it was given before.
    fn take_wire(&mut self, side: Side, bytes: Vec<u8>) -> Result<(), LineFault>
        ensures kept { self.new.run ≡ self.old.run }
        ensures ok { OnOk result (with_wire (⟦<AuditForms as LineForms>⟧.said self.old) side bytes.items
            ≡ Some (⟦<AuditForms as LineForms>⟧.said self.new)) }
        ensures twice { IfErr result (λ e. (e ≡ Malformed)
            × (with_wire (⟦<AuditForms as LineForms>⟧.said self.old) side bytes.items ≡ None)) }
    {
        match side {
            Side::Client => {
                if self.client.is_some() {
                    return Err(LineFault::Malformed);
                }
                self.client = Some(Blob::new(bytes));
            }
            Side::Server => {
                if self.server.is_some() {
                    return Err(LineFault::Malformed);
                }
                self.server = Some(Blob::new(bytes));
            }
        }
        Ok(())
    }
}

/// The bytes, or none.
fn or_nothing(alloc: Global, bytes: Option<Blob>) -> Blob
    ensures { result ≡ or_nothing bytes }
{
    match bytes {
        Some(bytes) => bytes,
        None => Blob::new(Vec::new(alloc)),
    }
}

impl LineForms for AuditForms {
    ghost use Rattle.ssh_audit.specs.AuditScript.{AuditPlan, audit_form};

    ghost Said = { AuditPlan };

    ghost form = { audit_form };

    ghost said = { λ f. record {
      plan = ⟦<RunForms as LineForms>⟧.said f.run;
      sent = f.sent.items;
      secrets = f.secrets.items;
      client = f.client;
      server = f.server;
    } };

    ghost holds = { λ f. ⟦<RunForms as LineForms>⟧.holds f.run };

    fn take(&mut self, alloc: Global, word: &[u8], words: Words) -> Result<(), LineFault> {
        if word == SECRET {
            self.secrets.push(one_secret(alloc, words)?)?;
        } else if word == WIRE {
            let (side, bytes) = side_and_bytes(alloc, words)?;
            self.take_wire(side, bytes)?;
        } else if word == SENT {
            self.sent.push(sent_pair(words)?)?;
        } else {
            self.run.take(alloc, word, words)?;
        }
        Ok(())
    }
}

/// HEX
fn one_secret(alloc: Global, mut words: Words) -> Result<Blob, LineFault>
    ensures ok { IfOk result (λ secret. from_word hex_of words.entry ≡ Some secret) }
    ensures fault { IfErr result (AreWrong (from_word hex_of words.entry)) }
{
    let (Some(word), None) = (words.take(), words.take()) else {
        return Err(LineFault::Malformed);
    };
    match hex_bytes(alloc, word)? {
        Some(bytes) => Ok(Blob::new(bytes)),
        None => Err(LineFault::Malformed),
    }
}

/// N N
fn sent_pair(mut words: Words) -> Result<SentPair, LineFault>
    ensures ok { IfOk result (λ pair. from_two sent_of number_of number_of words.entry ≡ Some pair) }
    ensures fault { IfErr result (AreWrong (from_two sent_of number_of number_of words.entry)) }
{
    let (Some(client), Some(server), None) = (words.take(), words.take(), words.take()) else {
        return Err(LineFault::Malformed);
    };
    match (number(client), number(server)) {
        (Some(client), Some(server)) => Ok(SentPair { client, server }),
        _ => Err(LineFault::Malformed),
    }
}
