//! The texts of a link's report and of an attacked run's.

ghost use Rattle.std.specs.Prelude.{◌≡◌, ◌++◌, ◌∷◌, ◌-◌, ◌^◌, min, IfOk, IfErr, OnOk};
ghost use Rattle.std.specs.List.{flat_map};
ghost use Rattle.ssh_wire.specs.declared.error.Error.TheVariants.{Memory};
ghost use Rattle.ssh_script.specs.RunReport.{key_word, names_words, exchange_line, exchange_lines, link_side_lines, link_report_text, link_room, answer_line, answer_lines, answer_word, attack_report_text};

use crate::report_line::{
    push_delivered, push_hex_line, push_line_head, push_number_line, room_of,
};
use ssh_kex::FinishedExchange;
use ssh_lines::{push_decimal, push_error, push_hex, push_numbered, push_text};
use ssh_negotiate::Names;
use ssh_rules::link::{AttackReport, LinkReport, SideReport};
use ssh_wire::{Error, Side, put_u8};
use std::alloc::Global;

/// The report's text: for the client and then for the server its wire, how many bytes of the other's wire it took, how
/// many exchanges it finished, each of these, and the payloads that were delivered to it. Memory where there is no room
/// for it.
pub fn print_report(alloc: Global, report: &LinkReport) -> Result<Vec<u8>, Error>
    ensures text { IfOk result (λ text. text.items ≡ link_report_text report.now) }
    ensures err { IfErr result (λ e. e ≡ Memory) }
{
    let mut text = Vec::with_capacity(
        alloc,
        text_room(&report.client).saturating_add(text_room(&report.server)),
    )?;
    push_side(&mut text, Side::Client, &report.client)?;
    push_side(&mut text, Side::Server, &report.server)?;
    Ok(text)
}

/// The report's text of a run in which both sides were fed any bytes: what both did, as of `print_report`, and then
/// what each step was answered, counted from 1. Memory where there is no room for it.
pub fn print_attack(alloc: Global, report: &AttackReport) -> Result<Vec<u8>, Error>
    ensures text { IfOk result (λ text. text.items ≡ attack_report_text report.now) }
    ensures err { IfErr result (λ e. e ≡ Memory) }
{
    let mut text = Vec::with_capacity(
        alloc,
        text_room(&report.client).saturating_add(text_room(&report.server)),
    )?;
    push_side(&mut text, Side::Client, &report.client)?;
    push_side(&mut text, Side::Server, &report.server)?;
    push_answers(&mut text, report.answers.as_slice())?;
    Ok(text)
}

/// One line for each answer; they count from 1.
fn push_answers(out: &mut Vec<u8>, answers: &[Result<(), Error>]) -> Result<(), Error>
    ensures ok { OnOk result (out.new.items ≡ out.old.items ++ answer_lines 1 answers.now) }
    ensures err { IfErr result (λ e. e ≡ Memory) }
{
    let mut k = 1;
    let mut rest = answers;
    while let Some((answer, behind)) = rest.split_first() {
        push_answer(out, k, answer)?;
        k += 1;
        rest = behind;
    }
    Ok(())
}

/// What step k was answered.
fn push_answer(out: &mut Vec<u8>, k: u64, answer: &Result<(), Error>) -> Result<(), Error>
    ensures ok { OnOk result (out.new.items ≡ out.old.items ++ answer_line k answer.now) }
    ensures err { IfErr result (λ e. e ≡ Memory) }
{
    push_numbered(out, b"answer ", k)?;
    put_u8(out, b' ')?;
    push_answer_word(out, answer)?;
    put_u8(out, b'\n')
}

/// `ok`, or the error.
fn push_answer_word(out: &mut Vec<u8>, answer: &Result<(), Error>) -> Result<(), Error>
    ensures ok { OnOk result (out.new.items ≡ out.old.items ++ answer_word answer.now) }
    ensures err { IfErr result (λ e. e ≡ Memory) }
{
    match answer {
        Ok(()) => push_text(out, b"ok"),
        Err(error) => push_error(out, error),
    }
}

/// More than the length of the longest line of an exchange.
const EXCHANGE_ROOM: usize = 512;

/// More than the length of what is printed of a side, so that the text doesn't grow.
fn text_room(report: &SideReport) -> usize
    ensures { result ≡ min (link_room report.now) (2 ^ 64 - 1) }
{
    let exchanges = report.exchanges.as_slice().len();
    room_of(report.wire.as_slice(), report.delivered.as_slice())
        .saturating_add(exchanges.saturating_mul(EXCHANGE_ROOM))
        .saturating_add(32)
}

fn push_side(out: &mut Vec<u8>, side: Side, report: &SideReport) -> Result<(), Error>
    ensures ok { OnOk result (out.new.items ≡ out.old.items ++ link_side_lines side report.now) }
    ensures err { IfErr result (λ e. e ≡ Memory) }
{
    let exchanges = report.exchanges.as_slice();
    push_hex_line(out, side, b"wire", report.wire.as_slice())?;
    push_number_line(out, side, b"taken", report.taken)?;
    push_number_line(out, side, b"finished", exchanges.len() as u64)?;
    push_exchanges(out, side, exchanges)?;
    push_delivered(out, side, report.delivered.as_slice())
}

/// One line for each exchange; they count from 1.
fn push_exchanges(
    out: &mut Vec<u8>,
    side: Side,
    exchanges: &[FinishedExchange],
) -> Result<(), Error>
    ensures ok { OnOk result (out.new.items ≡ out.old.items ++ exchange_lines side 1 exchanges.now) }
    ensures err { IfErr result (λ e. e ≡ Memory) }
{
    let mut k = 1;
    let mut rest = exchanges;
    while let Some((exchange, behind)) = rest.split_first() {
        push_exchange(out, side, k, exchange)?;
        k += 1;
        rest = behind;
    }
    Ok(())
}

fn push_exchange(
    out: &mut Vec<u8>,
    side: Side,
    k: u64,
    exchange: &FinishedExchange,
) -> Result<(), Error>
    ensures ok { OnOk result (out.new.items ≡ out.old.items ++ exchange_line side k exchange.now) }
    ensures err { IfErr result (λ e. e ≡ Memory) }
{
    push_line_head(out, side, b"exchange")?;
    push_decimal(out, k)?;
    push_names(out, &exchange.names)?;
    put_u8(out, b' ')?;
    push_hex(out, exchange.hash.as_bytes())?;
    put_u8(out, b' ')?;
    push_hex(out, exchange.session_id.as_bytes())?;
    put_u8(out, b'\n')
}

/// What was negotiated, each word behind a space.
fn push_names(out: &mut Vec<u8>, names: &Names) -> Result<(), Error>
    ensures ok { OnOk result (out.new.items ≡ out.old.items ++ flat_map (λ word. 32 ∷ word) (names_words names.now)) }
    ensures err { IfErr result (λ e. e ≡ Memory) }
{
    push_word(out, names.kex.as_str())?;
    push_word(out, key_name(names))?;
    push_word(out, names.cipher.as_str())?;
    push_word(out, names.client_mac.as_str())?;
    push_word(out, names.server_mac.as_str())?;
    push_word(out, if names.strict_kex { "strict" } else { "plain" })
}

/// KEY: the certificate's type where a certificate was chosen.
fn key_name(names: &Names) -> &'static str
    ensures { result.now ≡ key_word names.now }
{
    if names.host_key_is_certificate {
        names.key.to_certificate_type()
    } else {
        names.key.as_str()
    }
}

/// A space and a word.
fn push_word(out: &mut Vec<u8>, word: &str) -> Result<(), Error>
    ensures ok { OnOk result (out.new.items ≡ out.old.items ++ (32 ∷ word.now)) }
    ensures err { IfErr result (λ e. e ≡ Memory) }
{
    put_u8(out, b' ')?;
    push_text(out, word.as_bytes())
}
