//! Rows of the forms of RFC 4251 section 5.

use crate::shared::{byte, is_first_of, letters, say_other, say_text};
use ssh_wire::{
    ChannelId, Error, LimitedString, NameList, Reader, SshId, Text, encode_mpint, put_string,
    put_u8, put_u32,
};
use vector_rows::{Fault, Found, Row};

/// Answers a row of one of these kinds. False where the kind is another.
pub(crate) fn answer(kind: &str, row: &Row<'_>, found: &Found) -> bool {
    match kind {
        "forms" => forms(row, found),
        "names" => names(row, found),
        "joined" => joined(row, found),
        "limited" => limited(row, found),
        "id" => id(row, found),
        _ => return answer_written(kind, row, found),
    }
    true
}

/// The same of the kinds that write a form.
fn answer_written(kind: &str, row: &Row<'_>, found: &Found) -> bool {
    let outcome = match kind {
        "put" => put(row, found),
        "mpint" => mpint(row, found),
        "letters" => many_letters(row, found),
        "channel" => channel(row, found),
        _ => return false,
    };
    found.note(outcome);
    true
}

/// `forms BYTES FORM..`: what each form reads at the front of what is left, and how many bytes are left.
fn forms(row: &Row<'_>, found: &Found) {
    let bytes = row.bytes();
    let mut reader = Reader::new(bytes);
    for _ in 0..row.left() {
        form(row, &mut reader, found);
    }
    say_left(found, &reader);
}

fn form(row: &Row<'_>, reader: &mut Reader<'_>, found: &Found) {
    match row.word() {
        "u8" => say_numbered(found, reader.read_u8()),
        "u32" => say_numbered(found, reader.read_u32()),
        "string" => say_read(found, reader.read_string()),
        "text" => say_read(found, reader.read_text()),
        "mpint" => say_read(found, reader.read_mpint()),
        "end" => say_end(found, reader.ensure_end()),
        _ => row.reject(),
    }
}

fn say_numbered<T: Into<u64>>(found: &Found, answer: Result<T, Error>) {
    match answer {
        Ok(number) => found.say_number(number.into()),
        Err(error) => found.say_shown(&error),
    }
}

fn say_read(found: &Found, answer: Result<&[u8], Error>) {
    match answer {
        Ok(bytes) => found.say_bytes(bytes),
        Err(error) => found.say_shown(&error),
    }
}

fn say_end(found: &Found, answer: Result<(), Error>) {
    match answer {
        Ok(()) => found.say("end"),
        Err(error) => found.say_shown(&error),
    }
}

/// Appends how many bytes are left.
fn say_left(found: &Found, reader: &Reader<'_>) {
    found.say("left");
    found.say_number(reader.remaining_len() as u64);
}

/// `put FORM VALUE ..`: the bytes of these forms, one behind the other.
fn put(row: &Row<'_>, found: &Found) -> Result<(), Fault> {
    let mut out = Vec::new(row.alloc());
    for _ in 0..row.left() / 2 {
        put_form(row, &mut out)?;
    }
    found.say_bytes(out.as_slice());
    Ok(())
}

fn put_form(row: &Row<'_>, out: &mut Vec<u8>) -> Result<(), Fault> {
    match row.word() {
        "u8" => put_u8(out, byte(row))?,
        "u32" => put_u32(out, row.number32())?,
        "string" => return put_short(out, row.bytes()),
        _ => row.reject(),
    }
    Ok(())
}

/// Appends a string, which is shorter than 2^24 bytes.
fn put_short(out: &mut Vec<u8>, bytes: &[u8]) -> Result<(), Fault> {
    if bytes.len() >= 1 << 24 {
        return Err(Fault::Malformed);
    }
    Ok(put_string(out, bytes)?)
}

/// `mpint NUMBER`: the mpint of a number, high byte first.
fn mpint(row: &Row<'_>, found: &Found) -> Result<(), Fault> {
    let number = row.bytes();
    if number.len() >= 1 << 24 {
        return Err(Fault::Malformed);
    }
    let mut out = Vec::new(row.alloc());
    encode_mpint(number, &mut out)?;
    found.say_bytes(out.as_slice());
    Ok(())
}

/// `names BYTES`: the names of a name-list, and how many bytes are left behind it.
fn names(row: &Row<'_>, found: &Found) {
    let bytes = row.bytes();
    let mut reader = Reader::new(bytes);
    say_list(found, &NameList::decode(row.alloc(), &mut reader));
    say_left(found, &reader);
}

/// `joined TEXT`: how many names a text of joined names has, and the text of them.
fn joined(row: &Row<'_>, found: &Found) {
    say_list(
        found,
        &NameList::from_encoded_string(row.alloc(), row.text()),
    );
}

/// How many names and their text, and `encoded` with what is written of them where that isn't their text.
fn say_list(found: &Found, answer: &Result<NameList, Error>) {
    match answer {
        Ok(list) => {
            let outcome = say_names(found, list);
            found.note(outcome);
        }
        Err(error) => found.say_shown(error),
    }
}

fn say_names(found: &Found, list: &NameList) -> Result<(), Fault> {
    found.say_number(list.0.len() as u64);
    let text = list.as_encoded_string()?;
    let bytes = text.as_str().as_bytes();
    found.say(if bytes.is_empty() { "-" } else { text.as_str() });
    if bytes.len() >= 1 << 24 {
        return Err(Fault::Malformed);
    }
    let mut wanted = Vec::new(found.alloc());
    put_string(&mut wanted, bytes)?;
    let mut encoded = Vec::new(found.alloc());
    list.encode(&mut encoded)?;
    say_other(found, "encoded", encoded.as_slice(), wanted.as_slice());
    Ok(())
}

/// `letters HOW COUNT`: how many names are read of a text of so many names `a`, or of a name-list of one name
/// of so many letters.
fn many_letters(row: &Row<'_>, found: &Found) -> Result<(), Fault> {
    let how = row.word();
    let count = row.count();
    match how {
        "names" => short_names(count, found),
        "bytes" => long_name(count, found),
        _ => Err(Fault::Malformed),
    }
}

fn short_names(count: usize, found: &Found) -> Result<(), Fault> {
    let mut text = String::new(found.alloc());
    for i in 0..count {
        text.push_str(if i == 0 { "a" } else { ",a" })?;
    }
    let answer = NameList::from_encoded_string(found.alloc(), text.as_str());
    say_count(found, &answer);
    Ok(())
}

fn long_name(count: usize, found: &Found) -> Result<(), Fault> {
    let name = letters(found.alloc(), count)?;
    let mut list = Vec::new(found.alloc());
    put_short(&mut list, name.as_slice())?;
    let answer = NameList::decode(found.alloc(), &mut Reader::new(list.as_slice()));
    say_count(found, &answer);
    Ok(())
}

fn say_count(found: &Found, answer: &Result<NameList, Error>) {
    match answer {
        Ok(list) => found.say_number(list.0.len() as u64),
        Err(error) => found.say_shown(error),
    }
}

/// `limited MOST BYTES`: a string of at most 2 or 3 bytes, and how many bytes are left behind it.
fn limited(row: &Row<'_>, found: &Found) {
    let most = row.count();
    let bytes = row.bytes();
    let mut reader = Reader::new(bytes);
    match most {
        2 => limited_to::<2>(&mut reader, found),
        3 => limited_to::<3>(&mut reader, found),
        _ => row.reject(),
    }
    say_left(found, &reader);
}

fn limited_to<const N: usize>(reader: &mut Reader<'_>, found: &Found) {
    let answer: Result<LimitedString<N>, Error> = LimitedString::decode(found.alloc(), reader);
    match answer {
        Ok(text) => found.say(text.as_str()),
        Err(error) => found.say_shown(&error),
    }
}

/// `id KIND TEXT`: what is written of an id of this text behind `#`, and what is hashed of it.
fn id(row: &Row<'_>, found: &Found) {
    let is_standard = is_first_of(row, "standard", "raw");
    let bytes = row.owned_bytes();
    let text = row.expect(String::from_utf8(bytes).ok(), String::new(found.alloc()));
    let outcome = if is_standard {
        say_id(found, &SshId::Standard(Text::new(text)))
    } else {
        say_id(found, &SshId::Raw(Text::new(text)))
    };
    found.note(outcome);
}

fn say_id(found: &Found, id: &SshId) -> Result<(), Fault> {
    let mut out = Vec::new(found.alloc());
    put_u8(&mut out, b'#')?;
    id.write(&mut out)?;
    found.say_bytes(out.as_slice());
    found.say_bytes(id.as_kex_hash_bytes());
    Ok(())
}

/// `channel BYTES`: a channel's number as a number and as a text, and its bytes again.
fn channel(row: &Row<'_>, found: &Found) -> Result<(), Fault> {
    let bytes = row.bytes();
    let id = ChannelId::decode(&mut Reader::new(bytes))?;
    found.say_number(u64::from(u32::from(id)));
    say_text(found, &id);
    let mut out = Vec::new(row.alloc());
    id.encode(&mut out)?;
    found.say_bytes(out.as_slice());
    Ok(())
}
