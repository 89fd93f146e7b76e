//! Texts, numbers, bytes and names, appended to what is printed. After an error a part of them may stand there.

ghost use Rattle.std.specs.Prelude.{◌≡◌, ◌∷◌, ◌++◌, decimal, IfErr, OnOk};
ghost use Rattle.std.specs.List.{flat_map};
ghost use Rattle.hex.specs.Hex.{encode_lower};
ghost use Rattle.ssh_wire.specs.declared.error.Error.TheVariants.{Memory};
ghost use Rattle.ssh_lines.specs.Printed.{hex_word, names_word};

use ssh_wire::{Error, Text, put_u8};

/// A text.
pub fn push_text(out: &mut Vec<u8>, text: &[u8]) -> Result<(), Error>
    ensures ok { OnOk result (out.new.items ≡ out.old.items ++ text.now) }
    ensures err { IfErr result (λ e. e ≡ Memory) }
{
    out.extend_from_slice(text)?;
    Ok(())
}

/// A text, and a name behind it.
pub fn push_named(out: &mut Vec<u8>, text: &[u8], name: &[u8]) -> Result<(), Error>
    ensures ok { OnOk result (out.new.items ≡ out.old.items ++ (text.now ++ name.now)) }
    ensures err { IfErr result (λ e. e ≡ Memory) }
{
    push_text(out, text)?;
    push_text(out, name)
}

/// A text, and a number behind it.
pub fn push_numbered(out: &mut Vec<u8>, text: &[u8], n: u64) -> Result<(), Error>
    ensures ok { OnOk result (out.new.items ≡ out.old.items ++ (text.now ++ decimal n)) }
    ensures err { IfErr result (λ e. e ≡ Memory) }
{
    push_text(out, text)?;
    push_decimal(out, n)
}

/// The number in decimal digits.
pub fn push_decimal(out: &mut Vec<u8>, n: u64) -> Result<(), Error>
    ensures ok { OnOk result (out.new.items ≡ out.old.items ++ decimal n) }
    ensures err { IfErr result (λ e. e ≡ Memory) }
{
    let digits = n.to_string(*out.allocator())?;
    out.extend_from_slice(digits.as_bytes())?;
    Ok(())
}

/// Two digits for each byte, or `-` for none.
pub fn push_hex(out: &mut Vec<u8>, bytes: &[u8]) -> Result<(), Error>
    ensures ok { OnOk result (out.new.items ≡ out.old.items ++ hex_word bytes.now) }
    ensures err { IfErr result (λ e. e ≡ Memory) }
{
    if bytes.is_empty() {
        return put_u8(out, b'-');
    }
    push_digits(out, bytes)
}

fn push_digits(out: &mut Vec<u8>, bytes: &[u8]) -> Result<(), Error>
    ensures ok { OnOk result (out.new.items ≡ out.old.items ++ encode_lower bytes.now) }
    ensures err { IfErr result (λ e. e ≡ Memory) }
{
    let at = out.len();
    let end = at.checked_add(2 * bytes.len()).ok_or(Error::Memory)?;
    out.resize(end, 0)?;
    hex::encode_to_slice(bytes, &mut out[at..]).unwrap();
    Ok(())
}

/// The names with commas between, or `-` for none.
pub fn push_names(out: &mut Vec<u8>, names: &[Text]) -> Result<(), Error>
    ensures ok { OnOk result (out.new.items ≡ out.old.items ++ names_word names.now) }
    ensures err { IfErr result (λ e. e ≡ Memory) }
{
    match names.split_first() {
        None => put_u8(out, b'-'),
        Some((first, others)) => {
            push_text(out, first.as_str().as_bytes())?;
            push_others(out, others)
        }
    }
}

/// The names, each behind a comma.
fn push_others(out: &mut Vec<u8>, names: &[Text]) -> Result<(), Error>
    ensures ok { OnOk result (out.new.items ≡ out.old.items ++ flat_map (λ name. 44 ∷ name) names.now) }
    ensures err { IfErr result (λ e. e ≡ Memory) }
{
    for name in names {
        put_u8(out, b',')?;
        push_text(out, name.as_str().as_bytes())?;
    }
    Ok(())
}
