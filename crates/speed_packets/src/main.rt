//! Seals packets again and again, and opens them, for measuring: `speed_packets CIPHER MAC HOW LENGTH COUNT`
//! with names of RFC 4253, HOW `seal`, `open` or `take`, and COUNT payloads of LENGTH bytes. `open` seals too, and
//! `take` seals them all and then takes the output in pieces of 64 bytes. Writes how many payload bytes came out.
#![tactic(auto)]

ghost use Rattle.std.specs.Prelude.{◌≡◌, ◌≤◌, length};
ghost use Rattle.ssh_mac.specs.Names.{mac_key_length};
ghost use Rattle.ssh_packet.specs.Keys.{opening_of, sealing_of};
ghost use Rattle.ssh_packet.specs.Names.{cipher_key_length, nonce_length};

use rand_chacha::ChaCha20Rng;
use rand_core::SeedableRng;
use ssh_mac::mac;
use ssh_packet::compression::Compress;
use ssh_packet::{CipherPair, PacketReader, PacketWriter, SealKey, cipher};
use ssh_wire::Error;
use std::alloc::Global;
use std::{env, io};

/// How many bytes of output are taken at once.
const PIECE: usize = 64;

/// Keys of both names, of bytes that don't matter.
fn keys(cipher: cipher::Name, mac: mac::Name) -> CipherPair {
    let key = &[7; 32][..cipher.key_len()];
    let nonce = &[5; 16][..cipher.nonce_len()];
    let mac_key = &[3; 64][..mac.key_len()];
    CipherPair {
        local_to_remote: cipher.make_sealing_key(key, nonce, mac_key, mac),
        remote_to_local: cipher.make_opening_key(key, nonce, mac_key, mac),
    }
}

/// Seals so many payloads, and opens each where asked to. Answers how many payload bytes came out.
fn run(
    alloc: Global,
    keys: CipherPair,
    opens: bool,
    length: usize,
    count: u32,
) -> Result<usize, Error> {
    let mut rng = ChaCha20Rng::from_seed([1; 32]);
    let mut payload = Vec::new(alloc);
    payload.resize(length, 97)?;
    let mut writer = PacketWriter::new(alloc, keys.local_to_remote, Compress::None);
    let mut reader = PacketReader::new(alloc);
    let mut opening = keys.remote_to_local;
    for _turn in 0..count {
        writer.packet_raw(&mut rng, &payload)?;
        if opens {
            reader.push(writer.output())?;
            reader.next(&mut opening)?;
        }
        let sent = writer.output().len();
        writer.consume_output(sent);
    }
    Ok(if opens {
        reader.bytes()
    } else {
        writer.bytes_written()
    })
}

/// Seals so many payloads, and then takes all output in pieces. Answers how many payload bytes were sealed.
fn take(alloc: Global, key: SealKey, length: usize, count: u32) -> Result<usize, Error> {
    let mut rng = ChaCha20Rng::from_seed([1; 32]);
    let mut payload = Vec::new(alloc);
    payload.resize(length, 97)?;
    let mut writer = PacketWriter::new(alloc, key, Compress::None);
    for _turn in 0..count {
        writer.packet_raw(&mut rng, &payload)?;
    }
    for _piece in 0..=writer.output().len() / PIECE {
        let waiting = writer.output().len();
        writer.consume_output(waiting.min(PIECE));
    }
    Ok(writer.bytes_written())
}

fn main(rt: HostRuntime) -> io::Result<()> {
    let mut words = env::args(&rt)?.skip(1);
    let (Some(cipher), Some(mac), Some(how), Some(length), Some(count)) = (
        words.next(),
        words.next(),
        words.next(),
        words.next(),
        words.next(),
    ) else {
        return Ok(());
    };
    let (Some(cipher), Some(mac)) = (
        cipher::Name::from_str(cipher.as_str()),
        mac::Name::from_str(mac.as_str()),
    ) else {
        return Ok(());
    };
    let length = length.as_str().parse::<usize>().unwrap_or(0);
    let count = count.as_str().parse::<u32>().unwrap_or(0);
    let keys = keys(cipher, mac);
    let done = if how.as_str() == "take" {
        take(rt.alloc(), keys.local_to_remote, length, count)
    } else {
        run(rt.alloc(), keys, how.as_str() == "open", length, count)
    };
    match done {
        Ok(bytes) => println!(rt; "{bytes}")?,
        Err(error) => println!(rt; "{error}")?,
    }
    Ok(())
}
