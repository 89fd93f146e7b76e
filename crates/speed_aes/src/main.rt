//! Encrypts a message of 32 KiB again and again, for measuring: `speed_aes MODE COUNT`, where MODE is
//! `ctr`, `cbc` or `gcm`, each under a key of 32 bytes. Writes a byte of the last message and of its tag, added.
#![tactic(auto)]

use ssh_aes::{BlockStreamCipher, CbcWrapper, CtrWrapper, Gcm};
use std::{env, io};

/// A message's bytes.
const LENGTH: usize = 32768;

fn run<C: BlockStreamCipher>(mut cipher: C, message: &mut [u8], count: u32) -> C {
    for _turn in 0..count {
        cipher.encrypt_data(message);
    }
    cipher
}

/// The tag is handed out, since a compiler leaves out what nobody asks for.
fn seal(gcm: &Gcm, message: &mut [u8; LENGTH], tag: &mut [u8; 16], count: u32) {
    for _turn in 0..count {
        gcm.seal(&[0; 12], &[0; 4], message, tag);
    }
}

fn main(rt: HostRuntime) -> io::Result<()> {
    let mut words = env::args(&rt)?.skip(1);
    let (Some(mode), Some(count)) = (words.next(), words.next()) else {
        return Ok(());
    };
    let count = count.as_str().parse::<u32>().unwrap_or(0);
    let key = [7; 32];
    let mut message = [0u8; LENGTH];
    let mut tag = [0u8; 16];
    match mode.as_str() {
        "ctr" => {
            let _cipher = run(CtrWrapper::new(&key, &[0; 16]), &mut message, count);
        },
        "cbc" => {
            let _cipher = run(CbcWrapper::new(&key, &[0; 16]), &mut message, count);
        },
        _ => {
            let mut gcm = Gcm::new(&key);
            gcm.prepare();
            seal(&gcm, &mut message, &mut tag, count);
        },
    }
    println!(rt; "{}", message[0] ^ tag[0])?;
    Ok(())
}
