//! Raises numbers to powers again and again, for measuring: `speed_power BYTES COUNT`, where the modulus and the
//! exponent have so many bytes, all bits set. Writes the last byte of the last power.
#![tactic(auto)]

use ssh_power::Modulus;
use std::alloc::{AllocError, Global};
use std::{env, io};

/// The last byte of the last power, or none where the number is no modulus.
fn raised(alloc: Global, length: usize, count: u32) -> Result<Option<u8>, AllocError> {
    let ones = Vec::from_elem(alloc, 255u8, length)?;
    let Ok(modulus) = Modulus::new(alloc, ones.as_slice()) else {
        return Ok(None);
    };
    let mut power = Vec::from_slice(alloc, &[7u8])?;
    for _turn in 0..count {
        power = modulus.power(alloc, power.as_slice(), ones.as_slice())?;
    }
    Ok(power.as_slice().last().copied())
}

fn main(rt: HostRuntime) -> io::Result<()> {
    let mut words = env::args(&rt)?.skip(1);
    let (Some(length), Some(count)) = (words.next(), words.next()) else {
        return Ok(());
    };
    let length = length.as_str().parse::<usize>().unwrap_or(0);
    let count = count.as_str().parse::<u32>().unwrap_or(0);
    if let Ok(Some(last)) = raised(rt.alloc(), length, count) {
        println!(rt; "{last}")?;
    }
    Ok(())
}
