//! Compares rows of values with what the public calls on powers answer. The status is 0 where none failed and at least
//! one passed.
#![tactic(auto)]

use ssh_power::{Modulus, ModulusError, is_less, magnitude};
use std::process::ExitCode;
use vector_rows::{Answers, Fault, Found, Row, check};

/// Answers the rows, each by itself.
#[derive(Drop)]
struct PowerRows;

impl Answers for PowerRows {
    /// None.
    fn passes_over(&mut self, _kind: &str, _row: &Row<'_>, _wanted: &str) -> Result<bool, Fault> {
        Ok(false)
    }

    fn answer(&mut self, kind: &str, row: &Row<'_>, found: &Found) -> Result<bool, Fault> {
        match kind {
            "power" => power(row, found),
            "less" => less(row, found),
            "magnitude" => shortened(row, found),
            _ => return Ok(false),
        }
        Ok(true)
    }
}

/// `power BASE EXPONENT MODULUS`: the bytes of the power, or why the number is no modulus.
fn power(row: &Row<'_>, found: &Found) {
    let base = row.bytes();
    let exponent = row.bytes();
    let modulus = row.bytes();
    match Modulus::new(row.alloc(), modulus) {
        Ok(modulus) => say_power(&modulus, base, exponent, found),
        Err(fault) => say_fault(fault, found),
    }
}

fn say_power(modulus: &Modulus, base: &[u8], exponent: &[u8], found: &Found) {
    match modulus.power(found.alloc(), base, exponent) {
        Ok(power) => found.say_bytes(power.as_slice()),
        Err(_) => found.fail(Fault::Memory),
    }
}

/// Appends why a number is no modulus.
fn say_fault(fault: ModulusError, found: &Found) {
    match fault {
        ModulusError::Even => found.say("Even"),
        ModulusError::Small => found.say("Small"),
        ModulusError::Long => found.say("Long"),
        ModulusError::Memory => found.fail(Fault::Memory),
    }
}

/// `less BYTES BYTES`: whether the first spell the lesser number.
fn less(row: &Row<'_>, found: &Found) {
    let first = row.bytes();
    let second = row.bytes();
    let is_less = is_less(first, second);
    found.say(if is_less { "true" } else { "false" });
}

/// `magnitude BYTES`: the bytes without zeros at the front.
fn shortened(row: &Row<'_>, found: &Found) {
    let bytes = row.bytes();
    found.say_bytes(magnitude(bytes));
}

fn main(rt: HostRuntime) -> ExitCode {
    match check(&rt, &mut PowerRows) {
        Ok(true) => ExitCode::SUCCESS,
        _ => ExitCode::FAILURE,
    }
}
