//! Steps made of a seed.

ghost use Rattle.std.specs.Prelude.{◌≡◌, ◌++◌, ◌∷◌, [], IfOk, IfErr, OnOk};
ghost use Rattle.ssh_rules.specs.declared.link.Step.TheVariants.{Submit};
ghost use Rattle.ssh_wire.specs.declared.error.Error.TheVariants.{Memory};
ghost use Rattle.ssh_script.specs.Generated.{drawn, generated_limit, generated_plan, payload_drawn, rekey_drawn, side_drawn, state_behind, state_behind_turn, turn_steps, turns_from};
ghost use Rattle.ssh_script.specs.RunScript.{with_limits};

use crate::setup::{Script, SideSetup};
use ssh_rules::link::Step;
use ssh_wire::{Blob, Error, Side};
use std::alloc::{AllocError, Global};

/// The first byte of each payload.
const FIRST_BYTE: u8 = 0x5e;

/// How many bytes of payload either side may send and read between exchanges.
const LIMIT: usize = 65536;

/// A linear congruential generator.
#[derive(Drop)]
struct Draws {
    state: u64,
}

impl Draws {
    /// The upper 31 bits of the next state.
    fn draw(&mut self) -> u64
        ensures number { result ≡ drawn (state_behind self.old.state) }
        ensures moved { self.new.state ≡ state_behind self.old.state }
    {
        self.state = self
            .state
            .wrapping_mul(6364136223846793005)
            .wrapping_add(1442695040888963407);
        self.state >> 33
    }
}

/// A script of `count` turns and a settle, drawn from the seed. In each turn a side submits a payload of 1 to 1000
/// bytes, now and then it rekeys, and a side takes up to 4095 bytes. Memory.
pub fn generated_script(alloc: Global, seed: u64, count: u64) -> Result<Script, Error>
    ensures ok { IfOk result (λ script. script ≡ generated_plan seed count) }
    ensures err { IfErr result (λ e. e ≡ Memory) }
{
    let mut script = Script::new(alloc)?;
    script.complete(alloc)?;
    set_limits(&mut script.client);
    set_limits(&mut script.server);
    push_turns(alloc, &mut script.steps, seed, count)?;
    script.steps.push(Step::Settle)?;
    Ok(script)
}

fn set_limits(setup: &mut SideSetup)
    ensures { setup.new ≡ with_limits setup.old generated_limit generated_limit }
{
    setup.config.limits.rekey_write_limit = LIMIT;
    setup.config.limits.rekey_read_limit = LIMIT;
}

/// Appends the steps of so many turns. Memory.
fn push_turns(alloc: Global, steps: &mut Vec<Step>, seed: u64, count: u64) -> Result<(), AllocError>
    ensures { OnOk result (steps.new.items ≡ steps.old.items ++ turns_from count 0 seed) }
{
    let mut draws = Draws { state: seed };
    for turn in 0..count {
        push_turn(alloc, steps, &mut draws, turn)?;
    }
    Ok(())
}

/// Appends the steps of one turn. Memory.
fn push_turn(
    alloc: Global,
    steps: &mut Vec<Step>,
    draws: &mut Draws,
    turn: u64,
) -> Result<(), AllocError>
    ensures steps { OnOk result (steps.new.items ≡ steps.old.items ++ turn_steps turn draws.old.state) }
    ensures moved { OnOk result (draws.new.state ≡ state_behind_turn draws.old.state) }
{
    let side = side_of(draws.draw());
    steps.push(Step::Submit(side, payload(alloc, turn, draws.draw())?))?;
    push_rekey(steps, side, draws.draw())?;
    let n = draws.draw();
    steps.push(Step::Deliver(side_of(n), n % 4096))?;
    Ok(())
}

/// Appends a rekey at one of sixteen numbers. Memory.
fn push_rekey(steps: &mut Vec<Step>, side: Side, n: u64) -> Result<(), AllocError>
    ensures { OnOk result (steps.new.items ≡ steps.old.items ++ rekey_drawn side n) }
{
    if n % 16 == 0 {
        steps.push(Step::Rekey(side))?;
    }
    Ok(())
}

fn side_of(n: u64) -> Side
    ensures { result ≡ side_drawn n }
{
    if n % 2 == 0 {
        Side::Client
    } else {
        Side::Server
    }
}

/// The first byte, and up to 999 bytes of one value. Memory.
fn payload(alloc: Global, turn: u64, n: u64) -> Result<Blob, AllocError>
    ensures { IfOk result (λ payload. payload ≡ payload_drawn turn n) }
{
    let more = (n % 1000) as usize;
    let mut payload = Vec::with_capacity(alloc, more + 1)?;
    payload.push(FIRST_BYTE)?;
    payload.resize(more + 1, (turn % 256) as u8)?;
    Ok(Blob::new(payload))
}
