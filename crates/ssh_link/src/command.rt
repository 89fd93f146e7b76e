//! The words that the program was called with.

ghost use Rattle.std.specs.Prelude.{◌≡◌};
ghost use Rattle.ssh_link.specs.Program.{command_in, command_named, gen_by};
ghost use Rattle.ssh_lines.specs.Fields.{number_of};

use ssh_program::Word;
use ssh_script::number;

/// What the program can be asked to do.
#[derive(Clone, Copy, Debug, Drop, PartialEq, Eq)]
pub enum Command {
    /// To run a script.
    Script(ScriptCommand),
    /// To run a link by steps that are made of a seed.
    Gen { seed: u64, count: u64 },
}

/// A command that runs a script.
#[derive(Clone, Copy, Debug, Drop, PartialEq, Eq)]
pub enum ScriptCommand {
    /// On a clear link.
    Clear,
    /// On a link.
    Run,
    /// On two sides that are fed any bytes.
    Attack,
}

/// The most turns that may be asked for.
const MOST_TURNS: u64 = 100_000;

/// The command that has these words.
pub fn command_of(words: &[Word]) -> Option<Command>
    ensures { result ≡ command_in words.now }
{
    match words {
        [word] => command_named(word.as_str()),
        [word, seed, count] if word.as_str() == "gen" => {
            gen_command(seed.as_str().as_bytes(), count.as_str().as_bytes())
        }
        _ => None,
    }
}

/// The command of a word.
fn command_named(word: &str) -> Option<Command>
    ensures { result ≡ command_named word.now }
{
    if word == "clear" {
        Some(Command::Script(ScriptCommand::Clear))
    } else if word == "run" {
        Some(Command::Script(ScriptCommand::Run))
    } else if word == "attack" {
        Some(Command::Script(ScriptCommand::Attack))
    } else {
        None
    }
}

/// SEED and COUNT: decimal, without a leading zero.
fn gen_command(seed: &[u8], count: &[u8]) -> Option<Command>
    ensures { result ≡ gen_by (number_of seed.now) (number_of count.now) }
{
    let seed = number(seed)?;
    let count = number(count)?;
    if count > MOST_TURNS {
        return None;
    }
    Some(Command::Gen { seed, count })
}
