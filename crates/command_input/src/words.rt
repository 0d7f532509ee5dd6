ghost use Rattle.std.specs.Prelude.{◌≡◌, ◌==◌, map, option_map};
ghost use Rattle.std.specs.List.{list_all};
ghost use Rattle.std.specs.String.{string_bytes};
ghost use Rattle.command_input.specs.Words.{command_of, schedule_of};
ghost use Rattle.command_input.specs.Commands.{command_in};

use hex::FromHex;

/// A command of the program.
#[derive(Drop)]
pub enum Command<'a> {
    Run(RunWords<'a>),
}

/// A command `run`: the names of its files, lent, its seed, and the number of its schedule, which is 0 for now. docs/FORMATS.md,
/// "Words", tells the form of each.
#[derive(Drop)]
pub struct RunWords<'a> {
    pub policy: &'a str,
    pub prices: &'a str,
    pub query: &'a str,
    pub seed: [u8; 32],
    pub schedule: u64,
}

// The number of a schedule word.
fn schedule_number(word: &str) -> Option<u64>
    ensures { result ≡ schedule_of word.now }
{
    let digits = word.as_bytes();
    if digits.is_empty() || digits.len() > 20 || !are_zeros(digits) {
        return None;
    }
    Some(0)
}

fn are_zeros(digits: &[u8]) -> bool
    ensures { result ≡ list_all (λ digit. digit == 48) digits.now }
{
    digits.iter().all(|digit| *digit == b'0')
}

/// The command that the words stand for, where they have the form of one (docs/FORMATS.md, "Words"). The words are those of the
/// command line without the program's name. It takes no memory.
pub fn parse<'a>(words: &'a [String]) -> Option<Command<'a>>
    ensures { option_map command_in result ≡ command_of (map string_bytes words.now) }
{
    let [name, policy, prices, query, seed, schedule] = words else {
        return None;
    };
    if name.as_str() != "run" {
        return None;
    }
    let Ok(seed) = <[u8; 32] as FromHex>::from_hex(seed.as_str()) else {
        return None;
    };
    let schedule = schedule_number(schedule.as_str())?;
    Some(Command::Run(RunWords {
        policy: policy.as_str(),
        prices: prices.as_str(),
        query: query.as_str(),
        seed,
        schedule,
    }))
}
