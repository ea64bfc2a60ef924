// What the words of the tool's command line ask.
#![tactic(auto)]

ghost use Rattle.std.specs.Prelude.{◌≡◌};
ghost use Rattle.command.specs.Command.{count_of, step_for, command_for};

#[derive(Clone, Copy)]
pub enum Command {
    // No word: the two files in the current folder.
    Plain,
    // Two files by name.
    Check,
    // So many steps of a panel, by name or not.
    Step { steps: u64, named: bool },
    // The claim of a panel, by name or not.
    Claim { named: bool },
    Help,
    // Anything else.
    Unknown,
}

// How many steps a word asks for, at most 1,000,000, where it is a number.
fn count_of(word: &[u8]) -> Option<u64>
    ensures value { result ≡ count_of word.now }
{
    if word.is_empty() {
        return None;
    }
    let mut n: u64 = 0;
    for &b in word {
        if !b.is_ascii_digit() {
            return None;
        }
        n = (10 * n + (b - b'0') as u64).min(1000000);
    }
    Some(n)
}

// `step N`, and whether a panel is named.
fn step_for(word: &[u8], named: bool) -> Command
    ensures value { result ≡ step_for (count_of word.now) named }
{
    match count_of(word) {
        Some(steps) => Command::Step { steps, named },
        None => Command::Unknown,
    }
}

// What is asked by so many words, of which these are the first two.
pub fn command_of(count: usize, first: &[u8], second: &[u8]) -> Command
    ensures value { result ≡ command_for count first.now second.now }
{
    match (count, first) {
        (0, _) => Command::Plain,
        (3, b"check") => Command::Check,
        (2, b"step") => step_for(second, false),
        (3, b"step") => step_for(second, true),
        (1, b"claim") => Command::Claim { named: false },
        (2, b"claim") => Command::Claim { named: true },
        (1, b"help") => Command::Help,
        (1, b"--help") => Command::Help,
        (1, b"-h") => Command::Help,
        _ => Command::Unknown,
    }
}
