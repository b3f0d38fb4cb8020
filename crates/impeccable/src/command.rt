// What the words of the command line ask for.
ghost use Rattle.std.specs.Prelude.{◌≡◌, [], ◌∷◌, map, string_bytes, IfSome};
ghost use Rattle.std.specs.Option.{option_map};
ghost use Rattle.program_spec.specs.Commands.{campaign as campaign_command, command_of, cycle_of, demo_size_of};
ghost use Rattle.demo_laws.specs.DemoLaws.{IsDemoSize};
ghost use Rattle.impeccable.specs.Command.{CanPerform, as_asked};

use imp_text::decimal;

const LAST_CYCLE: u32 = 999_999;

const MOST_SIZE_DIGITS: usize = 2;

const LARGEST_SIZE: u32 = 64;

/// A command with the names of its files, and the cycle or the size that it is given.
#[derive(Clone, Copy, Debug)]
pub(crate) enum Command<'a> {
    Flat {
        netlist: &'a str,
    },
    Code {
        settings: &'a str,
    },
    Guard {
        settings: &'a str,
        netlist: &'a str,
    },
    Sim {
        netlist: &'a str,
        stimulus: &'a str,
        script: &'a str,
    },
    Audit {
        netlist: &'a str,
    },
    Campaign {
        settings: &'a str,
        netlist: &'a str,
        stimulus: &'a str,
        cycle: u32,
    },
    Demo {
        size: u32,
    },
}

/// The command that the words spell, if they spell one.
pub(crate) fn read_command<'a>(words: &'a [String]) -> Option<Command<'a>>
    ensures asked { option_map as_asked result ≡ command_of (map string_bytes words.now) }
    ensures can { IfSome result CanPerform }
{
    match words {
        [first, file] => read_short(first.as_str(), file.as_str()),
        [first, settings, netlist] if first.as_str() == "guard" => Some(Command::Guard {
            settings: settings.as_str(),
            netlist: netlist.as_str(),
        }),
        [first, netlist, stimulus, script] if first.as_str() == "sim" => Some(Command::Sim {
            netlist: netlist.as_str(),
            stimulus: stimulus.as_str(),
            script: script.as_str(),
        }),
        [first, settings, netlist, stimulus, cycle] if first.as_str() == "campaign" =>
            read_campaign(
                settings.as_str(),
                netlist.as_str(),
                stimulus.as_str(),
                cycle.as_str(),
            ),
        _ => None,
    }
}

// A command of one file, or of a size.
fn read_short<'a>(first: &str, word: &'a str) -> Option<Command<'a>>
    ensures asked { option_map as_asked result ≡ command_of (first.now ∷ word.now ∷ []) }
    ensures can { IfSome result CanPerform }
{
    match first {
        "flat" => Some(Command::Flat { netlist: word }),
        "code" => Some(Command::Code { settings: word }),
        "audit" => Some(Command::Audit { netlist: word }),
        "demo" => {
            let size = read_size(word)?;
            Some(Command::Demo { size })
        }
        _ => None,
    }
}

// A campaign, where the last word is a cycle.
fn read_campaign<'a>(
    settings: &'a str,
    netlist: &'a str,
    stimulus: &'a str,
    cycle: &str,
) -> Option<Command<'a>>
    ensures asked { option_map as_asked result ≡ option_map (λ c. campaign_command settings.now netlist.now stimulus.now c) (cycle_of cycle.now) }
    ensures can { IfSome result CanPerform }
{
    let cycle = decimal(cycle.as_bytes(), LAST_CYCLE)?;
    Some(Command::Campaign {
        settings,
        netlist,
        stimulus,
        cycle,
    })
}

// The size of a demo, in 1 or 2 digits.
fn read_size(word: &str) -> Option<u32>
    ensures value { result ≡ demo_size_of word.now }
    ensures size { IfSome result IsDemoSize }
{
    if word.len() > MOST_SIZE_DIGITS {
        return None;
    }
    match decimal(word.as_bytes(), LARGEST_SIZE) {
        Some(0) => None,
        size => size,
    }
}
