// How the program is called, for whoever wrote words that it refuses.
use disk_model::Sink;
use snap_config::{CommandName, WordsFault, read_words};
use snap_top::COMMANDS;
use std::alloc::Global;

const ANY: &str =
    "snapraid: usage: snapraid sync|scrub|check|fix|list|status|dup|exercise [OPTION].., see 'man snapraid'\n";

/// Prints how the command among the words is called, or which commands there are, where the words are refused.
pub fn print_synopsis<W: Sink>(alloc: Global, words: &[String], err: &mut W) {
    let is_refused = match read_words(alloc, words) {
        Ok(_) | Err(WordsFault::Memory) => false,
        Err(_) => true,
    };
    if is_refused {
        let _ = err.write(synopsis(command_among(words)).as_bytes());
    }
}

// The first of the words that asks for a command.
fn command_among(words: &[String]) -> Option<CommandName> {
    for word in words {
        for command in COMMANDS {
            if command.as_str() == word.as_str() {
                return Some(command);
            }
        }
    }
    None
}

// By the table of options in `snap_config`.
fn synopsis(command: Option<CommandName>) -> &'static str {
    match command {
        Some(CommandName::Sync) => {
            "snapraid: usage: snapraid sync [-EZ] [-c FILE] [-l FILE] [--readers NUMBER] [--save-every STRIPES]\n"
        }
        Some(CommandName::Scrub) => {
            "snapraid: usage: snapraid scrub [-c FILE] [-l FILE] [-o DAYS] [-p PLAN] [--readers NUMBER]\n"
        }
        Some(CommandName::Check) => {
            "snapraid: usage: snapraid check [-aem] [-c FILE] [-d NAME].. [-f PATTERN].. [-l FILE] [--readers NUMBER]\n"
        }
        Some(CommandName::Fix) => {
            "snapraid: usage: snapraid fix [-em] [-c FILE] [-d NAME].. [-f PATTERN].. [-l FILE] [--readers NUMBER]\n"
        }
        Some(CommandName::List) => "snapraid: usage: snapraid list [-c FILE] [-l FILE]\n",
        Some(CommandName::Exercise) =>
            "snapraid: usage: snapraid exercise NUMBER [-c FILE] [-l FILE]\n",
        Some(CommandName::Status) => "snapraid: usage: snapraid status [-c FILE] [-l FILE]\n",
        Some(CommandName::Dup) => "snapraid: usage: snapraid dup [-c FILE] [-l FILE]\n",
        None => ANY,
    }
}
