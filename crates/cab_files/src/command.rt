//! The commands of `cab`, and the words that spell them.
ghost use Rattle.std.specs.Prelude.{◌≡◌, ℕ, List, map, string_bytes, IfSome, IfNone};
ghost use Rattle.std.specs.Vec.Iter.{into_iter_items};
ghost use Rattle.cab_files.specs.Words.{words_of};

use std::env::Args;

/// A command of `cab`. Each field is a path.
#[derive(Debug, Drop)]
pub enum Command {
    /// `cab build TEXT ARCHIVE`
    Build { text: String, archive: String },
    /// `cab run ARCHIVE`
    Run { archive: String },
}

/// Returns the command that words spell, if they spell one. The words do not include the program's name.
pub fn parse(mut words: Args) -> Option<Command>
    ensures spelled { IfSome result (λ command. map string_bytes
        (into_iter_items words) ≡ words_of command) }
    ensures other { IfNone result ((command : Command)
        → map string_bytes (into_iter_items words) ≡ words_of command → ⊥) }
{
    let verb = words.next()?;
    let first = words.next()?;
    let second = words.next();
    let third = words.next();
    match (verb.as_str(), second, third) {
        ("build", Some(archive), None) => Some(Command::Build {
            text: first,
            archive,
        }),
        ("run", None, None) => Some(Command::Run { archive: first }),
        _ => None,
    }
}
