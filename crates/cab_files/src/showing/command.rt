//! The words of `cab_show`.
ghost use Rattle.std.specs.Prelude.{◌≡◌, ℕ, ◌^◌, ◌<◌, [], ◌∷◌, codes, map, string_bytes, IfSome, IfNone, MatchOption};
ghost use Rattle.std.specs.Fmt.{decimal};
ghost use Rattle.std.specs.Vec.Iter.{into_iter_items};
ghost use Rattle.cab_files.specs.ShowWords.{IsShowCommand, show_words_of};
ghost use Rattle.cab_files.specs.declared.showing.command.ShowCommand.{ShowCommand};

use cabinet_text_bytes::read_count;
use std::env::Args;

/// A command of `cab_show`.
#[derive(Debug, Drop)]
pub enum ShowCommand {
    /// `cab_show ARCHIVE`
    Text {
        archive: String,
    },
    /// `cab_show --map [--lines N] [--path N] ARCHIVE`
    Map {
        lines: Option<u64>,
        characters: Option<u64>,
        archive: String,
    },
}

/// Returns the number of lines that two words spell, if they do.
fn read_lines(word: &str, number: &str) -> Option<u64>
    ensures { MatchOption result
        ((n : ℕ) → n < 2 ^ 64 → word.now ≡ codes "--lines" → number.now ≡ decimal n → ⊥)
        (λ n. (word.now ≡ codes "--lines") × (number.now ≡ decimal n)) }
{
    match word {
        "--lines" => read_count(number.as_bytes()),
        _ => None,
    }
}

/// Returns the number of characters of paths that two words spell, if they do.
fn read_characters(word: &str, number: &str) -> Option<u64>
    ensures { MatchOption result
        ((n : ℕ) → n < 2 ^ 64 → word.now ≡ codes "--path" → number.now ≡ decimal n → ⊥)
        (λ n. (word.now ≡ codes "--path") × (number.now ≡ decimal n)) }
{
    match word {
        "--path" => read_count(number.as_bytes()),
        _ => None,
    }
}

/// Returns the command of a map with one number, if the two words before the archive spell one.
fn with_one(word: &str, number: &str, archive: String) -> Option<ShowCommand>
    ensures spelled { IfSome result (λ command. show_words_of command ≡ codes "--map" ∷ word.now ∷ number.now ∷ string_bytes archive ∷ []) }
    ensures other { IfNone result ((command : ShowCommand) → IsShowCommand command
        → show_words_of command ≡ codes "--map" ∷ word.now ∷ number.now ∷ string_bytes archive ∷ [] → ⊥) }
{
    if let Some(lines) = read_lines(word, number) {
        return Some(ShowCommand::Map {
            lines: Some(lines),
            characters: None,
            archive,
        });
    }
    match read_characters(word, number) {
        Some(characters) => Some(ShowCommand::Map {
            lines: None,
            characters: Some(characters),
            archive,
        }),
        None => None,
    }
}

/// Returns the command of a map whose words after `--map` are these, if they spell one.
fn map_command(second: String, mut words: Args) -> Option<ShowCommand>
    ensures spelled { IfSome result (λ command. codes "--map" ∷ string_bytes second ∷ map string_bytes (into_iter_items words) ≡ show_words_of command) }
    ensures other { IfNone result ((command : ShowCommand) → IsShowCommand command
        → codes "--map" ∷ string_bytes second ∷ map string_bytes (into_iter_items words) ≡ show_words_of command → ⊥) }
{
    let Some(third) = words.next() else {
        return Some(ShowCommand::Map {
            lines: None,
            characters: None,
            archive: second,
        });
    };
    let fourth = words.next()?;
    let Some(fifth) = words.next() else {
        return with_one(second.as_str(), third.as_str(), fourth);
    };
    let archive = words.next()?;
    if words.next().is_some() {
        return None;
    }
    let lines = read_lines(second.as_str(), third.as_str())?;
    let characters = read_characters(fourth.as_str(), fifth.as_str())?;
    Some(ShowCommand::Map {
        lines: Some(lines),
        characters: Some(characters),
        archive,
    })
}

/// Returns the command that words spell, if they spell one. The words do not include the program's name.
pub fn parse_show(mut words: Args) -> Option<ShowCommand>
    ensures spelled { IfSome result (λ command. map string_bytes (into_iter_items words) ≡ show_words_of command) }
    ensures other { IfNone result ((command : ShowCommand) → IsShowCommand command
        → map string_bytes (into_iter_items words) ≡ show_words_of command → ⊥) }
{
    let first = words.next()?;
    let Some(second) = words.next() else {
        return Some(ShowCommand::Text { archive: first });
    };
    match first.as_str() {
        "--map" => map_command(second, words),
        _ => None,
    }
}
