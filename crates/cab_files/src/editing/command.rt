//! The words of `cab_edit`.
ghost use Rattle.std.specs.Prelude.{◌≡◌, List, map, string_bytes, IfSome, IfNone, MatchOption};
ghost use Rattle.std.specs.Vec.Iter.{into_iter_items};
ghost use Rattle.cab_files.specs.EditWords.{word_of, edit_words_of};
ghost use Rattle.cab_files.specs.declared.editing.command.EditCommand.{EditCommand};
ghost use Rattle.cab_files.specs.declared.editing.command.NewRoot.{NewRoot};

use std::env::Args;

/// The root of a new document, which has nothing in it.
#[derive(Clone, Copy, Debug, PartialEq, Eq)]
pub enum NewRoot {
    /// A list of no elements.
    List,
    /// An ordered map of no keys.
    Ordered,
    /// A hashed map of no keys.
    Hashed,
    /// A kept map of no keys.
    Kept,
    /// An option without a node.
    Nothing,
}

/// A command of `cab_edit`.
#[derive(Debug, Drop)]
pub enum EditCommand {
    /// `cab_edit ARCHIVE`
    Edit { archive: String },
    /// `cab_edit --new KIND ARCHIVE`
    New { root: NewRoot, archive: String },
}

/// Returns the root that a word spells, if it spells one.
fn root_of(word: &str) -> Option<NewRoot>
    ensures { MatchOption result
        ((root : NewRoot) → word.now ≡ word_of root → ⊥)
        (λ root. word.now ≡ word_of root) }
{
    match word {
        "list" => Some(NewRoot::List),
        "ordered" => Some(NewRoot::Ordered),
        "hashed" => Some(NewRoot::Hashed),
        "kept" => Some(NewRoot::Kept),
        "none" => Some(NewRoot::Nothing),
        _ => None,
    }
}

/// Returns the command that words spell, if they spell one. The words do not include the program's name.
pub fn parse_edit(mut words: Args) -> Option<EditCommand>
    ensures spelled { IfSome result (λ command. map string_bytes (into_iter_items words) ≡ edit_words_of command) }
    ensures other { IfNone result ((command : EditCommand)
        → map string_bytes (into_iter_items words) ≡ edit_words_of command → ⊥) }
{
    let first = words.next()?;
    let Some(second) = words.next() else {
        return Some(EditCommand::Edit { archive: first });
    };
    let archive = words.next()?;
    if words.next().is_some() {
        return None;
    }
    match first.as_str() {
        "--new" => {
            let root = root_of(second.as_str())?;
            Some(EditCommand::New { root, archive })
        }
        _ => None,
    }
}
