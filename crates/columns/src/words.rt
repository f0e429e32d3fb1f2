// A word in a column: left-justified, with spaces behind it.
ghost use Rattle.std.specs.Prelude.{◌≡◌, ◌<◌, ◌≤◌, length, ◌==◌, MatchResult};
ghost use Rattle.std.specs.List.{list_all};
ghost use Rattle.std.specs.Str.{bytes_eq};
ghost use Rattle.columns.specs.Words.{name_of, word_text};

use crate::no_room::NoRoom;

// The words of pages.
#[derive(Clone, Copy, PartialEq, Eq, Debug)]
pub enum Word {
    Turns,
    Legs,
    Nests,
    Carry,
    Cap,
    Most,
    Least,
    Share,
    End,
}

impl Word {
    // The letters of a word.
    pub fn name(self) -> &'static [u8]
        ensures { result.now ≡ name_of self }
    {
        match self {
            Word::Turns => b"TURNS",
            Word::Legs => b"LEGS",
            Word::Nests => b"NESTS",
            Word::Carry => b"CARRY",
            Word::Cap => b"CAP",
            Word::Most => b"MOST",
            Word::Least => b"LEAST",
            Word::Share => b"SHARE",
            Word::End => b"END",
        }
    }
}

// Whether a column of any width holds the word.
pub fn holds(column: &[u8], word: Word) -> bool
    ensures { result ≡ bytes_eq column.now (word_text (length column.now) word) }
{
    column.strip_prefix(word.name()).is_some_and(blank)
}

// Fills a column of any width with a word; where it has no room, nothing is written.
pub fn put_word(column: &mut [u8], word: Word) -> Result<(), NoRoom>
    ensures { MatchResult result (λ _. (length (name_of word) ≤ length column.old) × (column.new ≡ word_text (length column.old) word)) (λ _. (length column.old < length (name_of word)) × (column.new ≡ column.old)) }
{
    let name = word.name();
    let Some((letters, spaces)) = column.split_at_mut_checked(name.len()) else {
        return Err(NoRoom);
    };
    letters.copy_from_slice(name);
    spaces.fill(b' ');
    Ok(())
}

// Whether there are only spaces.
fn blank(bytes: &[u8]) -> bool
    ensures { result ≡ list_all (λ b. b == 32) bytes.now }
{
    bytes.iter().all(|byte| *byte == b' ')
}
