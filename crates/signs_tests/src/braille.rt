// Strings of cells, compared with their Braille ASCII.
use cells::ascii;

pub(crate) fn is_string(string: &[u8], characters: &str) -> bool {
    string.len() == characters.len()
        && string.iter().zip(characters.bytes()).all(|(cell, character)| ascii::cell_of(character)
            == Some(*cell))
}
