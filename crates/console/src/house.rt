// House codes as a person writes them in one argument.
ghost use Rattle.std.specs.Prelude.{◌≡◌, IfOk, vec_items};
ghost use Rattle.std.specs.Option.{option_map};
ghost use Rattle.std.specs.Str.{chars};
ghost use Rattle.console.specs.HouseWords.{code_named, codes_written};

use std::alloc::{AllocError, Global};

// The code that a word names.
fn code_named(word: &str) -> Option<u32>
    ensures { result ≡ code_named (chars word.now) }
{
    if let Ok(character) = word.parse::<char>() {
        return Some(u32::from(character));
    }
    let digits = word.strip_prefix("U+")?;
    // `from_str_radix` alone would take a plus before the digits.
    if digits.starts_with('+') {
        return None;
    }
    u32::from_str_radix(digits, 16).ok()
}

// The codes that a text writes; none where a word of it names no code. (`?` passes want of memory on, and leaves this
// answer as it is; an error enum of the two would ask for a definition of what each says.)
pub fn house_codes(heap: Global, text: &str) -> Result<Option<Vec<u32>>, AllocError>
    ensures { IfOk result (λ o. option_map vec_items o ≡ codes_written (chars text.now)) }
{
    let mut codes = Vec::new(heap);
    for word in text.split(' ') {
        // Between two blanks there is no word.
        if word.is_empty() {
            continue;
        }
        let Some(code) = code_named(word) else {
            return Ok(None);
        };
        codes.push(code)?;
    }
    Ok(Some(codes))
}
