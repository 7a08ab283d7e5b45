// The words of a line, and the numbers in them.
use std::alloc::{AllocError, Global};
use std::num::ParseIntError;
use std::str::FromStr;

// Whether the words of a line end before this one: it is `=>`, behind which the line that it prints may stand, or begins a comment.
fn ends_words(word: &str) -> bool {
    word == "=>" || word.starts_with("#")
}

// Whether a line has no words.
pub fn is_blank(line: &str) -> bool {
    line.split_whitespace().next().is_none_or(ends_words)
}

// The words of a line.
pub fn words_of<'a>(heap: Global, line: &'a str) -> Result<Vec<&'a str>, AllocError> {
    line.split_whitespace()
        .take_while(|word| !ends_words(word))
        .collect(heap)
}

// A number, or `-` for none.
pub fn number_or_none(word: &str) -> Result<Option<u16>, ParseIntError> {
    match word {
        "-" => Ok(None),
        _ => word.parse().map(Some),
    }
}

// A number.
pub fn number<T: FromStr>(word: &str) -> Option<T>
where
    T::Err: Drop,
{
    word.parse().ok()
}

// What a word says of a figure, which is written as `W=1`.
pub fn figure<T: FromStr>(word: &str, name: &str) -> Option<T>
where
    T::Err: Drop,
{
    number(word.strip_prefix(name)?)
}
