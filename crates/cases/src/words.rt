// The words of a line, and the bytes that they stand for.
ghost use Rattle.std.specs.Prelude.{◌≡◌, ◌≤◌, ◌<◌, ◌++◌, ◌∷◌, length, IfSome, MatchOption};

use crate::kept::Kept;

// The arguments of a line: the bytes of the image, those of the reading, and how long the output is.
#[derive(Clone, Copy)]
pub struct Words<'a> {
    pub image: &'a [u8],
    pub reading: Option<&'a [u8]>,
    pub out: Option<usize>,
}

// Reads what follows the letters of a call; none where it is malformed.
pub fn read<'a>(
    text: &[u8],
    kept: &Kept,
    image: &'a mut [u8],
    reading: &'a mut [u8],
) -> Option<Words<'a>> {
    let (arguments, length) = cut(text, b'>');
    let (image_words, reading_words) = cut(arguments, b'/');
    Some(Words {
        image: bytes(image_words, kept, image)?,
        reading: match reading_words {
            Some(words) => Some(bytes(words, kept, reading)?),
            None => None,
        },
        out: match length {
            Some(word) => Some(decimal(word.strip_prefix(b" ")?)?),
            None => None,
        },
    })
}

// What stands before the first such byte, and what stands after it, if there is one.
pub fn cut(text: &[u8], byte: u8) -> (&[u8], Option<&[u8]>)
    ensures { MatchOption result.1 (result.0.now ≡ text.now) (λ after. text.now ≡ result.0.now ++ byte ∷ after.now) }
{
    match text.iter().position(|&found| found == byte) {
        Some(at) => (&text[..at], Some(&text[at + 1..])),
        None => (text, None),
    }
}

// Puts the bytes of an argument at the start of `dest`, and gives them; none where a word is malformed or there is no room.
fn bytes<'a>(text: &[u8], kept: &Kept, dest: &'a mut [u8]) -> Option<&'a [u8]> {
    let mut count = 0;
    for word in text.split(|&byte| byte == b' ') {
        count += put(word, kept, &mut dest[count..])?;
    }
    Some(&dest[..count])
}

// Puts the bytes of one word at the start of `dest`, and gives how many they are.
fn put(word: &[u8], kept: &Kept, dest: &mut [u8]) -> Option<usize>
    ensures { IfSome result (λ count. count ≤ length dest.old) }
{
    match word {
        [] => Some(0),
        b"p" => copy(kept.program.bytes(), dest),
        b"x" => copy(kept.extension.bytes(), dest),
        [high, low] => repeat(byte(*high, *low)?, 1, dest),
        [high, low, b'*', times @ ..] => repeat(byte(*high, *low)?, decimal(times)?, dest),
        _ => None,
    }
}

// Puts bytes at the start of `dest`, and gives how many they are.
pub fn copy(bytes: &[u8], dest: &mut [u8]) -> Option<usize>
    ensures { IfSome result (λ count. count ≤ length dest.old) }
{
    dest.get_mut(..bytes.len())?.copy_from_slice(bytes);
    Some(bytes.len())
}

// Puts a byte so many times at the start of `dest`, and gives how often.
fn repeat(byte: u8, times: usize, dest: &mut [u8]) -> Option<usize>
    ensures { IfSome result (λ count. count ≤ length dest.old) }
{
    dest.get_mut(..times)?.fill(byte);
    Some(times)
}

// The byte of two digits in hex.
fn byte(high: u8, low: u8) -> Option<u8> {
    Some(digit(high)? * 16 + digit(low)?)
}

// The value of a digit in hex, small letters alone.
fn digit(character: u8) -> Option<u8>
    ensures { IfSome result (λ value. value < 16) }
{
    match character {
        b'0'..=b'9' => Some(character - b'0'),
        b'a'..=b'f' => Some(character - b'a' + 10),
        _ => None,
    }
}

// The number that a word is.
fn decimal(word: &[u8]) -> Option<usize> {
    if word.is_empty() {
        return None;
    }
    word.iter().try_fold(0usize, |value, &character| {
        let digit = char::from(character).to_digit(10)?;
        value.checked_mul(10)?.checked_add(digit as usize)
    })
}
