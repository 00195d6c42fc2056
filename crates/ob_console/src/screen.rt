//! Text on a line that may go to a terminal.
ghost use Rattle.std.specs.Prelude.{◌≡◌, ◌+◌, ◌++◌, ◌<◌, ◌≤◌, OnOk, IfOk, IfSome, drop, length, option_map, slice_index_or};
ghost use Rattle.ob_console.specs.Screen.{obeyed, reference, screened, screened_behind};

use std::alloc::AllocError;

// A character that a terminal obeys: its number, and how many bytes it has.
#[derive(Clone, Copy)]
struct Character {
    number: u32,
    len: usize,
}

// The character of three bytes with the lead byte E2, where a terminal obeys it.
fn obeyed_mark(second: u8, third: u8) -> Option<Character>
    ensures { option_map (λ o. (o.number, o.len)) result ≡ obeyed 226 second third }
{
    let base = match (second, third) {
        (128, 142..=143) | (128, 170..=174) => 8_064,
        (129, 166..=169) => 8_128,
        _ => return None,
    };
    Some(Character {
        number: base + third as u32,
        len: 3,
    })
}

// The character that begins with these bytes, where a terminal obeys it.
fn obeyed(first: u8, second: u8, third: u8) -> Option<Character>
    ensures value { option_map (λ o. (o.number, o.len)) result ≡ obeyed first second third }
    ensures long { IfSome result (λ o. 1 ≤ o.len) }
{
    match first {
        0..=31 | 127 => Some(Character {
            number: first as u32,
            len: 1,
        }),
        194 if (128..=159).contains(&second) => Some(Character {
            number: second as u32,
            len: 2,
        }),
        216 if second == 156 => Some(Character {
            number: 1_564,
            len: 2,
        }),
        226 => obeyed_mark(second, third),
        _ => None,
    }
}

// The byte at a place, and 0 where there is none.
fn byte_at(text: &[u8], place: usize) -> u8
    ensures { result ≡ slice_index_or text.now place 0 }
{
    if place < text.len() { text[place] } else { 0 }
}

// The character at a place, where a terminal obeys it.
fn obeyed_at(text: &[u8], place: usize) -> Option<Character>
    requires { place < length text.now }
    ensures value { option_map (λ o. (o.number, o.len)) result ≡ obeyed (slice_index_or text.now place 0) (slice_index_or text.now (place + 1) 0) (slice_index_or text.now (place + 2) 0) }
    ensures long { IfSome result (λ o. 1 ≤ o.len) }
{
    obeyed(
        text[place],
        byte_at(text, place + 1),
        byte_at(text, place + 2),
    )
}

// Puts a character as XML refers to it.
fn put_reference(number: u32, out: &mut Vec<u8>) -> Result<(), AllocError>
    ensures { OnOk result (out.new.items ≡ out.old.items ++ reference number) }
{
    let alloc = *out.allocator();
    let reference = format!(in alloc; "&#{number};")?;
    out.extend_from_slice(reference.as_bytes())
}

// Puts what stands at a place, of which so many bytes were written already, and gives how many behind it are.
fn put_next(
    text: &[u8],
    place: usize,
    written: usize,
    out: &mut Vec<u8>,
) -> Result<usize, AllocError>
    requires { place < length text.now }
    ensures { IfOk result (λ ahead. out.new.items ++ screened_behind ahead (drop (place + 1) text.now) ≡ out.old.items ++ screened_behind written (drop place text.now)) }
{
    if written > 0 {
        return Ok(written - 1);
    }
    match obeyed_at(text, place) {
        Some(character) => {
            put_reference(character.number, out)?;
            Ok(character.len - 1)
        }
        None => {
            out.push(text[place])?;
            Ok(0)
        }
    }
}

/// Puts a text in UTF-8, each character that a terminal would obey (a control, a mark that turns the direction of text) as the
/// reference by which XML has it, such as `&#155;`: what a peer gives can't move the cursor or turn a line round, and what
/// reads the line as XML reads the same.
pub fn put_screened(text: &[u8], out: &mut Vec<u8>) -> Result<(), AllocError>
    ensures { OnOk result (out.new.items ≡ out.old.items ++ screened text.now) }
{
    let mut written: usize = 0;
    for place in 0..text.len() {
        written = put_next(text, place, written, out)?;
    }
    Ok(())
}
