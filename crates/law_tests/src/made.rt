// Texts that are made.
use std::alloc::{AllocError, Global};

// Parts of a text, of which the second and the fourth stand there many times.
pub type Parts = [&'static [u8]; 5];

// The text of these parts.
pub fn made(alloc: Global, parts: &Parts, times: usize) -> Result<Vec<u8>, AllocError> {
    let mut text = Vec::new(alloc);
    for (i, part) in parts.iter().enumerate() {
        let count = if i % 2 == 0 { 1 } else { times };
        for _ in 0..count {
            text.extend_from_slice(part)?;
        }
    }
    Ok(text)
}

// A prefix, what stands before and after each number from 0 on, and an end.
pub type Numbered = [&'static str; 4];

// The text of these parts with so many numbers.
pub fn numbered(alloc: Global, parts: &Numbered, numbers: u32) -> Result<String, AllocError> {
    let [prefix, before, after, end] = *parts;
    let mut text = String::from_str(alloc, prefix)?;
    for number in 0..numbers {
        text.push_str(format!(in alloc; "{before}{number}{after}")?.as_str())?;
    }
    text.push_str(end)?;
    Ok(text)
}
