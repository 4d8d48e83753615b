//! Bytes as rows write them.
use std::alloc::{AllocError, Global};

/// The value of a hexadecimal digit, if it is one.
fn digit(character: u8) -> Option<u8> {
    match character {
        b'0'..=b'9' => Some(character - b'0'),
        b'A'..=b'F' => Some(character - b'A' + 10),
        b'a'..=b'f' => Some(character - b'a' + 10),
        _ => None,
    }
}

/// The bytes that a row writes: two hexadecimal digits a byte, and text between quotation marks, as in `5B80 "REG0"
/// 01`. Anything else between them is passed over.
pub fn bytes_of(alloc: Global, text: &str) -> Result<Vec<u8>, AllocError> {
    let mut bytes = Vec::new(alloc);
    let mut high: Option<u8> = None;
    let mut is_text = false;
    for character in text.bytes() {
        if character == b'"' {
            is_text = !is_text;
        } else if is_text {
            bytes.push(character)?;
        } else if let Some(value) = digit(character) {
            high = match high {
                Some(first) => {
                    bytes.push(first % 16 * 16 + value % 16)?;
                    None
                }
                None => Some(value),
            };
        }
    }
    Ok(bytes)
}

/// Bytes as hexadecimal digits, and `-` where there are none.
pub fn hexadecimal(alloc: Global, bytes: &[u8]) -> Result<String, AllocError> {
    let mut text = String::new(alloc);
    if bytes.is_empty() {
        text.push_str("-")?;
    }
    for byte in bytes {
        let digits = format!(in alloc; "{byte:02X}")?;
        text.push_str(digits.as_str())?;
    }
    Ok(text)
}

/// Bytes with their readable characters between quotation marks, and the others in hexadecimal digits; `-` where
/// there are none.
pub fn quoted(alloc: Global, bytes: &[u8]) -> Result<String, AllocError> {
    let mut text = String::from_str(alloc, if bytes.is_empty() { "-" } else { "" })?;
    let mut is_text = false;
    for byte in bytes {
        let is_readable = (0x20..0x7F).contains(byte);
        if is_readable != is_text {
            text.push_str(if is_text { "\" " } else { "\"" })?;
        }
        is_text = is_readable;
        if is_readable {
            text.push(char::from(*byte))?;
        } else {
            write!(text, "{byte:02X}")?;
        }
    }
    text.push_str(if is_text { "\"" } else { "" })?;
    Ok(text)
}
