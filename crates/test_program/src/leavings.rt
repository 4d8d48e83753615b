//! What a run leaves.
use std::alloc::{AllocError, Global};
use test_rows::hexadecimal;

/// What a run leaves, or is to leave.
#[derive(Drop)]
pub struct Leavings {
    pub status: u8,
    pub is_told: bool,
    pub output: Vec<u8>,
    pub errors: Vec<u8>,
    pub unread: Vec<u8>,
}

impl Leavings {
    /// What stands in the report of a row that came to this.
    pub fn text(&self, alloc: Global) -> Result<String, AllocError> {
        let status = self.status;
        let told = if self.is_told { "yes" } else { "no" };
        let output = bytes_text(alloc, self.output.as_slice())?;
        let errors = bytes_text(alloc, self.errors.as_slice())?;
        let unread = self.unread.len();
        format!(in alloc;
            "status {status}, told {told}, {unread} bytes unread, output:\n{output}errors:\n{errors}"
        )
    }
}

/// Bytes as text, or as hexadecimal digits where they are none.
fn bytes_text(alloc: Global, bytes: &[u8]) -> Result<String, AllocError> {
    match str::from_utf8(bytes) {
        Ok(text) => text.to_string(alloc),
        Err(_) => hexadecimal(alloc, bytes),
    }
}
