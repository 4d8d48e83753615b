//! Paths.
use crate::refusals::refuse;
use aml_path::Path;
use ar_space::Result;
use test_rows::Exchange;

/// What a path that was read comes to: the root where it is none.
pub fn path_or_root(asked: &mut Exchange, read: Result<Path>) -> Path {
    match read {
        Ok(path) => path,
        Err(refusal) => {
            refuse(asked, refusal);
            Path::root(asked.alloc())
        }
    }
}

/// The path that a text is.
pub fn path_of(asked: &mut Exchange, text: &str) -> Path {
    let read = Path::from_text(asked.alloc(), text.as_bytes());
    path_or_root(asked, read)
}

/// Reads the next word as a path.
pub fn path(asked: &mut Exchange) -> Path {
    let text = asked.word();
    path_of(asked, text)
}

/// Answers a path right behind what was answered.
pub fn push_path(asked: &mut Exchange, path: &Path) {
    match path.text(asked.alloc()) {
        Ok(text) => asked.push(text.as_str()),
        Err(refusal) => refuse(asked, refusal),
    }
}

/// Answers a path, with a blank before it where something else was answered.
pub fn say_path(asked: &mut Exchange, path: &Path) {
    asked.separate(" ");
    push_path(asked, path);
}
