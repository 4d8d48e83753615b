//! What calls give, as rows write it.
use aml_path::Path;
use test_rows::Exchange;
use test_words::say_path;

/// Answers a path behind a word.
pub fn say_path_of(asked: &mut Exchange, word: &str, path: &Path) {
    asked.say(word);
    say_path(asked, path);
}

/// Answers the bytes of a table, if there is one.
pub fn say_table(asked: &mut Exchange, table: Option<&[u8]>) {
    match table {
        Some(bytes) => asked.say_bytes(bytes),
        None => asked.say("none"),
    }
}
