//! Names in text, and what they stand for by a table.

/// What a name stands for, if the table has it.
pub fn named<T: Copy>(table: &[(&str, T)], name: &str) -> Option<T> {
    for (known, meaning) in table {
        if *known == name {
            return Some(*meaning);
        }
    }
    None
}

/// The words before a separator and those behind it; where it doesn't stand there, none and all.
pub fn split<'a>(words: &'a [&'a str], separator: &str) -> (&'a [&'a str], &'a [&'a str]) {
    for i in 0..words.len() {
        if words[i] == separator {
            let (before, behind) = words.split_at(i);
            return (before, behind.get(1..).unwrap_or(&[]));
        }
    }
    (&[], words)
}
