//! What the words of a script stand for.

/// What the word stands for, by the rows of a table.
pub fn meaning<T: Copy>(rows: &[(&'static [u8], T)], word: &[u8]) -> Option<T> {
    for (own, meaning) in rows {
        if *own == word {
            return Some(*meaning);
        }
    }
    None
}
