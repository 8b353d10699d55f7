//! What is said on standard error where the program cannot do its work.

use sat_run::read_words;
use sat_run::status::{FAULTY_WORDS, NO_WORDS, OUT_OF_MEMORY, READ_FAILED, WRITE_FAILED};
use std::fmt;

/// What the program could not do, as it is said on standard error.
#[derive(Clone, Copy, Debug)]
pub enum Complaint<'a> {
    /// A word is not taken.
    Word(&'a str),
    /// A read failed.
    Read,
    /// A write failed.
    Write,
    /// Memory ran out.
    Memory,
    /// The words cannot be had.
    NoWords,
}

impl<'a> Complaint<'a> {
    /// What is to be said of this status and these words. None where all went well, and where the
    /// text is refused, which is said on standard output.
    pub fn of(status: u8, words: &[&'a str]) -> Option<Complaint<'a>> {
        match status {
            FAULTY_WORDS => Some(Complaint::Word(words[read_words(words).err()?])),
            READ_FAILED => Some(Complaint::Read),
            WRITE_FAILED => Some(Complaint::Write),
            OUT_OF_MEMORY => Some(Complaint::Memory),
            NO_WORDS => Some(Complaint::NoWords),
            _ => None,
        }
    }
}

impl fmt::Display for Complaint<'_> {
    fn fmt<W: fmt::Write>(&self, f: &mut fmt::Formatter<W>) -> fmt::Result {
        match self {
            Complaint::Word(word) => write!(f, "not taken: {word:?}"),
            Complaint::Read => write!(f, "torimbava: a read of standard input failed"),
            Complaint::Write => write!(f, "torimbava: a write to standard output failed"),
            Complaint::Memory => write!(f, "torimbava: memory ran out"),
            Complaint::NoWords => write!(f, "torimbava: the words cannot be had"),
        }
    }
}

#[cfg(test)]
mod tests {
    use super::*;
    use std::test::Fail;

    #[test]
    fn each_failure_is_told_in_a_line(rt: HostRuntime) -> Result<(), Fail> {
        let rows: [(u8, &[&str], &str); 8] = [
            (1, &["--help"], "not taken: \"--help\""),
            (1, &["--threads", "1", "a b"], "not taken: \"a b\""),
            (1, &["--maxconfl"], "not taken: \"--maxconfl\""),
            (3, &[], "torimbava: a read of standard input failed"),
            (4, &[], "torimbava: a write to standard output failed"),
            (5, &[], "torimbava: memory ran out"),
            (6, &[], "torimbava: the words cannot be had"),
            (2, &[], "nothing"),
        ];
        for (status, words, line) in rows {
            let said = match Complaint::of(status, words) {
                Some(complaint) => format!(in rt.alloc(); "{complaint}")?,
                None => format!(in rt.alloc(); "nothing")?,
            };
            assert_eq!(rt; said.as_str(), line);
        }
        Ok(())
    }
}
