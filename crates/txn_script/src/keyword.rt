//! The words that lines begin with.

ghost use Rattle.std.specs.Prelude.{◌≡◌, ◌++◌, ◌∷◌, MatchOption};
ghost use Rattle.txn_script.specs.Line.{keyword_text};
ghost use Rattle.txn_script.specs.Ahead.{HasNoKeyword, HasNoKeywordOf};
ghost use Rattle.txn_script.specs.LineReading.{keyword_of, mark_of};

/// The version of a text.
#[derive(Clone, Copy, PartialEq, Eq, Debug)]
pub enum Version {
    /// Tables have one column.
    One,
    /// Tables have one to six columns, and may have an index.
    Two,
}

/// A line of one word.
#[derive(Clone, Copy, PartialEq, Eq, Debug)]
pub enum Mark {
    Lane,
    Txn,
    Snap,
    End,
    Done,
}

/// The first word of a line that names a table.
#[derive(Clone, Copy, PartialEq, Eq, Debug)]
pub enum Keyword {
    Table,
    Index,
    Row,
    Get,
    Put,
    Ins,
    Del,
    Add,
    Sub,
    Scan,
    Find,
}

impl Mark {
    /// The line that a word is, if it stands alone.
    pub fn read(word: &[u8]) -> Option<Mark>
        ensures { result ≡ mark_of word.now }
    {
        if word == b"lane".as_slice() {
            Some(Mark::Lane)
        } else if word == b"txn".as_slice() {
            Some(Mark::Txn)
        } else if word == b"snap".as_slice() {
            Some(Mark::Snap)
        } else if word == b"end".as_slice() {
            Some(Mark::End)
        } else if word == b"done".as_slice() {
            Some(Mark::Done)
        } else {
            None
        }
    }
}

impl Keyword {
    /// The keyword that a text begins with, and what stands behind it and a space.
    pub fn before(text: &[u8]) -> Option<(Keyword, &[u8])>
        ensures { MatchOption result (HasNoKeyword text.now) (λ read. text.now ≡ keyword_text read.0 ++ 32 ∷ read.1.now) }
    {
        if let Some(read) = Keyword::of_length(text, 3) {
            return Some(read);
        }
        if let Some(read) = Keyword::of_length(text, 4) {
            return Some(read);
        }
        Keyword::of_length(text, 5)
    }

    /// The same, where the keyword has so many letters.
    fn of_length(text: &[u8], length: usize) -> Option<(Keyword, &[u8])>
        ensures { MatchOption result (HasNoKeywordOf length text.now) (λ read. text.now ≡ keyword_text read.0 ++ 32 ∷ read.1.now) }
    {
        if text.len() <= length {
            return None;
        }
        if text[length] != b' ' {
            return None;
        }
        let keyword = Keyword::read(&text[..length])?;
        Some((keyword, &text[length + 1..]))
    }

    /// The keyword that a word is.
    fn read(word: &[u8]) -> Option<Keyword>
        ensures { result ≡ keyword_of word.now }
    {
        if word == b"table".as_slice() {
            Some(Keyword::Table)
        } else if word == b"index".as_slice() {
            Some(Keyword::Index)
        } else if word == b"row".as_slice() {
            Some(Keyword::Row)
        } else if word == b"get".as_slice() {
            Some(Keyword::Get)
        } else if word == b"put".as_slice() {
            Some(Keyword::Put)
        } else if word == b"ins".as_slice() {
            Some(Keyword::Ins)
        } else if word == b"del".as_slice() {
            Some(Keyword::Del)
        } else if word == b"add".as_slice() {
            Some(Keyword::Add)
        } else if word == b"sub".as_slice() {
            Some(Keyword::Sub)
        } else if word == b"scan".as_slice() {
            Some(Keyword::Scan)
        } else if word == b"find".as_slice() {
            Some(Keyword::Find)
        } else {
            None
        }
    }
}
