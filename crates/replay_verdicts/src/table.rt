// The questions and the kinds of answers of this table. README.md has the layout. All are asked alike, and counted apart.
#[derive(Clone, Copy)]
pub enum Question {
    Metadata = 1,
    Tree = 2,
    Data = 3,
    Random = 4,
}

#[derive(Clone, Copy)]
pub enum Kind {
    Refused = 0,
    Accepted = 1,
}

impl From<Question> for u8 {
    fn from(question: Question) -> u8 {
        question as u8
    }
}

impl From<Kind> for u8 {
    fn from(kind: Kind) -> u8 {
        kind as u8
    }
}
