// The questions and the kinds of answers of this table. README.md has the layout.
#[derive(Clone, Copy)]
pub enum Question {
    Reading = 1,
    Skipping = 2,
    EmptyCheck = 3,
}

impl TryFrom<u8> for Question {
    type Error = ();

    fn try_from(number: u8) -> Result<Question, ()> {
        match number {
            1 => Ok(Question::Reading),
            2 => Ok(Question::Skipping),
            3 => Ok(Question::EmptyCheck),
            _ => Err(()),
        }
    }
}

// Kinds of answers: the type numbers of values, and those that no value has.
#[derive(Clone, Copy)]
pub enum Kind {
    Refused = 0,
    Absent = 1,
    Text = 2,
    Double = 3,
    Bytes = 4,
    U16 = 5,
    U32 = 6,
    Map = 7,
    I32 = 8,
    U64 = 9,
    U128 = 10,
    Array = 11,
    Boolean = 14,
    Float = 15,
    Past = 16,
    Empty = 17,
    Holds = 18,
}

impl From<Question> for u8 {
    fn from(question: Question) -> u8 {
        question as u8
    }
}

impl From<Kind> for u8 {
    fn from(kind: Kind) -> u8 {
        kind as u8
    }
}
