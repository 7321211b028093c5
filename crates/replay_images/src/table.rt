// The questions and the kinds of answers of this table. README.md has the layout.
#[derive(Clone, Copy)]
pub enum Question {
    Opening = 1,
    DatabaseType = 2,
    Language = 3,
    Description = 4,
    Age = 5,
    Lookup = 6,
}

impl TryFrom<u8> for Question {
    type Error = ();

    fn try_from(number: u8) -> Result<Question, ()> {
        match number {
            1 => Ok(Question::Opening),
            2 => Ok(Question::DatabaseType),
            3 => Ok(Question::Language),
            4 => Ok(Question::Description),
            5 => Ok(Question::Age),
            6 => Ok(Question::Lookup),
            _ => Err(()),
        }
    }
}

// Kinds of answers, but for a refusal. They leave the numbers of the refusals free, by which refused answers are counted.
#[derive(Clone, Copy)]
pub enum Kind {
    Opened = 12,
    Text = 13,
    Absent = 14,
    Seconds = 15,
    Data = 16,
    NoData = 17,
}

impl From<Question> for u8 {
    fn from(question: Question) -> u8 {
        question as u8
    }
}

impl From<Kind> for u8 {
    fn from(kind: Kind) -> u8 {
        kind as u8
    }
}
