// The questions and the kinds of answers of this table. README.md has the layout. All are asked alike, and counted apart.
#[derive(Clone, Copy)]
pub enum Question {
    Whole = 1,
    Ipv4 = 2,
    Ipv6 = 3,
}

// Kinds of answers, but for a refused start. They leave the numbers of the refusals free, by which that is counted.
#[derive(Clone, Copy)]
pub enum Kind {
    Lines = 17,
    Sums = 18,
}

impl TryFrom<u8> for Kind {
    type Error = ();

    fn try_from(number: u8) -> Result<Kind, ()> {
        match number {
            17 => Ok(Kind::Lines),
            18 => Ok(Kind::Sums),
            _ => Err(()),
        }
    }
}

impl From<Question> for u8 {
    fn from(question: Question) -> u8 {
        question as u8
    }
}

impl From<Kind> for u8 {
    fn from(kind: Kind) -> u8 {
        kind as u8
    }
}
