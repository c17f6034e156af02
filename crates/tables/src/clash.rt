// Why house codes may not be laid over a table.
use thiserror::Error;

#[derive(Clone, Copy, PartialEq, Eq, Debug, Error)]
pub enum Clash {
    #[error("the code is no Unicode scalar value")]
    NoScalar,
    // a letter, a digit, the blank, the comma or the period
    #[error("the code is a fixed sign")]
    Fixed,
    #[error("the table below has the code")]
    ListedBelow,
    #[error("the code stands twice in the list")]
    StandsTwice,
    #[error("its string begins one of the table below, or one of those begins it")]
    StringTaken,
}

#[derive(Clone, Copy, PartialEq, Eq, Debug, Error)]
pub enum HouseRefusal {
    #[error("refusal 19: there are more than 5 house codes")]
    TooMany,
    // the code at this position clashes, and none before it does
    #[error("refusal 20 at position {0}: {1}")]
    ClashAt(usize, Clash),
}
