// The causes of each layer. A lower layer's cause is carried whole.

#[derive(Clone, Copy, PartialEq, Eq, Debug)]
pub enum WordCause {
    // a byte that begins no token
    NoToken,
    // a word over 16 bytes
    LongWord,
}

#[derive(Clone, Copy, PartialEq, Eq, Debug)]
pub enum ReadingCause {
    Words(WordCause),
    // a token that does not fit
    Misfit,
    // the text ends with an operand due or a `(` open
    Unfinished,
    // a name that is not declared
    Undeclared,
    // the 33rd token that is no parenthesis
    ManyTokens,
}

#[derive(Clone, Copy, PartialEq, Eq, Debug)]
pub enum PlantCause {
    // too many state rows, edge rows or promises
    Large,
    // a zero mark, or a promise that does not exist
    BadState,
    // an edge to or from no state
    BadEdge,
}

#[derive(Clone, Copy, PartialEq, Eq, Debug)]
pub enum SearchCause {
    // the machine to be searched is unfit
    Unfit,
    // the work area is too short
    ShortWork,
    // the sheet or the walk area is too short
    ShortSheet,
}

#[derive(Clone, Copy, PartialEq, Eq, Debug)]
pub enum BookCause {
    Reading(ReadingCause),
    Search(SearchCause),
    // a slot above 7
    NoSlot,
    // a take where a rule stands
    Occupied,
    // a drop where no rule stands
    Vacant,
    // a text over 512 bytes
    LongText,
    // the basics would pass 12
    ManyBasics,
    // a name that is reserved, or is not one word of 1 to 16 bytes
    NoName,
    // a name that is declared already
    Declared,
    // sixteen signals are declared
    ManySignals,
    // a step above 31
    FarStep,
    // a signal that is not declared
    NoSignal,
    // want of memory
    NoMemory,
}

#[derive(Clone, Copy, PartialEq, Eq, Debug)]
pub enum ConsoleCause {
    Book(BookCause),
    // a line of no known form
    NoForm,
}
