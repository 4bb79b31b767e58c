use std::alloc::Allocator;

/// Why the words of a call ask for no work.
#[derive(Clone, Copy, PartialEq)]
pub enum CallFault {
    /// A growth was refused.
    Memory,
    /// They ask for help or for the version.
    Help,
    /// They are no words of a call.
    Refused,
    /// The text of a number is no number, or is out of its range; or that of a list or a condition.
    Number,
    /// More turns are to be drawn than a picture has.
    Picture,
    /// The options of `test` are of none of its two forms.
    Forms,
}

/// What words come to that ask for no work, and the text for it: of `Help` the one for standard
/// output, else the one for standard error; as the program prints it, to the last newline.
#[derive(Drop)]
pub struct CallRefusal<A: Allocator> {
    pub fault: CallFault,
    pub text: String<A>,
}
