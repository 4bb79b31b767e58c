/// What a command is for.
#[derive(Clone, Copy)]
pub enum CommandKind {
    Barrel,
    Threads,
    List,
    Lint,
    Dump,
    Steps,
    State,
    Ends,
    Memory,
    Central,
    Sessions,
    Races,
    Orders,
    Test,
    Draw,
    Check,
}
