//! The state machine of a reader of records, as in `csv` by default.
ghost use Rattle.std.specs.Prelude.{◌≡◌};
ghost use Rattle.commands.specs.Machine.{Leads, state_of};
ghost use Rattle.csv.specs.Machine.{ends_at_end, in_field, start_field, start_record, step};
ghost use Rattle.csv.specs.Reading.{default_config};

/// The state within a record.
#[derive(Clone, Copy, PartialEq, Eq)]
pub(crate) enum State {
    StartRecord,
    StartField,
    InField,
    InQuoted,
    AfterQuote,
    /// After a carriage return that ended a record.
    AfterReturn,
}

/// The action of a byte.
#[derive(Clone, Copy, PartialEq, Eq)]
pub(crate) enum Action {
    Skip,
    /// It joins the field.
    Copy,
    EndField,
    EndRecord,
}

fn in_field(byte: u8) -> (State, Action)
    ensures { Leads result.0 result.1 (in_field default_config byte) }
{
    match byte {
        b',' => (State::StartField, Action::EndField),
        b'\r' => (State::AfterReturn, Action::EndRecord),
        b'\n' => (State::StartRecord, Action::EndRecord),
        _ => (State::InField, Action::Copy),
    }
}

fn start_field(byte: u8) -> (State, Action)
    ensures { Leads result.0 result.1 (start_field default_config byte) }
{
    if byte == b'"' {
        return (State::InQuoted, Action::Skip);
    }
    in_field(byte)
}

fn start_record(byte: u8) -> (State, Action)
    ensures { Leads result.0 result.1 (start_record default_config byte) }
{
    if byte == b'\r' || byte == b'\n' {
        return (State::StartRecord, Action::Skip);
    }
    start_field(byte)
}

fn in_quoted(byte: u8) -> (State, Action)
    ensures { Leads result.0 result.1 (step default_config (state_of State.InQuoted) byte) }
{
    if byte == b'"' {
        return (State::AfterQuote, Action::Skip);
    }
    (State::InQuoted, Action::Copy)
}

fn after_quote(byte: u8) -> (State, Action)
    ensures { Leads result.0 result.1 (step default_config (state_of State.AfterQuote) byte) }
{
    if byte == b'"' {
        return (State::InQuoted, Action::Copy);
    }
    in_field(byte)
}

fn after_return(byte: u8) -> (State, Action)
    ensures { Leads result.0 result.1 (step default_config (state_of State.AfterReturn) byte) }
{
    if byte == b'\n' {
        return (State::StartRecord, Action::Skip);
    }
    start_record(byte)
}

/// The state after a byte, and the byte's action.
pub(crate) fn step(state: State, byte: u8) -> (State, Action)
    ensures { Leads result.0 result.1 (step default_config (state_of state) byte) }
{
    match state {
        State::StartRecord => start_record(byte),
        State::StartField => start_field(byte),
        State::InField => in_field(byte),
        State::InQuoted => in_quoted(byte),
        State::AfterQuote => after_quote(byte),
        State::AfterReturn => after_return(byte),
    }
}

/// Whether the end of the text ends a record.
pub(crate) fn ends_at_end(state: State) -> bool
    ensures { result ≡ ends_at_end (state_of state) }
{
    match state {
        State::StartRecord | State::AfterReturn => false,
        _ => true,
    }
}
