//! The line of a fault, in a buffer of fixed size, so that it needs no memory.
ghost use Rattle.std.specs.Prelude.{◌≡◌, ◌≤◌, ◌+◌, ◌*◌, ◌++◌, length};
ghost use Rattle.runner.specs.FaultText.{fault_text, line_text, number_text, store_fault_text, stored_fault_text};

use crate::fault::RunFault;
use crate::store_fault::{StoreFault, StoredRunFault};
use itoa::Buffer;
use tpcc_rows::row_buf::ByteBuf;

/// More bytes than any line has.
const LINE_BYTES: usize = 200;

/// Maximum size of two lines.
const TWO_LINES: usize = 2 * LINE_BYTES;

/// Maximum length of a part's name.
const PART_BYTES: usize = 10;

/// Maximum length of a fault's name.
const NAME_BYTES: usize = 20;

/// Maximum length of the text on one side of a number.
const SIDE_BYTES: usize = 20;

/// Maximum length of a number with a text on each side.
const NUMBER_BYTES: usize = 60;

/// A buffer for two lines: those of a run that ended early and whose image couldn't be written either.
pub type FaultLine = ByteBuf<TWO_LINES>;

/// Appends a number between two texts, if there is one.
fn push_number(line: &mut FaultLine, before: &str, number: Option<u64>, after: &str)
    requires room { length line.old + NUMBER_BYTES ≤ TWO_LINES }
    requires before { length before.now ≤ SIDE_BYTES }
    requires after { length after.now ≤ SIDE_BYTES }
    ensures text { line.new ≡ line.old ++ number_text before.now number after.now }
    ensures short { length line.new ≤ length line.old + NUMBER_BYTES }
{
    let Some(number) = number else {
        return;
    };
    line.push(before.as_bytes());
    line.push(Buffer::new().format(number).as_bytes());
    line.push(after.as_bytes());
}

/// Appends the line of a fault, by its part, code and name.
fn push_line(
    line: &mut FaultLine,
    part: &str,
    code: u8,
    name: &str,
    condition: Option<u8>,
    place: Option<u64>,
)
    requires room { length line.old ≤ LINE_BYTES }
    requires part { length part.now ≤ PART_BYTES }
    requires name { length name.now ≤ NAME_BYTES }
    ensures text { line.new ≡ line.old ++ line_text part.now code name.now condition place }
    ensures short { length line.new ≤ length line.old + LINE_BYTES }
{
    line.push(b"eve-tpcc: ");
    line.push(part.as_bytes());
    line.push(b": ");
    line.push(Buffer::new().format(code).as_bytes());
    line.push(b" ");
    line.push(name.as_bytes());
    push_number(line, "(", condition.map(u64::from), ")");
    push_number(line, " at record ", place, "");
    line.push(b"\n");
}

/// Appends the line of a run's fault.
fn push_run(line: &mut FaultLine, fault: RunFault)
    requires { length line.old ≤ LINE_BYTES }
    ensures text { line.new ≡ line.old ++ fault_text fault }
    ensures short { length line.new ≤ length line.old + LINE_BYTES }
{
    let (part, code, name) = (fault.part(), fault.code(), fault.name());
    push_line(line, part, code, name, fault.condition(), fault.record());
}

/// Appends the line of an image that couldn't be written.
fn push_store(line: &mut FaultLine, fault: StoreFault)
    requires { length line.old ≤ LINE_BYTES }
    ensures { line.new ≡ line.old ++ store_fault_text fault }
{
    push_line(line, "store", fault.code(), fault.name(), None, None);
}

/// The line that reports a run's fault, as `fault_line` appends it.
pub(crate) fn run_line(fault: RunFault) -> FaultLine
    ensures { result ≡ fault_text fault }
{
    let mut line = FaultLine::new();
    push_run(&mut line, fault);
    line
}

/// The line or lines that report a fault: the part of an image that couldn't be written is `store`, and its line follows that
/// of the run, if that ended early too.
pub fn stored_line(fault: &StoredRunFault) -> FaultLine
    ensures { result ≡ stored_fault_text fault.now }
{
    let mut line = FaultLine::new();
    match *fault {
        StoredRunFault::Run(fault) => push_run(&mut line, fault),
        StoredRunFault::Store(fault) => push_store(&mut line, fault),
        StoredRunFault::Both(fault, store) => {
            push_run(&mut line, fault);
            push_store(&mut line, store);
        }
    }
    line
}
